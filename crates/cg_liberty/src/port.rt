//! The pins of a cell, from its `pin` groups.

ghost use Rattle.std.specs.Prelude.{◌≡◌, ◌&&◌, ◌||◌, ◌++◌, IfOk, IfSome, cond, map, not, None, Some};
ghost use Rattle.std.specs.List.{list_any};
ghost use Rattle.std.specs.Str.{bytes_eq};
ghost use Rattle.cg_cell.specs.Name.{are_distinct, has_no_equals};
ghost use Rattle.cg_liberty_group.specs.declared.pin_text.PinText.{PinText};
ghost use Rattle.cg_liberty.specs.Port.{ArePorts, fit_together, is_sound, ports_of, ports_that_fit, sound_ports};

use cg_cell::name::Name;
use cg_liberty_group::group::CellGroup;
use cg_liberty_group::pin_text::{Marks, PinText};
use cg_limit::MOST_PINS;
use cg_list::Seq;
use std::alloc::{AllocError, Global};

/// A pin of a cell.
#[derive(Drop)]
pub struct Port<'a> {
    /// Its name.
    pub name: Name,

    /// What is said of it.
    pub marks: Marks<'a>,
}

/// Whether the byte `=` is not among the bytes.
fn lacks_equals(bytes: &[u8]) -> bool
    ensures { result ≡ has_no_equals bytes.now }
{
    bytes.iter().all(|byte| *byte != b'=')
}

/// Whether a usable cell may have a pin of this name with these marks.
fn can_be_port(name: &[u8], marks: &Marks<'_>) -> bool
    ensures { result ≡ is_sound (record { name = name.now; marks = marks.now }) }
{
    Name::is_name(name)
        && lacks_equals(name)
        && (marks.is_input || marks.is_output)
        && !marks.is_three_state
}

/// The pin with its name, where a usable cell may have it.
fn sound_port<'a>(alloc: Global, pin: &PinText<'a>) -> Result<Option<Port<'a>>, AllocError>
    ensures { IfOk result (λ port. port ≡ cond (is_sound pin.now) (Some (record { name = pin.now.name; marks = pin.now.marks })) None) }
{
    let bytes = pin.name.bytes(alloc)?;
    if !can_be_port(&bytes, &pin.marks) {
        return Ok(None);
    }
    let name = Name::new(alloc, &bytes)?;
    Ok(Some(Port {
        name,
        marks: pin.marks.again(),
    }))
}

/// The pins with their names, where a usable cell may have all of them.
#[tactic(auto, using(crate::proofs::SoundPorts::sound_step))]
fn sound_ports_of<'a>(
    alloc: Global,
    pins: &[PinText<'a>],
) -> Result<Option<Seq<Port<'a>>>, AllocError>
    ensures { IfOk result (λ ports. ports ≡ sound_ports pins.now) }
{
    let mut ports = Seq::new(alloc);
    'pins: for pin in pins {
        match sound_port(alloc, pin)? {
            Some(port) => ports.push(port)?,
            None => return Ok(None),
        }
    }
    Ok(Some(ports))
}

/// Whether some port has this name.
fn is_taken(ports: &[Port<'_>], name: &Name) -> bool
    ensures { result ≡ list_any (bytes_eq name.now) (map (λ port. port.name) ports.now) }
{
    'ports: for port in ports {
        if name.bytes() == port.name.bytes() {
            return true;
        }
    }
    false
}

/// Whether no two ports have one name.
fn are_apart(ports: &[Port<'_>]) -> bool
    ensures { result ≡ are_distinct (map (λ port. port.name) ports.now) }
{
    'ports: for (i, port) in ports.iter().enumerate() {
        if is_taken(&ports[i + 1..], &port.name) {
            return false;
        }
    }
    true
}

/// Whether one cell may have these pins together.
fn are_together(ports: &[Port<'_>]) -> bool
    ensures { result ≡ fit_together ports.now }
{
    ports.len() <= MOST_PINS && are_apart(ports)
}

/// The pins of a cell whose kind is to be looked for further; none where the cell is unusable by its
/// name, its pins or its buses.
#[tactic(auto, using(crate::proofs::PortFacts::found_facts))]
pub fn ports_of_cell<'a>(
    alloc: Global,
    cell: &CellGroup<'a>,
) -> Result<Option<Seq<Port<'a>>>, AllocError>
    ensures ports { IfOk result (λ ports. ports ≡ ports_of cell.now) }
    ensures facts { IfOk result (λ ports. IfSome ports ArePorts) }
{
    let ports = find_ports(alloc, cell)?;
    Ok(ports)
}

/// Whether a cell may have ports at all, by its name and its buses.
fn may_have_ports(alloc: Global, cell: &CellGroup<'_>) -> Result<bool, AllocError>
    ensures { IfOk result (λ may. may ≡ not (cell.now.has_bus || not (has_no_equals cell.now.name))) }
{
    let name = cell.name.bytes(alloc)?;
    Ok(!cell.has_bus && lacks_equals(&name))
}

/// The ports, where one cell may have them together.
fn ports_that_fit<'a>(ports: Option<Seq<Port<'a>>>) -> Option<Seq<Port<'a>>>
    ensures { result ≡ ports_that_fit ports.entry }
{
    let ports = ports?;
    if are_together(ports.as_slice()) {
        Some(ports)
    } else {
        None
    }
}

/// The pins that one cell may have.
fn find_ports<'a>(alloc: Global, cell: &CellGroup<'a>) -> Result<Option<Seq<Port<'a>>>, AllocError>
    ensures { IfOk result (λ ports. ports ≡ ports_of cell.now) }
{
    if !may_have_ports(alloc, cell)? {
        return Ok(None);
    }
    match &cell.pins {
        Some(pins) => Ok(ports_that_fit(sound_ports_of(alloc, pins.as_slice())?)),
        None => Ok(None),
    }
}
