//! The text of a netlist, part by part: what the line of each part says, a statement as a line, and the rows of a cover.

ghost use Rattle.std.specs.Prelude.{◌≡◌, ◌++◌, List, None, IfOk, OnOk, ◌<◌, ℕ, Some, length, slice_get, ◌≤◌, map, slice_index, ◌∷◌, [], Option, unwrap_or};
ghost use Rattle.std.specs.List.{flat_map};
ghost use Rattle.cg_blif_out.specs.Writing.{cell_text, clock_text, gater_text, header_text, register_text, function_rows, HasDigit, pins_text, spaced, rows_text};
ghost use Rattle.cg_blif_text.specs.BlifText.{BlifText};
ghost use Rattle.cg_blif_text.specs.Canonical.{blif, function_statement, gater_statement, kind_statement, register_statement, pin_text, statement_line, bit_byte, place_byte, row_words};
ghost use Rattle.cg_blif_text.specs.declared.statement.Statement.TheVariants.{Gate, Names, Latch};
ghost use Rattle.cg_cell.specs.Cell.{CellData};
ghost use Rattle.cg_net.specs.Names.{net_name};
ghost use Rattle.cg_netlist.specs.Circuit.{GatingCell, LogicCell, RegisterCell};
ghost use Rattle.cg_netlist.specs.Netlist.{IsNetlist};
ghost use Rattle.cg_netlist.specs.View.{function_seen, cell_seen, gater_seen, register_seen};
ghost use Rattle.cg_netlist.specs.WellFormed.{FitsKind};
ghost use Rattle.cg_netlist.specs.Wiring.{map_gater, map_register};
ghost use Rattle.cg_netlist.specs.declared.parts.RegisterKind.TheVariants.{Plain, Flop};
ghost use Rattle.cg_netlist_parts.specs.Writable.{IsWritable, NIL};
ghost use Rattle.cg_netlist_placed.specs.Within.{CellNets, GaterNets, RegisterNets};
ghost use Rattle.cg_text.specs.Written.{line_text};

use cg_blif_text::statement::{Statement, Word};
use cg_cell::cell::CellType;
use cg_cell::cover::Cover;
use cg_cell::rows::CoverRows;
use cg_list::Seq;
use cg_net::id::{CellId, GateClockId, NetId, RegId};
use cg_netlist::netlist::Netlist;
use cg_netlist::parts::{CellView, Function, GaterView, RegKind, RegView};
use cg_netlist_placed::pin::PinWord;
use cg_netlist_placed::pins::{flop_pins, gater_pins, logic_pins};
use std::alloc::{AllocError, Global};

/// The canonical BLIF text of a netlist: the model, the inputs, the outputs, the clock where there is one, the logic
/// cells, the gating cells, the registers, and the end. Takes one pass, and time and memory as the text is long.
pub fn write_blif(alloc: Global, netlist: &Netlist) -> Result<Vec<u8>, AllocError>
    ensures text { IfOk result (λ text. text.items ≡ blif netlist.now) }

    // Where the netlist is writable with a library, the text says the netlist with the cells of that library: it is read
    // back as an equal one.
    ensures says { IfOk result (λ text. (library : List CellData) → IsWritable library netlist.now → BlifText text.items library None netlist.now) }
{
    let _ = netlist.cells();
    canonical(alloc, netlist)
}

/// The canonical text.
#[tactic(auto, using(crate::proofs::WholeText::whole))]
fn canonical(alloc: Global, netlist: &Netlist) -> Result<Vec<u8>, AllocError>
    requires { IsNetlist netlist.now }
    ensures { IfOk result (λ text. text.items ≡ blif netlist.now) }
{
    let mut out = Vec::new(alloc);
    push_header(alloc, &mut out, netlist)?;
    push_cells(alloc, &mut out, netlist)?;
    push_gaters(alloc, &mut out, netlist)?;
    push_registers(alloc, &mut out, netlist)?;
    out.extend_from_slice(b".end\n")?;
    Ok(out)
}

/// Appends the lines before the parts.
#[tactic(auto, using(crate::proofs::WholeText::whole))]
fn push_header(alloc: Global, out: &mut Vec<u8>, netlist: &Netlist) -> Result<(), AllocError>
    requires { IsNetlist netlist.now }
    ensures { OnOk result (out.new.items ≡ out.old.items ++ header_text netlist.now) }
{
    push_statement(out, &Statement::Model(Word::new(netlist.model())))?;
    let inputs = words(alloc, netlist, netlist.inputs())?;
    push_statement(out, &Statement::Inputs(Seq::from_vec(inputs)))?;
    let outputs = words(alloc, netlist, netlist.outputs())?;
    push_statement(out, &Statement::Outputs(Seq::from_vec(outputs)))?;
    push_clock(alloc, out, netlist)
}

/// Appends the line of the clock, where there is one.
fn push_clock(alloc: Global, out: &mut Vec<u8>, netlist: &Netlist) -> Result<(), AllocError>
    requires { IsNetlist netlist.now }
    ensures { OnOk result (out.new.items ≡ out.old.items ++ clock_text netlist.now.names netlist.now.clock) }
{
    match netlist.clock() {
        None => Ok(()),
        Some(clock) => {
            let mut clocks = Vec::new(alloc);
            clocks.push(word(netlist, clock))?;
            push_statement(out, &Statement::Clocks(Seq::from_vec(clocks)))
        }
    }
}

/// Appends the lines of the logic cells.
fn push_cells(alloc: Global, out: &mut Vec<u8>, netlist: &Netlist) -> Result<(), AllocError>
    requires { IsNetlist netlist.now }
    ensures { OnOk result (out.new.items ≡ out.old.items ++ flat_map (cell_text netlist.now.names) netlist.now.cells) }
{
    'cells: for number in 0..netlist.cells() {
        push_cell(alloc, out, netlist, CellId::new(number))?;
    }
    Ok(())
}

/// Appends the lines of the gating cells.
fn push_gaters(alloc: Global, out: &mut Vec<u8>, netlist: &Netlist) -> Result<(), AllocError>
    requires { IsNetlist netlist.now }
    ensures { OnOk result (out.new.items ≡ out.old.items ++ flat_map (gater_text netlist.now.names) netlist.now.gaters) }
{
    'gaters: for number in 0..netlist.gaters() {
        push_gater(alloc, out, netlist, GateClockId::new(number))?;
    }
    Ok(())
}

/// Appends the lines of the registers.
fn push_registers(alloc: Global, out: &mut Vec<u8>, netlist: &Netlist) -> Result<(), AllocError>
    requires { IsNetlist netlist.now }
    ensures { OnOk result (out.new.items ≡ out.old.items ++ flat_map (register_text netlist.now.names) netlist.now.registers) }
{
    'registers: for number in 0..netlist.registers() {
        push_register(alloc, out, netlist, RegId::new(number))?;
    }
    Ok(())
}

/// Appends the lines of a logic cell, which must be one of the netlist's.
fn push_cell(
    alloc: Global,
    out: &mut Vec<u8>,
    netlist: &Netlist,
    id: CellId,
) -> Result<(), AllocError>
    requires netlist { IsNetlist netlist.now }
    requires id { id < length netlist.now.cells }
    ensures { OnOk result ((cell : LogicCell ℕ) → slice_get netlist.now.cells id ≡ Some cell
        → out.new.items ≡ out.old.items ++ cell_text netlist.now.names cell) }
{
    let cell = netlist.cell(id);
    let statement = cell_statement(alloc, netlist, &cell)?;
    push_statement(out, &statement)?;
    push_function_rows(out, &cell.function)
}

/// Appends the rows of a cover, and nothing for a placed cell.
fn push_function_rows(out: &mut Vec<u8>, function: &Function<'_>) -> Result<(), AllocError>
    ensures { OnOk result (out.new.items ≡ out.old.items ++ function_rows (function_seen function.now)) }
{
    match function {
        Function::Cover(cover) => push_rows(out, cover),
        Function::Cell(_) => Ok(()),
    }
}

/// Appends the line of a gating cell, which must be one of the netlist's.
fn push_gater(
    alloc: Global,
    out: &mut Vec<u8>,
    netlist: &Netlist,
    id: GateClockId,
) -> Result<(), AllocError>
    requires netlist { IsNetlist netlist.now }
    requires id { id < length netlist.now.gaters }
    ensures { OnOk result ((gater : GatingCell ℕ) → slice_get netlist.now.gaters id ≡ Some gater
        → out.new.items ≡ out.old.items ++ gater_text netlist.now.names gater) }
{
    let gater = netlist.gater(id);
    let statement = gater_statement(alloc, netlist, &gater)?;
    push_statement(out, &statement)
}

/// Appends the line of a register, which must be one of the netlist's.
fn push_register(
    alloc: Global,
    out: &mut Vec<u8>,
    netlist: &Netlist,
    id: RegId,
) -> Result<(), AllocError>
    requires netlist { IsNetlist netlist.now }
    requires id { id < length netlist.now.registers }
    ensures { OnOk result ((register : RegisterCell ℕ ℕ) → slice_get netlist.now.registers id ≡ Some register
        → out.new.items ≡ out.old.items ++ register_text netlist.now.names register) }
{
    let statement = register_statement(alloc, netlist, id)?;
    push_statement(out, &statement)
}

/// What the line of a logic cell says; the rows of a cover stand behind it.
fn cell_statement<'a>(
    alloc: Global,
    netlist: &'a Netlist,
    cell: &CellView<'a>,
) -> Result<Statement<'a>, AllocError>
    requires netlist { IsNetlist netlist.now }
    requires nets { CellNets netlist.now (cell_seen cell.now) }
    ensures { IfOk result (λ s. s ≡ function_statement (map (net_name netlist.entry.now.names) cell.entry.now.inputs.now)
        (net_name netlist.entry.now.names cell.entry.now.output) (function_seen cell.entry.now.function)) }
{
    match cell.function {
        Function::Cover(_) => {
            let inputs = words(alloc, netlist, cell.inputs)?;
            Ok(Statement::Names(Seq::from_vec(inputs), word(netlist, cell.output)))
        }
        Function::Cell(placed) => {
            let pins = logic_pins(alloc, netlist, placed.pins(), cell.inputs, cell.output)?;
            Ok(gate_statement(placed, pins))
        }
    }
}

/// What the line of a gating cell says.
fn gater_statement<'a>(
    alloc: Global,
    netlist: &'a Netlist,
    gater: &GaterView<'a>,
) -> Result<Statement<'a>, AllocError>
    requires { GaterNets netlist.now (gater_seen gater.now) }
    ensures { IfOk result (λ s. s ≡ gater_statement (map_gater (net_name netlist.entry.now.names) (gater_seen gater.entry.now))) }
{
    let pins = gater_pins(alloc, netlist, gater.cell.pins(), gater)?;
    Ok(gate_statement(gater.cell, pins))
}

/// What the line of a register says, which must be one of the netlist's.
fn register_statement<'a>(
    alloc: Global,
    netlist: &'a Netlist,
    id: RegId,
) -> Result<Statement<'a>, AllocError>
    requires netlist { IsNetlist netlist.now }
    requires id { id < length netlist.now.registers }
    ensures { IfOk result (λ s. (register : RegisterCell ℕ ℕ) → slice_get netlist.entry.now.registers id ≡ Some register
        → (s ≡ register_statement (map_register (net_name netlist.entry.now.names) register)) × (register.init ≤ 3)) }
{
    let register = netlist.register(id);
    match register.kind {
        RegKind::Plain => Ok(plain_statement(netlist, &register)),
        RegKind::Cell(placed) => flop_statement(alloc, netlist, placed, &register),
    }
}

/// What the line of a placed register says.
fn flop_statement<'a>(
    alloc: Global,
    netlist: &'a Netlist,
    cell: &'a CellType,
    register: &RegView<'a>,
) -> Result<Statement<'a>, AllocError>
    requires nets { RegisterNets netlist.now (register_seen register.now) }
    requires places { length register.now.pins.now ≡ length register.now.outputs.now }
    ensures { IfOk result (λ s. s ≡ kind_statement (map_register (net_name netlist.entry.now.names) (register_seen register.entry.now)) (Flop cell.entry.now)) }
{
    let pins = flop_pins(alloc, netlist, cell.pins(), register)?;
    Ok(gate_statement(cell, pins))
}

/// What the line of a placed cell says, with these nets at its pins.
fn gate_statement<'a>(cell: &'a CellType, pins: Vec<PinWord<'a>>) -> Statement<'a>
    ensures { result ≡ Gate cell.entry.now.name pins.entry.items }
{
    Statement::Gate(Word::new(cell.name().bytes()), Seq::from_vec(pins))
}

/// What the line of a plain register says.
fn plain_statement<'a>(netlist: &'a Netlist, register: &RegView<'a>) -> Statement<'a>
    requires netlist { IsNetlist netlist.now }
    requires nets { RegisterNets netlist.now (register_seen register.now) }
    requires fits { FitsKind Plain (register_seen register.now) }
    ensures { result ≡ kind_statement (map_register (net_name netlist.entry.now.names) (register_seen register.entry.now)) Plain }
{
    match (register.inputs, register.outputs) {
        ([input, ..], [output, ..]) => Statement::Latch(
            word(netlist, *input),
            word(netlist, output.0),
            Some(word(netlist, register.clock)),
            register.init,
        ),
        _ => unreachable!(),
    }
}

/// The name of a net, which must be one of the netlist's.
fn word<'a>(netlist: &'a Netlist, net: NetId) -> Word<'a>
    requires netlist { IsNetlist netlist.now }
    requires net { net < length netlist.now.names }
    ensures { result ≡ net_name netlist.entry.now.names net }
{
    Word::new(netlist.name(net))
}

/// The names of nets, which must be the netlist's.
fn words<'a>(
    alloc: Global,
    netlist: &'a Netlist,
    nets: &[NetId],
) -> Result<Vec<Word<'a>>, AllocError>
    requires netlist { IsNetlist netlist.now }
    requires nets { (k : ℕ) → k < length nets.now → slice_index nets.now k < length netlist.now.names }
    ensures { IfOk result (λ words. words.items ≡ map (net_name netlist.entry.now.names) nets.now) }
{
    let mut words = Vec::with_capacity(alloc, nets.len())?;
    'nets: for net in nets {
        words.push(word(netlist, *net))?;
    }
    Ok(words)
}

/// Appends the line of a statement. The init of a register is one digit.
fn push_statement(out: &mut Vec<u8>, statement: &Statement<'_>) -> Result<(), AllocError>
    requires { HasDigit statement.now }
    ensures { OnOk result (out.new.items ≡ out.old.items ++ line_text (statement_line statement.now)) }
{
    match statement {
        Statement::Model(name) => push_line(out, b".model", &[Word::new(name.bytes())]),
        Statement::Inputs(nets) => push_line(out, b".inputs", nets.as_slice()),
        Statement::Outputs(nets) => push_line(out, b".outputs", nets.as_slice()),
        Statement::Clocks(nets) => push_line(out, b".clock", nets.as_slice()),
        Statement::Names(inputs, output) => push_names(out, inputs.as_slice(), output),
        Statement::Latch(input, output, clock, init) => push_latch(
            out, input, output, clock, *init,
        ),
        Statement::Gate(cell, pins) => push_gate(out, cell, pins.as_slice()),
        Statement::Skipped => push_line(out, b".param", &[]),
        Statement::End => push_line(out, b".end", &[]),
    }
}

/// Appends words, each behind a space.
#[tactic(auto, using(crate::proofs::WritingLemmas::names))]
fn push_words(out: &mut Vec<u8>, words: &[Word<'_>]) -> Result<(), AllocError>
    ensures { OnOk result (out.new.items ≡ out.old.items ++ spaced words.now) }
{
    'words: for word in words {
        out.push(b' ')?;
        out.extend_from_slice(word.bytes())?;
    }
    Ok(())
}

/// Appends a line of a command and words.
#[tactic(auto, using(crate::proofs::WritingLemmas::lines))]
fn push_line(out: &mut Vec<u8>, command: &[u8], words: &[Word<'_>]) -> Result<(), AllocError>
    ensures { OnOk result (out.new.items ≡ out.old.items ++ line_text (command.now ∷ words.now)) }
{
    out.extend_from_slice(command)?;
    push_words(out, words)?;
    out.extend_from_slice(b"\n")
}

/// Appends a `.names` line.
#[tactic(auto, using(crate::proofs::WritingLemmas::names_lines))]
fn push_names(out: &mut Vec<u8>, inputs: &[Word<'_>], output: &Word<'_>) -> Result<(), AllocError>
    ensures { OnOk result (out.new.items ≡ out.old.items ++ line_text (statement_line (Names inputs.now output.now))) }
{
    out.extend_from_slice(b".names")?;
    push_words(out, inputs)?;
    out.push(b' ')?;
    out.extend_from_slice(output.bytes())?;
    out.extend_from_slice(b"\n")
}

/// Appends a `.latch` line.
#[tactic(auto, using(crate::proofs::WritingLemmas::latches))]
fn push_latch(
    out: &mut Vec<u8>,
    input: &Word<'_>,
    output: &Word<'_>,
    clock: &Option<Word<'_>>,
    init: u8,
) -> Result<(), AllocError>
    requires { init ≤ 3 }
    ensures { OnOk result (out.new.items ≡ out.old.items ++ line_text (statement_line (Latch input.now output.now clock.now init))) }
{
    out.extend_from_slice(b".latch ")?;
    out.extend_from_slice(input.bytes())?;
    out.push(b' ')?;
    out.extend_from_slice(output.bytes())?;
    out.extend_from_slice(b" re ")?;
    push_latch_clock(out, clock)?;
    out.extend_from_slice(&[b' ', b'0' + init, b'\n'])
}

/// Appends the clock of a register, and `NIL` for the one global clock.
fn push_latch_clock(out: &mut Vec<u8>, clock: &Option<Word<'_>>) -> Result<(), AllocError>
    ensures { OnOk result (out.new.items ≡ out.old.items ++ unwrap_or clock.now NIL) }
{
    match clock {
        None => out.extend_from_slice(b"NIL"),
        Some(clock) => out.extend_from_slice(clock.bytes()),
    }
}

/// Appends a `.gate` line.
#[tactic(auto, using(crate::proofs::WritingLemmas::gates))]
fn push_gate(out: &mut Vec<u8>, cell: &Word<'_>, pins: &[PinWord<'_>]) -> Result<(), AllocError>
    ensures { OnOk result (out.new.items ≡ out.old.items ++ line_text (statement_line (Gate cell.now pins.now))) }
{
    out.extend_from_slice(b".gate ")?;
    out.extend_from_slice(cell.bytes())?;
    push_pins(out, pins)?;
    out.extend_from_slice(b"\n")
}

/// Appends pins with their nets, each behind a space.
#[tactic(auto, using(crate::proofs::WritingLemmas::pins))]
fn push_pins(out: &mut Vec<u8>, pins: &[PinWord<'_>]) -> Result<(), AllocError>
    ensures { OnOk result (out.new.items ≡ out.old.items ++ pins_text pins.now) }
{
    'pins: for pin in pins {
        push_pin(out, pin)?;
    }
    Ok(())
}

/// Appends a pin with its net, behind a space.
fn push_pin(out: &mut Vec<u8>, pin: &PinWord<'_>) -> Result<(), AllocError>
    ensures { OnOk result (out.new.items ≡ out.old.items ++ 32 ∷ pin_text pin.now) }
{
    out.push(b' ')?;
    out.extend_from_slice(pin.pin)?;
    out.push(b'=')?;
    match pin.net {
        None => Ok(()),
        Some(net) => out.extend_from_slice(net),
    }
}

/// Appends the rows of a cover, each as a line.
fn push_rows(out: &mut Vec<u8>, cover: &Cover) -> Result<(), AllocError>
    ensures { OnOk result (out.new.items ≡ out.old.items ++ rows_text cover.now.on cover.now.rows) }
{
    push_rows_on(out, cover.rows(), cover.on())
}

/// Appends rows of this value, each as a line.
#[tactic(auto, using(crate::proofs::WritingLemmas::turns))]
fn push_rows_on(out: &mut Vec<u8>, rows: &CoverRows, on: bool) -> Result<(), AllocError>
    ensures { OnOk result (out.new.items ≡ out.old.items ++ rows_text on rows.now) }
{
    'rows: for k in 0..rows.len() {
        push_row(out, rows.row(k), on)?;
    }
    Ok(())
}

/// Appends a row as a line: the places, if there are inputs, and the value.
#[tactic(auto, using(crate::proofs::WritingLemmas::rows))]
fn push_row(out: &mut Vec<u8>, row: &[Option<bool>], on: bool) -> Result<(), AllocError>
    ensures { OnOk result (out.new.items ≡ out.old.items ++ line_text (row_words on row.now)) }
{
    push_places(out, row)?;
    if !row.is_empty() {
        out.push(b' ')?;
    }
    out.push(bit_byte(on))?;
    out.push(b'\n')?;
    Ok(())
}

/// Appends a byte for each place of a row.
#[tactic(auto, using(crate::proofs::WritingLemmas::turns))]
fn push_places(out: &mut Vec<u8>, places: &[Option<bool>]) -> Result<(), AllocError>
    ensures { OnOk result (out.new.items ≡ out.old.items ++ map place_byte places.now) }
{
    'places: for place in places {
        out.push(place_byte(*place))?;
    }
    Ok(())
}

/// A bit as a byte.
fn bit_byte(bit: bool) -> u8
    ensures { result ≡ bit_byte bit }
{
    if bit { b'1' } else { b'0' }
}

/// A place of a row as a byte: `-` where the row leaves the input open.
fn place_byte(place: Option<bool>) -> u8
    ensures { result ≡ place_byte place }
{
    match place {
        None => b'-',
        Some(bit) => bit_byte(bit),
    }
}
