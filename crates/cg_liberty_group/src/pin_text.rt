//! The pins that a `pin` group describes, as the text has them.

ghost use Rattle.std.specs.Prelude.{◌≡◌, ◌++◌, IfOk, cond, None, Some};
ghost use Rattle.cg_liberty_group.specs.PinText.{few_pins, group_pins, marks_of};

use crate::group::PinGroup;
use cg_liberty_text::text::Text;
use cg_limit::MOST_PINS;
use cg_list::Seq;
use std::alloc::AllocError;

/// What a `pin` group says of each of its pins.
#[derive(Drop)]
pub struct Marks<'a> {
    /// Its direction is `input`.
    pub is_input: bool,

    /// Its direction is `output`.
    pub is_output: bool,

    /// It has a `three_state`.
    pub is_three_state: bool,

    /// It is the clock pin of a gating cell.
    pub is_clock: bool,

    /// It is the enable pin of a gating cell.
    pub is_enable: bool,

    /// It is the test pin of a gating cell.
    pub is_test: bool,

    /// It is the output pin of a gating cell.
    pub is_out: bool,

    /// Its function, where that has a text.
    pub function: Option<Text<'a>>,
}

/// A pin as the text has it.
#[derive(Drop)]
pub struct PinText<'a> {
    /// What stands for its name.
    pub name: Text<'a>,

    /// What is said of it.
    pub marks: Marks<'a>,
}

impl<'a> Marks<'a> {
    /// The same marks once more.
    pub fn again(&self) -> Marks<'a>
        ensures { result ≡ self.now }
    {
        let function = match &self.function {
            Some(text) => Some(text.again()),
            None => None,
        };
        Marks {
            is_input: self.is_input,
            is_output: self.is_output,
            is_three_state: self.is_three_state,
            is_clock: self.is_clock,
            is_enable: self.is_enable,
            is_test: self.is_test,
            is_out: self.is_out,
            function,
        }
    }
}

impl<'a> PinGroup<'a> {
    /// What the group says of each of its pins.
    fn marks(&self) -> Marks<'a>
        ensures { result ≡ marks_of self.now }
    {
        Marks {
            is_input: self.direction.states(b"input"),
            is_output: self.direction.states(b"output"),
            is_three_state: self.three_state.is_there(),
            is_clock: self.clock_pin.states(b"true"),
            is_enable: self.enable_pin.states(b"true"),
            is_test: self.test_pin.states(b"true"),
            is_out: self.out_pin.states(b"true"),
            function: self.function.text(),
        }
    }
}

/// Puts the pins of a group behind the others, and answers whether there are no more than a usable cell has; those of an
/// internal group are left out. It stops at the first that is too many.
#[tactic(auto, using(crate::proofs::FewPins::one_too_many))]
pub(crate) fn add_pins<'a>(
    pins: &mut Seq<PinText<'a>>,
    group: &PinGroup<'a>,
) -> Result<bool, AllocError>
    ensures { IfOk result (λ few. cond few (Some pins.new) None ≡ few_pins (pins.old ++ group_pins group.now)) }
{
    if group.direction.states(b"internal") {
        return Ok(pins.len() <= MOST_PINS);
    }
    let mut names = group.names.again();
    'names: while let Some(name) = names.next() {
        if pins.len() >= MOST_PINS {
            return Ok(false);
        }
        let marks = group.marks();
        pins.push(PinText { name, marks })?;
    }
    Ok(pins.len() <= MOST_PINS)
}
