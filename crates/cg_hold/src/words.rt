//! Words of added gates and of literals: 64 bits at once, one of each of 64 cycles, each in a lane of its own.

ghost use Rattle.std.specs.Prelude.{◌≡◌, ◌<◌, not, length};
ghost use Rattle.cg_cell.specs.Cover.{cover_value};
ghost use Rattle.cg_machine.specs.Gates.{HasInputs, gate_cover};
ghost use Rattle.cg_machine.specs.Claims.{literal_bit};
ghost use Rattle.cg_netlist.specs.Moment.{bit};
ghost use Rattle.cg_word.specs.Words.{IsWord, lane};

use cg_cell::fit::FitKind;
use cg_machine::stage::NetLit;
use cg_word::words::inverse;

/// The word of an added gate at words of its inputs.
pub(crate) fn gate_word(kind: FitKind, inputs: &[u64]) -> u64
    requires { HasInputs kind (length inputs.now) }
    ensures { IsWord result (λ i. cover_value (gate_cover kind) (lane i inputs.now)) }
{
    match kind {
        FitKind::Inv => inverse(inputs[0]),
        FitKind::And2 => inputs[0] & inputs[1],
        FitKind::Or2 => inputs[0] | inputs[1],
        FitKind::Gater | FitKind::TestGater => 0,
    }
}

/// The lanes in which a literal is 0, by the words of nets.
pub(crate) fn zeros(nets: &[u64], literal: NetLit) -> u64
    requires { literal.0 < length nets.now }
    ensures { IsWord result (λ i. not (literal_bit (bit (lane i nets.now)) literal)) }
{
    let word = nets[literal.net.number() as usize];
    if literal.inverted {
        word
    } else {
        inverse(word)
    }
}
