//! Nets of a rank, by letter and number.

ghost use Rattle.std.specs.Prelude.{◌≡◌, ◌++◌, ◌∷◌, decimal, OnOk};
ghost use Rattle.cg_demo.specs.Pipeline.{net, nets};

use cg_text::number::push_number;
use std::alloc::AllocError;

/// Puts a text and a number behind a text.
pub fn push_numbered(text: &mut Vec<u8>, before: &[u8], i: u32) -> Result<(), AllocError>
    ensures { OnOk result (text.new.items ≡ text.old.items ++ (before.now ++ decimal i)) }
{
    text.extend_from_slice(before)?;
    push_number(text, u64::from(i))
}

/// Puts a net of a rank behind a text and a space.
pub fn push_net(text: &mut Vec<u8>, letter: u8, i: u32) -> Result<(), AllocError>
    ensures { OnOk result (text.new.items ≡ text.old.items ++ 32 ∷ net letter i) }
{
    text.push(b' ')?;
    text.push(letter)?;
    push_number(text, u64::from(i))
}

/// Puts the nets of a rank behind a text, each behind a space.
#[tactic(auto, using(crate::proofs::Eaches::eaches))]
pub fn push_nets(text: &mut Vec<u8>, n: u32, letter: u8) -> Result<(), AllocError>
    ensures { OnOk result (text.new.items ≡ text.old.items ++ nets n letter) }
{
    'nets: for i in 0..n {
        push_net(text, letter, i)?;
    }
    Ok(())
}
