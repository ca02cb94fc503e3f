//! What a word of the generator makes of a bit.

ghost use Rattle.std.specs.Prelude.{◌≡◌};
ghost use Rattle.cg_random.specs.RandomRows.{is_anew, new_bit, next_bit};

/// A bit that a word makes anew: its lowest one.
pub(crate) fn new_bit(word: u32) -> bool
    ensures { result ≡ new_bit word }
{
    word % 2 == 1
}

/// The bit that follows a bit: it is made anew in one of eight cases, and else it stays.
pub(crate) fn next_bit(before: bool, word: u32) -> bool
    ensures { result ≡ next_bit before word }
{
    if is_anew(word) { new_bit(word) } else { before }
}

/// Whether a word makes its bit anew: the three bits above the lowest are 0.
fn is_anew(word: u32) -> bool
    ensures { result ≡ is_anew word }
{
    word / 2 % 8 == 0
}
