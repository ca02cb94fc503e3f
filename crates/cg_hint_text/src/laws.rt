//! What is proved of hints that are read.

ghost use Rattle.cg_hint_text.specs.Laws.{OfNetlistFits, ReadAreOf, SaidAreRead};

/// The laws of reading: what is read of a text is what its lines say, and nothing that they say is refused; the hints that a text
/// says for a netlist are hints of it, so that they fit its machine.
///
/// The call does nothing; callers use what it ensures.
pub fn read_laws()
    ensures said { SaidAreRead }
    ensures read { ReadAreOf }
    ensures fits { OfNetlistFits }
{}
