//! What is true of BLIF texts.
//!
//! Each law is what a call ensures that does nothing: so it is proved as every contract is, and callers can use it.

ghost use Rattle.cg_blif_text.specs.Laws.{CanonicalTextSays, FaultsAreFirst, NoTextSaysTwo, TextsSayWritable};

/// No text says two netlists.
pub fn one_netlist_said()
    ensures { NoTextSaysTwo }
{}

/// The canonical text of a writable netlist says that netlist.
pub fn canonical_text_says()
    ensures { CanonicalTextSays }
{}

/// A text says writable netlists alone.
pub fn said_is_writable()
    ensures { TextsSayWritable }
{}

/// What lines tell is a fault exactly where it is the first by the table, of the first line that has one.
pub fn told_fault_is_first()
    ensures { FaultsAreFirst }
{}
