//! What is true of Verilog texts and of V-equal netlists.
//!
//! Each law is what a call ensures that does nothing: so it is proved as every contract is, and callers can use it.

ghost use Rattle.cg_verilog_text.specs.Laws.{FormsAreMeant, LabelsAreOwn, NoTextSaysTwo, SameHistories, TextReadsBack, TextsAreReadOnce, TextsSayPlaceable};

/// V-equal netlists have the same lawful histories, with the same outputs and edges.
pub fn same_histories()
    ensures { SameHistories }
{}

/// The text of a placeable netlist is read back as a netlist that is V-equal to it.
pub fn text_reads_back()
    ensures { TextReadsBack }
{}

/// No text says two netlists.
pub fn one_netlist_said()
    ensures { NoTextSaysTwo }
{}

/// A text says placeable netlists alone.
pub fn said_is_placeable()
    ensures { TextsSayPlaceable }
{}

/// Each text is read as one thing, a netlist or a fault, and none as two.
pub fn text_is_read_once()
    ensures { TextsAreReadOnce }
{}

/// A form that is read says a cover with the value of the form.
pub fn form_is_meant()
    ensures { FormsAreMeant }
{}

/// Each placed cell that is written has a label of its own, which is no net's name.
pub fn label_is_own()
    ensures { LabelsAreOwn }
{}
