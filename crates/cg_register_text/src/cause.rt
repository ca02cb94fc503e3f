//! Why a register is gated, or why it is not.

ghost use Rattle.std.specs.Prelude.{◌≡◌};
ghost use Rattle.cg_register_text.specs.Words.{is_free, is_gated, is_given, is_tried, is_wide};

/// Why a register is gated, or why it is not. Stages and hints stand by their numbers, which are counted from 1.
#[derive(Clone, Copy, Debug, PartialEq, Eq)]
pub enum Cause {
    /// Hints or stages gave it its enable.
    Gated,

    /// It had an enable in the netlist, and no stage has it.
    Given,

    /// No stage or hint gave it an enable, and this is the last stage that has it.
    Stage(u64),

    /// No stage has it, its hold claims are not too wide, no hint gave it an enable, and this is the last hint that has it.
    Hint(u64),

    /// No stage has it, and its hold claims have this many leaves, more than a claim may have.
    Wide(u64),

    /// None of these: no literal of its cone that can be 0 holds it.
    Free,
}

impl Cause {
    /// Whether hints or stages gave the register its enable.
    pub fn is_gated(self) -> bool
        ensures { result ≡ is_gated self }
    {
        matches!(self, Cause::Gated)
    }

    /// Whether it has its enable from the netlist.
    pub fn is_given(self) -> bool
        ensures { result ≡ is_given self }
    {
        matches!(self, Cause::Given)
    }

    /// Whether a stage or a hint was tried for it in vain.
    pub fn is_tried(self) -> bool
        ensures { result ≡ is_tried self }
    {
        matches!(self, Cause::Stage(_) | Cause::Hint(_))
    }

    /// Whether its hold claims are too wide.
    pub fn is_wide(self) -> bool
        ensures { result ≡ is_wide self }
    {
        matches!(self, Cause::Wide(_))
    }

    /// Whether it has no other cause.
    pub fn is_free(self) -> bool
        ensures { result ≡ is_free self }
    {
        matches!(self, Cause::Free)
    }
}
