//! What bounds a plan.

/// The settings of a plan.
#[derive(Clone, Copy, Debug, PartialEq, Eq)]
pub struct Settings {
    /// How many registers a stage needs at least.
    pub min: u32,

    /// How many leaves a claim may have.
    pub width: u32,

    /// How many rounds of stability there are, and how many of unobservability.
    pub rounds: u32,

    /// Whether gating cells have a test input.
    pub test: bool,

    /// Whether the proofs of the claims of inserted stages are kept.
    pub proof: bool,
}
