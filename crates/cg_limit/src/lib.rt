//! The limits of what is read and built, a crate of its own since every reader and every builder refuses by them: each with its
//! number, and what every refusal has in common. Beside them stand the bounds and the defaults of the numbers that options take.
//!
//! A text or a circuit at a limit is taken; one past it is refused with the [`Limit`] that it passes. The pins of a cell alone
//! have a limit that nothing is refused for: [`MOST_PINS`].
#![tactic(auto)]

/// A quantity that has a limit. A refusal that names it says that the limit would be passed.
#[derive(Clone, Copy, Debug, PartialEq, Eq)]
pub enum Limit {
    /// Bytes of one file: [`MOST_FILE_BYTES`].
    File,

    /// Nets of one netlist: [`MOST_NETS`].
    Nets,

    /// Registers of one netlist, those that delay an enable included: [`MOST_REGISTERS`].
    Registers,

    /// Inputs of one cover: [`MOST_COVER_INPUTS`].
    CoverInputs,

    /// Cells of one library: [`MOST_LIBRARY_CELLS`].
    LibraryCells,

    /// Nesting of Liberty groups, and of an expression: [`MOST_NESTING`].
    Nesting,

    /// Leaves and and-nodes of one claim: [`MOST_CLAIM_NODES`].
    ClaimNodes,

    /// Rows of a stimulus: [`MOST_ROWS`].
    Rows,

    /// Variables of a DIMACS file: [`MOST_VARIABLES`].
    Variables,
}

/// The bytes that one file may have.
pub const MOST_FILE_BYTES: u64 = 67_108_864;

/// The nets that one netlist may have.
pub const MOST_NETS: usize = 1_048_576;

/// The registers that one netlist may have, those that delay an enable included.
pub const MOST_REGISTERS: usize = 65_536;

/// The inputs that one cover may have.
pub const MOST_COVER_INPUTS: usize = 256;

/// The cells that one library may have.
pub const MOST_LIBRARY_CELLS: usize = 4_096;

/// The groups of a Liberty text, or the operators and brackets of an expression, that may stand in one another.
pub const MOST_NESTING: usize = 64;

/// The leaves and and-nodes that one claim may have.
pub const MOST_CLAIM_NODES: u32 = 65_536;

/// The pins that a usable cell of a library may have. A cell with more is not refused: it is unusable.
pub const MOST_PINS: usize = 16;

/// The rows that a stimulus may have.
pub const MOST_ROWS: usize = 1_048_576;

/// The variables that a DIMACS file may have.
pub const MOST_VARIABLES: u32 = 16_777_216;

// What options and sizes may be, and what stands for an option that is not given.

/// The least number of registers that a stage has to have, where `--min` does not say it.
pub const DEFAULT_MIN: u32 = 1;

/// The least that `--min` takes.
pub const LEAST_MIN: u32 = 1;

/// The most that `--min` takes.
pub const MOST_MIN: u32 = 1_024;

/// The variables that a claim may have, where `--width` does not say it.
pub const DEFAULT_WIDTH: u32 = 32;

/// The least that `--width` takes.
pub const LEAST_WIDTH: u32 = 1;

/// The most that `--width` takes.
pub const MOST_WIDTH: u32 = 256;

/// The rounds that look for stages of stability, and then for stages of unobservability, where `--rounds` does not say it.
pub const DEFAULT_ROUNDS: u32 = 4;

/// The least that `--rounds` takes.
pub const LEAST_ROUNDS: u32 = 0;

/// The most that `--rounds` takes.
pub const MOST_ROUNDS: u32 = 16;

/// What the names of added nets begin with, where `--prefix` does not say it.
pub const DEFAULT_PREFIX: &str = "cg_";

/// The least size that `demo` takes.
pub const LEAST_DEMO_SIZE: u32 = 1;

/// The most that `demo` takes as its size.
pub const MOST_DEMO_SIZE: u32 = 4_096;
