//! How a run ends.

/// How a run of the program ended. Its number is the program's exit status.
#[derive(Clone, Copy, Debug, PartialEq, Eq)]
pub enum Status {
    /// Each input was read to its end, and everything was written.
    Done,
    /// Formula and proof were read, and the proof is not accepted.
    Rejected,
    /// The words are none that the program takes.
    Usage,
    /// The netlist is refused.
    Netlist,
    /// The library is refused.
    Library,
    /// The stimulus, the formula or the proof is refused.
    Stimulus,
    /// A file could not be read.
    ReadFault,
    /// A file, or the said text, could not be written.
    WriteFault,
    /// A counted quantity passes its limit.
    Limit,
    /// There was no memory.
    NoMemory,
}

impl Status {
    ghost use Rattle.std.specs.Prelude.{◌≡◌};
    ghost use Rattle.cg_run.specs.Status.{status_number};

    /// The exit status of the program.
    pub fn number(self) -> u8
        ensures { result ≡ status_number self }
    {
        match self {
            Status::Done => 0,
            Status::Rejected => 1,
            Status::Usage => 2,
            Status::Netlist => 3,
            Status::Library => 4,
            Status::Stimulus => 5,
            Status::ReadFault => 6,
            Status::WriteFault => 7,
            Status::Limit => 8,
            Status::NoMemory => 9,
        }
    }
}
