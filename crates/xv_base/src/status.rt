//! How a run ends.

ghost use Rattle.std.specs.Prelude.{◌≡◌};
ghost use Rattle.xv_base.specs.Status.{status_number};

/// How a run of a program ends.
#[derive(Clone, Copy, Debug, PartialEq, Eq)]
pub enum Status {
    /// The input was read to its end or to its `end` line, and the whole output is written.
    Done,
    /// An entry of a checked account isn't legal.
    Illegal,
    /// A line breaks the grammar.
    Refused,
    /// The source failed.
    ReadFault,
    /// The sink failed.
    WriteFault,
    /// There was no memory.
    NoMemory,
    /// The words of the command line are no command.
    Usage,
    /// Too many bytes of lines were given.
    TooLong,
    /// The bytes to resume from are no state.
    BadState,
}

impl Status {
    /// The number that a program ends with.
    pub fn number(self) -> u8
        ensures { result ≡ status_number self }
    {
        match self {
            Status::Done => 0,
            Status::Illegal => 1,
            Status::Refused => 2,
            Status::ReadFault => 3,
            Status::WriteFault => 4,
            Status::NoMemory => 5,
            Status::Usage => 6,
            Status::TooLong => 7,
            Status::BadState => 9,
        }
    }
}
