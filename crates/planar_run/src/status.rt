ghost use Rattle.std.specs.Prelude.{◌≡◌};

/// How a run ended.
#[derive(Clone, Copy, Debug, PartialEq, Eq)]
pub enum Status {
    /// The source was read to its end, and every reply was taken whole.
    Done,
    /// The words are outside the grammar, and the usage line was taken whole.
    Usage,
    /// A read failed.
    ReadFault,
    /// A write failed.
    WriteFault,
    /// There was no memory before the first line was looked at.
    NoMemory,
    /// The script has more bytes than the limit.
    TooLong,
}

impl Status {
    ghost use Rattle.planar_run.specs.Status.{exit_code};

    /// The exit status of the program.
    pub fn exit_code(self) -> u8
        ensures { result ≡ exit_code self }
    {
        match self {
            Status::Done => 0,
            Status::Usage => 2,
            Status::ReadFault => 3,
            Status::WriteFault => 4,
            Status::NoMemory => 5,
            Status::TooLong => 6,
        }
    }
}
