//! How a run of the program ends.

ghost use Rattle.std.specs.Prelude.{◌≡◌};
ghost use Rattle.bash2sh.specs.Program.{number_of};

/// How a run of the program ends.
#[derive(Clone, Copy, Debug, PartialEq, Eq)]
pub enum Status {
    /// All was written: the translation, or the report of a run that ended.
    Done,
    /// The words name no command. Nothing was read.
    Usage,
    /// The script has a line of no form that is taken.
    Refused,
    ReadFault,
    WriteFault,
    /// The bytes are no job.
    BadWorld,
    /// There are more bytes than the command takes.
    TooLong,
    /// The report was written of a run that goes on beyond its bounds.
    GoesOn,
    OutOfMemory,
    /// The report was written of a run of sh that nothing specifies.
    Unspecified,
}

impl Status {
    /// The exit status.
    pub fn number(self) -> u8
        ensures { result ≡ number_of self }
    {
        match self {
            Status::Done => 0,
            Status::Usage => 2,
            Status::Refused => 3,
            Status::ReadFault => 4,
            Status::WriteFault => 5,
            Status::BadWorld => 6,
            Status::TooLong => 7,
            Status::GoesOn => 8,
            Status::OutOfMemory => 9,
            Status::Unspecified => 10,
        }
    }
}
