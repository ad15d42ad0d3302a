//! How a call ends.

/// How a call ended.
#[derive(Clone, Copy, Debug, PartialEq, Eq)]
pub enum Status {
    /// The source was read to its end (`gen` reads nothing), and the whole report was written.
    Ok,
    /// The bytes are refused, and the line that says why was written.
    Refused,
    /// The words are wrong, nothing was read, and the line `usage` was written.
    Usage,
    /// A read failed, and nothing was written.
    ReadFault,
    /// A write failed. What was written is the front of an answer.
    WriteFault,
    /// Memory ran out. What was written is the front of an answer, or nothing.
    NoMemory,
}

impl Status {
    ghost use Rattle.std.specs.Prelude.{◌≡◌};
    ghost use Rattle.lay_cli.specs.Statuses.{number_of};

    /// The number that the program ends with.
    pub fn number(self) -> u8
        ensures { result ≡ number_of self }
    {
        match self {
            Status::Ok => 0,
            Status::Refused => 1,
            Status::Usage => 2,
            Status::ReadFault => 3,
            Status::WriteFault => 4,
            Status::NoMemory => 5,
        }
    }
}
