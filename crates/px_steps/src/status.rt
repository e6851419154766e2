//! How a run ended.
ghost use Rattle.std.specs.Prelude.{◌≡◌};
ghost use Rattle.px_steps.specs.Run.{number_of};

/// How a run ended.
#[derive(Clone, Copy, Debug, PartialEq, Eq)]
pub enum Status {
    /// The frame that the steps make was written.
    Done,
    /// A step was refused, and the line of the first refusal was written.
    Refused,
    /// The words are not the one word `run`; nothing was read or written.
    Usage,
    /// The input is no document, and the line that tells so was written.
    BadDocument,
    /// A read failed; nothing was written.
    ReadFault,
    /// A write failed or took nothing; some front of the text was written.
    WriteFault,
    /// Memory was wanting; nothing was written.
    OutOfMemory,
}

impl Status {
    /// The number that a process ends with, from 0 to 6 in the order of the variants.
    pub fn number(self) -> u8
        ensures { result ≡ number_of self }
    {
        match self {
            Status::Done => 0,
            Status::Refused => 1,
            Status::Usage => 2,
            Status::BadDocument => 3,
            Status::ReadFault => 4,
            Status::WriteFault => 5,
            Status::OutOfMemory => 6,
        }
    }
}
