//! How a run of the program ends.
ghost use Rattle.std.specs.Prelude.{◌≡◌};
ghost use Rattle.command_line.specs.Statuses.{status_code};

use crate::report::Report;

/// The exit status of the program.
#[derive(Clone, Copy, Debug, PartialEq, Eq)]
pub enum Status {
    Done,
    /// The words are no command.
    Usage,
    /// The file wasn't opened, or a call of it failed.
    DiskFault,
    /// The file holds no repository, or a damaged one.
    BadFile,
    /// Memory ran out.
    NoMemory,
    /// Input or output failed.
    StreamFault,
    /// A repository was to be made in a file with bytes.
    NotEmpty,
    /// The input ended inside a message.
    Cut,
    /// No message could begin.
    Refused,
    /// All was read that a session may read.
    Spent,
    /// A server that was followed sent what is no reply.
    BadReply,
    /// An entry of a server that was followed is another one here.
    Differs,
    /// An entry of a server that was followed doesn't fit the file.
    Full,
    /// A call of a load was refused.
    LoadRefused,
}

impl Status {
    /// Its number.
    pub fn code(self) -> u8
        ensures { result ≡ status_code self }
    {
        match self {
            Status::Done => 0,
            Status::Usage => 1,
            Status::DiskFault => 2,
            Status::BadFile => 3,
            Status::NoMemory => 4,
            Status::StreamFault => 5,
            Status::NotEmpty => 6,
            Status::Cut => 7,
            Status::Refused => 8,
            Status::Spent => 9,
            Status::BadReply => 10,
            Status::Differs => 11,
            Status::Full => 12,
            Status::LoadRefused => 13,
        }
    }
}

/// What a command came to: what is reported of it, and the file that it opened.
#[derive(Drop)]
pub struct Outcome<D> {
    pub report: Report,
    pub disk: Option<D>,
}
