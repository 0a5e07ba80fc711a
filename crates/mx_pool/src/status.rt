//! How a run ends.
ghost use Rattle.std.specs.Prelude.{◌≡◌};
ghost use Rattle.mx_pool.specs.Runs.{looped_status, number_of, server_status, status_of};

use crate::serving::Served;
use mx_ids::Memory;
use mx_loop::Looped;
use mx_serve::End;

/// Why a run has no journal.
#[derive(Clone, Copy, Debug, PartialEq, Eq)]
pub enum JournalFault {
    /// Another process has it open.
    Busy,
    /// It couldn't be opened, read or written.
    Failed,
    /// The first of its lines that is refused, from 1.
    Line(u64),
}

/// How a run ends.
#[derive(Clone, Copy, Debug, PartialEq, Eq)]
pub enum Status {
    /// The connection ended after a request, or between two; or no connection comes to the server any more.
    Done,
    /// The connection ended otherwise: inside a request, on what is none, or at its last answer.
    RequestStream,
    /// The words aren't of their form.
    Usage,
    /// The first line of the users file that breaks its form, from 1; 0 where the file has more than 1,048,576 bytes.
    UsersFile(u64),
    /// The users file couldn't be read, or the input or the output failed.
    Outside,
    /// Want of memory.
    Memory(Memory),
    /// The listener failed, or the spawner refused a connection's job.
    Listener,
    /// There is no journal, although the words name one.
    Journal(JournalFault),
}

impl Status {
    /// The status of the process, 0 to 7.
    pub fn number(self) -> u8
        ensures { result ≡ number_of self }
    {
        match self {
            Status::Done => 0,
            Status::RequestStream => 1,
            Status::Usage => 2,
            Status::UsersFile(_) => 3,
            Status::Outside => 4,
            Status::Memory(_) => 5,
            Status::Listener => 6,
            Status::Journal(_) => 7,
        }
    }
}

/// The status of a connection's end.
pub(crate) fn status_of(end: End) -> Status
    ensures { result ≡ status_of end }
{
    match end {
        End::Closed | End::Asked => Status::Done,
        End::Full | End::Cut | End::Refused(_) => Status::RequestStream,
        End::ReadFault | End::WriteFault => Status::Outside,
        End::Memory(refused) => Status::Memory(refused),
    }
}

/// The status of a server's end.
pub(crate) fn server_status(served: Served) -> Status
    ensures { result ≡ server_status served }
{
    match served {
        Served::Closed => Status::Done,
        Served::ListenFailed | Served::StartRefused => Status::Listener,
        Served::Memory(refused) => Status::Memory(refused),
    }
}

/// The status of a loop's end.
pub(crate) fn looped_status(looped: Looped) -> Status
    ensures { result ≡ looped_status looped }
{
    match looped {
        Looped::Closed => Status::Done,
        Looped::ListenFailed => Status::Listener,
        Looped::Memory(refused) => Status::Memory(refused),
    }
}
