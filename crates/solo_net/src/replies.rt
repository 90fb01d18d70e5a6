// What a process is replied, by what a buffer or a device answered.
ghost use Rattle.std.specs.Prelude.{◌≡◌};
ghost use Rattle.solo_net.specs.Replies.{put_said, arg_said, page_said, print_said};

use slot_buffer::{Put, Take};
use solo_base::{Arg, Page};
use solo_devices::PrintFault;
use solo_procs::SoloReply;

/// The reply to a put. None: the process waits.
pub fn put_reply<T: Drop>(answer: Put<T>) -> Option<SoloReply>
    ensures { result ≡ put_said answer }
{
    match answer {
        Put::Done => Some(SoloReply::Done),
        Put::Delayed(_) => None,
        Put::Stopped(_) => Some(SoloReply::Stopped),
    }
}

/// The reply to a take of an argument. None: the process waits.
pub fn arg_reply(answer: Take<Arg>) -> Option<SoloReply>
    ensures { result ≡ arg_said answer }
{
    match answer {
        Take::Item(arg) => Some(SoloReply::Arg(arg)),
        Take::Delayed => None,
        Take::Stopped => Some(SoloReply::Stopped),
    }
}

/// The reply to a take of a page. None: the process waits.
pub fn page_reply(answer: Take<Page>) -> Option<SoloReply>
    ensures { result ≡ page_said answer }
{
    match answer {
        Take::Item(page) => Some(SoloReply::Page(page)),
        Take::Delayed => None,
        Take::Stopped => Some(SoloReply::Stopped),
    }
}

/// The reply where a line was to be printed or displayed.
pub fn print_reply(answer: Result<(), PrintFault>) -> SoloReply
    ensures { result ≡ print_said answer }
{
    match answer {
        Ok(()) => SoloReply::Done,
        Err(PrintFault::Failed) => SoloReply::Failed,
        Err(PrintFault::NoMemory) => SoloReply::NoMemory,
    }
}
