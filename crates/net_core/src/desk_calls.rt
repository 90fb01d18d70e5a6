ghost use Rattle.std.specs.Prelude.{◌≡◌, ◌<◌, None, length, IsSome};
ghost use Rattle.resource_mon.specs.Claims.{MayRequest};
ghost use Rattle.net_core.specs.Desks.{Asked, Given};

use batch_procs::{JobWork, Reply};
use resource_mon::{Grant, Resource};
use solo_base::ProcNo;

/// Asks for the disk, or resumes where the turn is handed to the process. No reply: the process waits.
#[inline(always)]
pub fn request<'a, J: JobWork, const N: usize>(
    desk: &mut Resource<N>,
    p: ProcNo,
) -> Option<Reply<'a, J::Load>>
    requires may { MayRequest desk.old p }
    requires room { length desk.old.waiting < N }
    ensures { Asked J.jobs desk.old desk.new p result }
{
    match desk.handed() {
        Some(_) => {
            desk.resumed(p);
            Some(Reply::Done)
        }
        None => match desk.request(p) {
            Grant::Got => Some(Reply::Done),
            Grant::Wait => None,
        },
    }
}

/// Gives the disk back.
#[inline(always)]
pub fn release<'a, J: JobWork, const N: usize>(desk: &mut Resource<N>) -> Reply<'a, J::Load>
    requires held { IsSome desk.old.holder }
    requires free { desk.old.handed ≡ None }
    ensures { Given J.jobs desk.old desk.new result }
{
    let _ = desk.release();
    Reply::Done
}
