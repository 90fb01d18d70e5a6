//! How every process runs: from its coming to the start on, up to its end.
ghost use Rattle.std.specs.Prelude.{◌≡◌, None};
ghost use Rattle.batch_sides.specs.Running.{end_of};

use batch_procs::Action;
use resource_mon::DiskPass;
use solo_base::Outcome;
use std::alloc::Global;

/// A process that runs, with its pass while it has the disk.
pub struct Running<C> {
    pub alloc: Global,
    pub side: C,
    pub pass: Option<DiskPass>,
}

/// What a process ended with: its side of the buffers, and how it ended.
pub type Ended<C> = (C, Outcome);

/// Comes to the start and, where all have come, runs up to the end of the process: its machine says what it
/// does, and each action is performed so. It stands in a function of each process, since what is sent to a
/// thread isn't known behind a trait, and no function whose reply names the jobs can be handed to one. The
/// pages that it takes come into one room, which is lent to each action.
macro_rules! run_to_end {
    (
        $jobs:ty,
        $work:ty,
        $rt:ident,
        $alloc:ident,
        $start:ident,
        $side:ident,
        |$at:ident, $action:ident $(, $room:ident)?| $perform:expr
    ) => {{
        let told = $start.come($rt);
        let whole = $start.is_whole(&told);
        if !whole {
            return (($side, Outcome::Stopped), told);
        }
        let mut $at = Running {
            alloc: $alloc,
            side: $side,
            pass: None,
        };
        let mut machine = Machine::<$jobs, $work>::new($alloc);
        $(let mut $room = Page::zeros();)?
        for _ in $rt.forever() {
            let $action = machine.next();
            let end = end_of(&$action);
            let reply = $perform;
            if let Some(how) = end {
                return ((without_disk($at, machine), how), told);
            }
            let _ = machine.give(reply);
        }
        unreachable!()
    }};
}

pub(crate) use run_to_end;

/// How the process ends, if this is its end.
pub(crate) fn end_of(action: &Action<'_>) -> Option<Outcome>
    ensures { result ≡ end_of action.now }
{
    match action {
        Action::Ended(how) => Some(*how),
        _ => None,
    }
}

/// The side of a process that has ended: it hasn't got the disk, and its machine has done its work.
pub(crate) fn without_disk<C, M: Drop>(running: Running<C>, _machine: M) -> C
    requires { running.pass ≡ None }
    ensures { result ≡ running.side }
{
    let Running {
        alloc: _,
        side,
        pass,
    } = running;
    match pass {
        None => {}
        Some(_) => unreachable!(),
    }
    side
}
