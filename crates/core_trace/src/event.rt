ghost use Rattle.network_run.specs.Law.{MayStep, Placed};
ghost use Rattle.core_law.specs.TheLaw.{the_law};

use crate::board::Board;
use crate::deed::Deed;
use batch_procs::{Action, JobWork, Loader, copy_feed};
use net_core::Net;
use network_run::{Network, Stepped};
use solo_base::{Feed, Outcome, ProcNo};
use solo_devices::{Area, Sink, Source};

/// What an action came to.
#[derive(Drop)]
pub enum Told {
    /// The process waits, and makes the same call again.
    Waits,
    /// It is done.
    Done,
    /// This was read or taken.
    Fed(Feed),
    /// The process closes down, since it has this cause to.
    Closes(Outcome),
    /// It ended so.
    Ends(Outcome),
}

/// One event of a run.
#[derive(Drop)]
pub struct Event {
    pub process: ProcNo,
    pub deed: Deed,
    pub told: Told,
}

/// Lets the next action of a process happen that may go on.
pub fn happen<J: JobWork, S: Source, K: Sink, F: Loader<J>, A: Area, B: Area>(
    net: &mut Net<J, S, K, F, A, B>,
    process: ProcNo,
    board: &mut Board,
) -> Event
    requires { MayStep (the_law J.jobs)
        (⟦<Net<J, S, K, F, A, B> as Network>⟧.Stands net.old) process }
    ensures { Placed (the_law J.jobs) (⟦<Net<J, S, K, F, A, B> as Network>⟧.Stands net.new) }
{
    let deed = Deed::of(&next_of(net, process));
    let closed_before = cause_of(net, process).is_some();
    let stepped = net.step(process);
    let cause = match cause_of(net, process) {
        Some(cause) if !closed_before => Some(cause),
        _ => None,
    };
    let told = match (stepped, cause) {
        (Stepped::Delayed, _) => Told::Waits,
        (_, Some(cause)) => Told::Closes(cause),
        (_, None) => came_of(net, process, &deed, board),
    };
    Event {
        process,
        deed,
        told,
    }
}

/// What came of an action that neither waits nor gives a cause. A card that was read is put next, and what
/// was taken is what the line buffer held.
fn came_of<J: JobWork, S: Source, K: Sink, F: Loader<J>, A: Area, B: Area>(
    net: &Net<J, S, K, F, A, B>,
    process: ProcNo,
    deed: &Deed,
    board: &mut Board,
) -> Told {
    match deed {
        Deed::ReadCard => match net.card.next() {
            Action::PutFeed(feed) => Told::Fed(copy_feed(feed.get())),
            _ => Told::Done,
        },
        Deed::TakeFeed => board.slot(process).take().map_or(Told::Done, Told::Fed),
        Deed::Ended(outcome) => Told::Ends(*outcome),
        _ => Told::Done,
    }
}

/// What a process does next.
fn next_of<J: JobWork, S: Source, K: Sink, F: Loader<J>, A: Area, B: Area>(
    net: &Net<J, S, K, F, A, B>,
    process: ProcNo,
) -> Action<'_> {
    match process {
        1 => net.card.next(),
        2 => net.input.next(),
        3 => net.job.next(),
        4 => net.output.next(),
        _ => net.printer.next(),
    }
}

/// Why a process closes down, where it does.
fn cause_of<J: JobWork, S: Source, K: Sink, F: Loader<J>, A: Area, B: Area>(
    net: &Net<J, S, K, F, A, B>,
    process: ProcNo,
) -> Option<Outcome> {
    match process {
        1 => net.card.cause(),
        2 => net.input.cause(),
        3 => net.job.cause(),
        4 => net.output.cause(),
        _ => net.printer.cause(),
    }
}
