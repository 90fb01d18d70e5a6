ghost use Rattle.std.specs.Prelude.{None, []};
ghost use Rattle.batch_sides.specs.Cards.{CardMayMake, CardMade, CardRan};
ghost use Rattle.batch_sides.specs.Row.{CardsCame};

use crate::run::{Ended, Running, end_of, run_to_end, without_disk};
use batch_ends::is_item;
use batch_procs::{Action, CardWork, JobWork, Machine, Reply, copy_feed};
use side_by_side::{Start, Told};
use slot_buffer::{SendEnd, SlotGate, Stopped};
use solo_base::{Feed, Outcome};
use solo_devices::{CardUnit, Source};
use std::alloc::Global;
use std::sync::Wait;
use std::thread::Threads;

/// What the card process is connected to: the deck, and the line buffer 1 as its sender.
#[derive(Drop)]
pub struct CardSide<'a, S: Source + Drop> {
    pub deck: CardUnit<S>,
    pub gate: &'a SlotGate<Feed>,
    pub lines: SendEnd<Feed>,
}

/// Performs an action of the process, and waits where the other side of a buffer isn't ready.
#[inline(always)]
fn perform<'a, 'p, L, S: Source + Drop + Send, R: Threads + Wait + Sync>(
    running: &mut Running<CardSide<'a, S>>,
    action: Action<'_>,
    rt: &R,
) -> Reply<'p, L>
    requires may { CardMayMake running.old.side action }
    ensures performs { CardMade S.left S.taken S.faults running.old.side running.old.pass
        running.new.side running.new.pass action.entry result }
{
    let gate = running.side.gate;
    match &action {
        Action::ReadCard => {
            let answer = running.side.deck.read();
            is_item(&answer);
            Reply::Card(answer)
        }
        Action::PutFeed(feed) => match running.side.lines.put(gate, copy_feed(feed.get()), rt) {
            Ok(()) => Reply::Done,
            Err(Stopped(_)) => Reply::Stopped,
        },
        Action::Stop(_) => {
            running.side.lines.stop(gate, rt);
            Reply::Done
        }
        Action::Ended(_) => Reply::Done,
        _ => unreachable!(),
    }
}

/// Runs the card process up to its end, where all have come to the start.
pub(crate) fn run_cards<'a, 's, J: JobWork, S: Source + Drop + Send, R: Threads + Wait + Sync>(
    rt: &R,
    alloc: Global,
    start: &'s Start,
    cards: CardSide<'a, S>,
) -> (Ended<CardSide<'a, S>>, Told<'s>)
    requires { CardRan {L = J.Load} S.left S.taken S.faults cards cards None [] }
    ensures { CardsCame J.jobs S.left S.taken S.faults
        start.now.lock result.1.of result.1.value cards.entry result.0 }
{
    run_to_end!(
        J,
        CardWork,
        rt,
        alloc,
        start,
        cards,
        |at, action| perform(&mut at, action, rt)
    )
}
