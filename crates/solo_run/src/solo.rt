//! Solo: the three processes on threads, from the making of their buffers to the meeting of the ends.
ghost use Rattle.std.specs.Prelude.{◌≡◌, List, [], ◌∷◌, Option, Some, IfOk, IfErr};
ghost use Rattle.solo_base.specs.declared.item.Item.{Item};
ghost use Rattle.solo_devices.specs.CardUnit.{items_ahead};
ghost use Rattle.solo_law.specs.Work.{Plan, PlanFits};
ghost use Rattle.solo_ends.specs.Ends.{EndTogether, FaultsAre};
ghost use Rattle.solo_ends.specs.Faults.{FaultsAreCounted, counting, devices_of};
ghost use Rattle.solo_run.specs.Begun.{AreLive, BeginsBy, IsParted, SoloDid};
ghost use Rattle.solo_run.specs.Gates.{AreFresh};
ghost use Rattle.solo_run.specs.Job.{job_world};
ghost use Rattle.solo_run.specs.Ran.{IsRunOf, LosesNothing};
ghost use Rattle.solo_ends.specs.Told.{IsOpenedBy, TellsPlan};

use crate::ends::{Sending, Taking};
use crate::gates::{Ends, Gates};
use crate::input_side::InputSide;
use crate::job_side::JobSide;
use crate::output_side::OutputSide;
use crate::row::{Row, RowEnded, run_three, sides_of};
use slot_buffer::{RecvEnd, SendEnd, SlotGate};
use solo_base::{NoMemory, Outcome};
use solo_devices::{Sink, Source};
use solo_ends::{SoloRan, SoloUnits};
use solo_procs::Commands;
use std::alloc::Global;
use std::sync::Wait;
use std::thread::Threads;

/// The units, and the ends of the buffers to the input and to the output process, apart from their gates.
struct Parted<S: Source, Y: Source, K: Sink, T: Sink, F> {
    units: SoloUnits<S, Y, K, T, F>,
    cards: Ends,
    prints: Ends,
}

/// Runs Solo on three threads: what is typed at the keys, over the cards and the files, to the console and
/// the paper. Where memory is refused before they begin, no process has begun, and the units come back as
/// they were.
#[inline(never)]
pub fn run_solo<
    C: Commands + Drop,
    S: Source + Drop + Send,
    Y: Source + Drop + Send,
    K: Sink + Drop + Send,
    T: Sink + Drop + Send,
    R: Threads + Wait + Sync,
>(
    rt: &R,
    alloc: Global,
    units: SoloUnits<S, Y, K, T, C::Files>,
) -> Result<SoloRan<S, Y, K, T, C::Files>, (SoloUnits<S, Y, K, T, C::Files>, NoMemory)>
where
    C::Files: Drop + Send,
    requires live { AreLive units }
    requires sound { C.sound units.files }
    ensures refused { IfErr result (λ back. back.0 ≡ units) }

    // It was a run of the network, in some order of events, over what the units told and any plan of theirs.
    // The files are some to which the work led.
    ensures ran { IfOk result (λ ran. (plan : Option Plan) → IsOpenedBy (C.opens units.files) plan →
        IsRunOf S.left (job_world Y.left Y.taken Y.faults T.given T.faults C.sound C.faults C.opens
        C.follows C.passes) K.given units plan ran) }

    // How the three ended together, and where their faults come from.
    ensures together { IfOk result (λ ran. EndTogether ran.outcomes ran.stopped_by) }
    ensures faults { IfOk result (λ ran. FaultsAre ran.outcomes) }
    ensures counted { IfOk result (λ ran. FaultsAreCounted
        (counting S.faults S.taken Y.faults Y.taken K.faults T.faults C.faults) (devices_of units) ran) }

    // Over told cards, typed lines and files, console and paper gained what the needs of the plan show and
    // print, or a part of it; all of it where the processes are done, and then no typed line is left.
    ensures tells { IfOk result (λ ran. (cards keys : List Item) (plan : Plan) →
        items_ahead (S.left units.cards.source) units.cards.pending ≡ Some cards →
        items_ahead (Y.left units.typewriter.keys.source) units.typewriter.keys.pending ≡ Some keys →
        C.opens units.files plan → PlanFits plan →
        TellsPlan Y.left T.given K.given cards keys plan (T.given units.typewriter.console.sink)
        (K.given units.paper.sink) ran) }

    // All that the cards and the keys had was taken or is left.
    ensures total { IfOk result (λ ran. LosesNothing S.taken S.left Y.taken Y.left units ran) }
{
    match make_both(alloc) {
        Ok(((cards, card_ends), (prints, print_ends))) => run_made::<C, S, Y, K, T, R>(
            rt,
            alloc,
            cards,
            prints,
            Parted {
                units,
                cards: card_ends,
                prints: print_ends,
            },
        ),
        Err(refused) => Err((units, refused)),
    }
}

// The buffers to the input and to the output process.
fn make_both(alloc: Global) -> Result<((Gates, Ends), (Gates, Ends)), NoMemory>
    ensures cards { IfOk result (λ made. AreFresh made.0.0 made.0.1) }
    ensures prints { IfOk result (λ made. AreFresh made.1.0 made.1.1) }
{
    let (gates, ends) = Gates::make(alloc)?;
    match Gates::make(alloc) {
        Ok(prints) => Ok(((gates, ends), prints)),
        Err(refused) => {
            let _met = gates.meet(ends);
            Err(refused)
        }
    }
}

// Runs them once the buffers are made.
fn run_made<
    C: Commands + Drop,
    S: Source + Drop + Send,
    Y: Source + Drop + Send,
    K: Sink + Drop + Send,
    T: Sink + Drop + Send,
    R: Threads + Wait + Sync,
>(
    rt: &R,
    alloc: Global,
    cards: Gates,
    prints: Gates,
    parted: Parted<S, Y, K, T, C::Files>,
) -> Result<SoloRan<S, Y, K, T, C::Files>, (SoloUnits<S, Y, K, T, C::Files>, NoMemory)>
where
    C::Files: Drop + Send,
    requires live { AreLive parted.units }
    requires sound { C.sound parted.units.files }
    requires cards { AreFresh cards parted.cards }
    requires prints { AreFresh prints parted.prints }
    ensures refused { IfErr result (λ back. back.0 ≡ parted.units) }
    ensures did { IfOk result (λ ran. SoloDid S.left S.taken S.faults
        (job_world Y.left Y.taken Y.faults T.given T.faults C.sound C.faults C.opens
        C.follows C.passes) K.given K.faults parted.units ran) }
{
    match run_three::<C, S, Y, K, T, R>(rt, alloc, row(&cards, &prints, parted)) {
        Ok(ended) => {
            let outcomes = outcomes_of(&ended);
            let Parted {
                units,
                cards: card_ends,
                prints: print_ends,
            } = part(sides_of(ended));
            let (one, two, three) = cards.meet(card_ends);
            let (four, five, six) = prints.meet(print_ends);
            Ok(SoloRan {
                outcomes,
                stopped_by: [one, two, three, four, five, six],
                units,
            })
        }
        Err(refused) => {
            let Parted {
                units,
                cards: card_ends,
                prints: print_ends,
            } = part(refused);
            let _cards = cards.meet(card_ends);
            let _prints = prints.meet(print_ends);
            Err((units, NoMemory))
        }
    }
}

// The three processes at the gates, before their first action.
fn row<'a, S: Source, Y: Source, K: Sink, T: Sink, F>(
    cards: &'a Gates,
    prints: &'a Gates,
    parted: Parted<S, Y, K, T, F>,
) -> Row<'a, S, Y, K, T, F>
    ensures { BeginsBy cards.now prints.now parted result }
{
    let Parted {
        units,
        cards: card_ends,
        prints: print_ends,
    } = parted;
    let (card_orders, orders) = connected(&cards.orders, card_ends.orders);
    let (pages, card_pages) = connected(&cards.pages, card_ends.pages);
    let (reports, card_reports) = connected(&cards.reports, card_ends.reports);
    let input = InputSide {
        cards: units.cards,
        orders,
        pages,
        reports,
    };
    let (print_orders, orders) = connected(&prints.orders, print_ends.orders);
    let (print_pages, pages) = connected(&prints.pages, print_ends.pages);
    let (reports, print_reports) = connected(&prints.reports, print_ends.reports);
    let output = OutputSide {
        orders,
        pages,
        reports,
        paper: units.paper,
    };
    let job = JobSide {
        typewriter: units.typewriter,
        files: units.files,
        card_orders,
        cards: card_pages,
        card_reports,
        print_orders,
        pages: print_pages,
        print_reports,
    };
    Row { input, job, output }
}

// The ends of a buffer at its gate.
fn connected<'a, T: Send>(
    gate: &'a SlotGate<T>,
    ends: (SendEnd<T>, RecvEnd<T>),
) -> (Sending<'a, T>, Taking<'a, T>)
    ensures sends { (result.0.gate.now ≡ gate.now) × (result.0.end ≡ ends.0) }
    ensures takes { (result.1.gate.now ≡ gate.now) × (result.1.end ≡ ends.1) }
{
    let (sender, receiver) = ends;
    (
        Sending { gate, end: sender },
        Taking {
            gate,
            end: receiver,
        },
    )
}

// The units and the ends of the three processes, apart from their gates.
#[inline(never)]
fn part<'a, S: Source, Y: Source, K: Sink, T: Sink, F>(
    row: Row<'a, S, Y, K, T, F>,
) -> Parted<S, Y, K, T, F>
    ensures { IsParted row.entry result }
{
    let Row { input, job, output } = row;
    let InputSide {
        cards,
        orders,
        pages,
        reports,
    } = input;
    let JobSide {
        typewriter,
        files,
        card_orders,
        cards: card_pages,
        card_reports,
        print_orders,
        pages: print_pages,
        print_reports,
    } = job;
    let card_ends = Ends {
        orders: (card_orders.end, orders.end),
        pages: (pages.end, card_pages.end),
        reports: (reports.end, card_reports.end),
    };
    let OutputSide {
        orders,
        pages,
        reports,
        paper,
    } = output;
    let print_ends = Ends {
        orders: (print_orders.end, orders.end),
        pages: (print_pages.end, pages.end),
        reports: (reports.end, print_reports.end),
    };
    Parted {
        units: SoloUnits {
            cards,
            typewriter,
            paper,
            files,
        },
        cards: card_ends,
        prints: print_ends,
    }
}

// How the three ended, in order.
fn outcomes_of<'a, S: Source, Y: Source, K: Sink, T: Sink, F>(
    ended: &RowEnded<'a, S, Y, K, T, F>,
) -> [Outcome; 3]
    ensures { result ≡ ended.now.input.1 ∷ ended.now.job.1 ∷ ended.now.output.1 ∷ [] }
{
    [ended.input.1, ended.job.1, ended.output.1]
}
