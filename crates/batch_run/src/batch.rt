//! The batch: the five processes on threads, from the making of their buffers to the meeting of the ends.
ghost use Rattle.std.specs.Prelude.{◌≡◌, ◌<◌, ◌≤◌, true, List, [], Some, IfOk, IfErr};
ghost use Rattle.solo_base.specs.declared.item.Item.{Item};
ghost use Rattle.solo_base.specs.Text.{text};
ghost use Rattle.solo_base.specs.declared.outcome.Cause.TheVariants as cause;
ghost use Rattle.solo_base.specs.declared.outcome.Outcome.TheVariants as outcome;
ghost use Rattle.solo_devices.specs.CardUnit.{items_ahead, byte_limit, bytes_total, IsAllTaken};
ghost use Rattle.solo_devices.specs.PrinterUnit.{Gains};
ghost use Rattle.batch_procs.specs.Jobs.{AreJobs, FilesAs, one_thread};
ghost use Rattle.core_law.specs.Holds.{AreFound, AreTold};
ghost use Rattle.batch_ends.specs.Ended.{all_done, EndTogether, FaultsAre, NoneDamaged};
ghost use Rattle.batch_ends.specs.Faults.{FaultsAreCounted};
ghost use Rattle.batch_ends.specs.Openings.{spools_over};
ghost use Rattle.batch_sides.specs.Begun.{AreFresh, units_at};
ghost use Rattle.batch_sides.specs.Files.{loading};
ghost use Rattle.batch_replay.specs.FiveRan.{BatchRan};
ghost use Rattle.batch_replay.specs.Told.{RanAsOne};
ghost use Rattle.batch_run.specs.Apart.{IsParted};

use batch_ends::{Outcomes, Peripherals, Ran, Units};
use batch_procs::{JobWork, Loader};
use batch_sides::{AllMet, Ends, Gates, RowEnded, Seats, make_all, run_five};
use solo_base::NoMemory;
use solo_devices::{Area, CardUnit, PrinterUnit, Sink, Source};
use std::alloc::Global;
use std::sync::Wait;
use std::thread::Threads;

/// How the five ended, with their ends and the devices.
struct Parted<S: Source, K: Sink, F, A: Area + Send, B: Area + Send> {
    outcomes: Outcomes,
    ends: Ends<A, B>,
    deck: CardUnit<S>,
    paper: PrinterUnit<K>,
    files: F,
}

/// Runs the deck to the paper on five threads. No file is changed. Where memory is refused, no process has
/// begun, and the units come back as they were.
#[inline(never)]
pub fn run_batch<
    J: JobWork + Send,
    S: Source + Drop + Send,
    K: Sink + Drop + Send,
    F: Loader<J> + Send,
    A: Area + Send,
    B: Area + Send,
    R: Threads + Wait + Sync,
>(
    rt: &R,
    alloc: Global,
    units: Units<S, K, F, A, B>,
) -> Result<Ran<S, K, F, A, B>, (Units<S, K, F, A, B>, NoMemory)>
where
    J::Load: Send,
    requires live { (units.deck.live ≡ true) × (units.paper.live ≡ true) }
    requires input { (0 < A.size units.input) × (A.size units.input ≤ 256) }
    requires output { (0 < B.size units.output) × (B.size units.output ≤ 256) }
    requires sound { F.sound units.files }
    ensures refused { IfErr result (λ back. back.0 ≡ units) }

    // Each process did what a history asks for, and ended so, and the devices became what these histories
    // make of them; the side that stopped each buffer first is one of its two.
    ensures ran { IfOk result (λ ran. BatchRan J.jobs S.left S.taken S.faults K.given K.faults
        (loading F.found F.pages F.faults F.sound) A.size A.pages A.faults B.size B.pages B.faults units
        ran) }

    // And that is a run of the core: from each opening over these units some list of enabled events leads to
    // a state with these five histories, where a told deck and the paper are as this batch left them.
    ensures one_run { IfOk result (λ ran. RanAsOne J.jobs S.left S.taken S.faults K.given K.faults
        (loading F.found F.pages F.faults F.sound) A.size A.pages A.faults B.size B.pages B.faults units
        ran) }

    // How the five ended together, and where their faults come from.
    ensures together { IfOk result (λ ran. EndTogether ran.outcomes ran.stopped_by) }
    ensures faults { IfOk result (λ ran. FaultsAre ran.outcomes) }
    ensures counted { IfOk result (λ ran.
        FaultsAreCounted ⟦<Units<S, K, F, A, B> as Peripherals<J>>⟧.counts units ran) }

    // The paper gained what one thread prints or a part of it, all of it where all are done, and then
    // nothing is left of the deck.
    ensures prints { IfOk result (λ ran. (items : List Item) (found : FilesAs J.Load) →
        items_ahead (S.left units.deck.source) units.deck.pending ≡ Some items →
        AreFound J.jobs (F.found units.files) found items →
        AreTold (spools_over (A.size units.input) (A.pages units.input)
        (B.size units.output) (B.pages units.output)) →
        Gains (K.given units.paper.sink) (K.given ran.units.paper.sink)
        (text (one_thread J.jobs items found)) (ran.outcomes ≡ all_done)) }
    ensures reads { IfOk result (λ ran. (items : List Item) →
        items_ahead (S.left units.deck.source) units.deck.pending ≡ Some items → ran.outcomes ≡ all_done →
        items_ahead (S.left ran.units.deck.source) ran.units.deck.pending ≡ Some []) }
    ensures all_taken { IfOk result (λ ran. ran.outcomes ≡ all_done →
        IsAllTaken (S.left ran.units.deck.source)) }

    // No file is changed.
    ensures files { IfOk result (λ ran. F.pages ran.units.files ≡ F.pages units.files) }

    // Over areas that tell their pages no page was damaged.
    ensures undamaged { IfOk result (λ ran.
        AreTold (spools_over (A.size units.input) (A.pages units.input)
        (B.size units.output) (B.pages units.output)) →
        NoneDamaged ran.outcomes) }

    // The limit comes wherever too many bytes were taken, and all that the source had was taken or is left.
    ensures longer { IfOk result (λ ran. S.taken units.deck.source ≤ byte_limit →
        byte_limit < S.taken ran.units.deck.source → ran.outcomes.card ≡ outcome.Fault cause.DeckLimit) }
    ensures total { IfOk result (λ ran.
        bytes_total (S.taken ran.units.deck.source) (S.left ran.units.deck.source)
        ≡ bytes_total (S.taken units.deck.source) (S.left units.deck.source)) }
{
    know_jobs::<J>();
    let Units {
        deck,
        paper,
        files,
        input,
        output,
    } = units;
    match make_all(alloc, input, output) {
        Ok((gates, ends)) => run_made::<J, S, K, F, A, B, R>(
            rt, alloc, gates, ends, deck, paper, files,
        ),
        Err(((input, output), refused)) => {
            let units = Units {
                deck,
                paper,
                files,
                input,
                output,
            };
            Err((units, refused))
        }
    }
}

// The laws of the jobs. Nothing is done here: a function whose jobs may cross threads has them from a call.
fn know_jobs<J: JobWork>()
    ensures { AreJobs J.jobs }
{}

// Runs them once everything is made.
fn run_made<
    J: JobWork + Send,
    S: Source + Drop + Send,
    K: Sink + Drop + Send,
    F: Loader<J> + Send,
    A: Area + Send,
    B: Area + Send,
    R: Threads + Wait + Sync,
>(
    rt: &R,
    alloc: Global,
    gates: Gates<A, B>,
    ends: Ends<A, B>,
    deck: CardUnit<S>,
    paper: PrinterUnit<K>,
    files: F,
) -> Result<Ran<S, K, F, A, B>, (Units<S, K, F, A, B>, NoMemory)>
where
    J::Load: Send,
    requires live { (deck.live ≡ true) × (paper.live ≡ true) }
    requires sound { F.sound files }
    requires fresh { AreFresh (A.size gates.input.area) (B.size gates.output.area) gates ends }
    ensures refused { IfErr result (λ back. back.0 ≡ units_at gates deck paper files) }
    ensures ran { IfOk result (λ ran. BatchRan J.jobs S.left S.taken S.faults K.given K.faults
        (loading F.found F.pages F.faults F.sound) A.size A.pages A.faults B.size B.pages B.faults
        (units_at gates deck paper files) ran) }
{
    know_jobs::<J>();
    let (ended, whole) = run_five::<J, S, K, F, A, B, R>(
        rt,
        alloc,
        gates.row(ends, deck, paper, files),
    );
    let Parted {
        outcomes,
        ends,
        deck,
        paper,
        files,
    } = take_apart(ended);
    let AllMet {
        input,
        output,
        stopped_by,
    } = gates.meet(ends);
    let units = Units {
        deck,
        paper,
        files,
        input,
        output,
    };
    if whole {
        return Ok(Ran {
            outcomes,
            stopped_by,
            units,
        });
    }
    Err((units, NoMemory))
}

// How the five ended, apart from the gates that they were at.
#[inline(never)]
fn take_apart<'a, S: Source + Drop, K: Sink + Drop, F, A: Area + Send, B: Area + Send>(
    ended: RowEnded<'a, S, K, F, A, B>,
) -> Parted<S, K, F, A, B>
    ensures { IsParted ended.entry result }
{
    let RowEnded {
        cards: (cards, card),
        pages: (pages, input),
        jobs: (jobs, job),
        lines: (lines, output),
        paper: (paper, printer),
    } = ended;
    Parted {
        outcomes: Outcomes {
            card,
            input,
            job,
            output,
            printer,
        },
        ends: Ends {
            cards: (cards.lines, pages.cards),
            input: (pages.pages, jobs.cards),
            output: (jobs.pages, lines.pages),
            lines: (lines.lines, paper.lines),
            seats: Seats {
                input: pages.seat,
                job: jobs.seat,
                output: lines.seat,
            },
        },
        deck: cards.deck,
        paper: paper.paper,
        files: jobs.files,
    }
}
