//! The five processes, each on a thread of its own.
ghost use Rattle.std.specs.Prelude.{None, []};
ghost use Rattle.batch_sides.specs.Cards.{CardRan};
ghost use Rattle.batch_sides.specs.Files.{loading};
ghost use Rattle.batch_sides.specs.Input.{InputRan};
ghost use Rattle.batch_sides.specs.Job.{JobRan};
ghost use Rattle.batch_sides.specs.Lines.{PrinterRan};
ghost use Rattle.batch_sides.specs.Row.{CardsCame, JobsCame, LinesCame, PagesCame, PaperCame};
ghost use Rattle.batch_sides.specs.Row.{RestBegins, RestCame, RowBegins, RowCame};
ghost use Rattle.batch_sides.specs.Output.{OutputRan};

use crate::card_side::{CardSide, run_cards};
use crate::input_side::{InputSide, run_pages};
use crate::job_side::{JobSide, run_jobs};
use crate::output_side::{OutputSide, run_lines};
use crate::printer_side::{PrinterSide, run_paper};
use crate::promises::Coming;
use crate::run::Ended;
use batch_procs::{JobWork, Loader};
use side_by_side::{Start, Told, three_beside};
use solo_devices::{Area, Sink, Source};
use std::alloc::Global;
use std::sync::Wait;
use std::thread::Threads;

/// The sides of the five processes, in their order.
pub struct Row<'a, S: Source + Drop, K: Sink + Drop, F, A: Area + Send, B: Area + Send> {
    pub cards: CardSide<'a, S>,
    pub pages: InputSide<'a, A>,
    pub jobs: JobSide<'a, F, A, B>,
    pub lines: OutputSide<'a, B>,
    pub paper: PrinterSide<'a, K>,
}

/// The same once all have ended, each with how it ended.
pub struct RowEnded<'a, S: Source + Drop, K: Sink + Drop, F, A: Area + Send, B: Area + Send> {
    pub cards: Ended<CardSide<'a, S>>,
    pub pages: Ended<InputSide<'a, A>>,
    pub jobs: Ended<JobSide<'a, F, A, B>>,
    pub lines: Ended<OutputSide<'a, B>>,
    pub paper: Ended<PrinterSide<'a, K>>,
}

/// Runs the job, the output and the printer process side by side, where all have come to the start.
#[inline(never)]
fn run_rest<
    'a,
    'b,
    'c,
    's,
    J: JobWork + Send,
    K: Sink + Drop + Send,
    F: Loader<J> + Send,
    A: Area + Send,
    B: Area + Send,
    R: Threads + Wait + Sync,
>(
    rt: &R,
    alloc: Global,
    start: &'s Start,
    jobs: JobSide<'a, F, A, B>,
    lines: OutputSide<'b, B>,
    paper: PrinterSide<'c, K>,
) -> (
    (
        Ended<JobSide<'a, F, A, B>>,
        Ended<OutputSide<'b, B>>,
        Ended<PrinterSide<'c, K>>,
    ),
    Told<'s>,
)
where
    J::Load: Send,
    requires { RestBegins J.jobs K.given K.faults
        (loading F.found F.pages F.faults F.sound) A.size B.size jobs lines paper }
    ensures { RestCame J.jobs K.given K.faults
        (loading F.found F.pages F.faults F.sound) A.size B.size
        start.now.lock result.1.of result.1.value jobs.entry lines.entry paper.entry result.0 }
{
    let promises = (
        Coming::<J, JobSide<F, A, B>>::with(start, &jobs),
        Coming::<J, OutputSide<B>>::with(start, &lines),
    );
    let ((jobs, told), (lines, of_lines), (paper, of_paper)) = three_beside(
        rt,
        start,
        promises,
        move || -> (Ended<JobSide<F, A, B>>, Told<'_>)
            requires { JobRan {L = J.Load} (loading F.found F.pages F.faults F.sound)
                A.size B.size jobs jobs None [] }
            ensures { JobsCame J.jobs (loading F.found F.pages F.faults F.sound) A.size B.size
                start.entry.now.lock result.1.of result.1.value jobs.entry result.0 }
        { run_jobs::<J, F, A, B, R>(rt, alloc, start, jobs) },
        move || -> (Ended<OutputSide<B>>, Told<'_>)
            requires { OutputRan {L = J.Load} B.size lines lines None [] }
            ensures { LinesCame J.jobs B.size
                start.entry.now.lock result.1.of result.1.value lines.entry result.0 }
        { run_lines::<J, B, R>(rt, alloc, start, lines) },
        move || -> (Ended<PrinterSide<K>>, Told<'_>)
            requires { PrinterRan {L = J.Load} K.given K.faults paper paper None [] }
            ensures { PaperCame J.jobs K.given K.faults
                start.entry.now.lock result.1.of result.1.value paper.entry result.0 }
        { run_paper::<J, K, R>(rt, alloc, start, paper) },
    );
    told.agrees(&of_lines);
    told.agrees(&of_paper);
    ((jobs, lines, paper), told)
}

/// Runs the five side by side, and says whether they ran. Where memory is refused for a thread none begins,
/// and their sides come back as they were.
#[inline(never)]
pub fn run_five<
    'a,
    J: JobWork + Send,
    S: Source + Drop + Send,
    K: Sink + Drop + Send,
    F: Loader<J> + Send,
    A: Area + Send,
    B: Area + Send,
    R: Threads + Wait + Sync,
>(rt: &R, alloc: Global, row: Row<'a, S, K, F, A, B>) -> (RowEnded<'a, S, K, F, A, B>, bool)
where
    J::Load: Send,
    requires { RowBegins J.jobs S.left S.taken S.faults K.given K.faults
        (loading F.found F.pages F.faults F.sound) A.size B.size row }
    ensures { RowCame J.jobs S.left S.taken S.faults K.given K.faults
        (loading F.found F.pages F.faults F.sound) A.size B.size result.1 row.entry result.0 }
{
    let Row {
        cards,
        pages,
        jobs,
        lines,
        paper,
    } = row;
    let start = &Start::new(5);
    let promises = (
        Coming::<J, CardSide<S>>::with(start, &cards),
        Coming::<J, InputSide<A>>::with(start, &pages),
    );
    let ((cards, told), (pages, of_pages), (rest, of_rest)) = three_beside(
        rt,
        start,
        promises,
        move || -> (Ended<CardSide<S>>, Told<'_>)
            requires { CardRan {L = J.Load} S.left S.taken S.faults cards cards None [] }
            ensures { CardsCame J.jobs S.left S.taken S.faults
                start.entry.now.lock result.1.of result.1.value cards.entry result.0 }
        { run_cards::<J, S, R>(rt, alloc, start, cards) },
        move || -> (Ended<InputSide<A>>, Told<'_>)
            requires { InputRan {L = J.Load} A.size pages pages None [] }
            ensures { PagesCame J.jobs A.size
                start.entry.now.lock result.1.of result.1.value pages.entry result.0 }
        { run_pages::<J, A, R>(rt, alloc, start, pages) },
        move || -> (
            (
                Ended<JobSide<F, A, B>>,
                Ended<OutputSide<B>>,
                Ended<PrinterSide<K>>,
            ),
            Told<'_>,
        )
            requires { RestBegins J.jobs K.given K.faults
                (loading F.found F.pages F.faults F.sound) A.size B.size jobs lines paper }
            ensures { RestCame J.jobs K.given K.faults
                (loading F.found F.pages F.faults F.sound) A.size B.size
                start.entry.now.lock result.1.of result.1.value
                jobs.entry lines.entry paper.entry result.0 }
        { run_rest::<J, K, F, A, B, R>(rt, alloc, start, jobs, lines, paper) },
    );
    told.agrees(&of_pages);
    told.agrees(&of_rest);
    let whole = start.is_whole(&told);
    let (jobs, lines, paper) = rest;
    let ended = RowEnded {
        cards,
        pages,
        jobs,
        lines,
        paper,
    };
    (ended, whole)
}
