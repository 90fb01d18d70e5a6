//! The three processes of Solo, each on a thread of its own.
ghost use Rattle.std.specs.Prelude.{◌≡◌, [], IfOk, IfErr};
ghost use Rattle.solo_run.specs.Input.{InputRan};
ghost use Rattle.solo_run.specs.Job.{JobRan, job_world};
ghost use Rattle.solo_run.specs.Output.{OutputRan};
ghost use Rattle.solo_run.specs.Row.{BackBegins, BackCame, InputCame, JobCame, OutputCame, RowBegins, RowRan};

use crate::input_side::InputSide;
use crate::job_run::run_job;
use crate::job_side::JobSide;
use crate::output_side::OutputSide;
use crate::promises::{InputComing, OutputComing};
use crate::run::{run_input, run_output};
use side_by_side::{Start, Told, beside};
use solo_base::Outcome;
use solo_devices::{Sink, Source};
use solo_procs::Commands;
use std::alloc::Global;
use std::snapshot::Snapshot;
use std::sync::Wait;
use std::thread::Threads;

/// What a process ended with: its side of the buffers, and how it ended.
pub type Ended<C> = (C, Outcome);

/// The sides of the three processes.
pub struct Row<'a, S: Source, Y: Source, K: Sink, T: Sink, F> {
    pub input: InputSide<'a, S>,
    pub job: JobSide<'a, Y, T, F>,
    pub output: OutputSide<'a, K>,
}

/// The same once all have ended.
pub struct RowEnded<'a, S: Source, Y: Source, K: Sink, T: Sink, F> {
    pub input: Ended<InputSide<'a, S>>,
    pub job: Ended<JobSide<'a, Y, T, F>>,
    pub output: Ended<OutputSide<'a, K>>,
}

/// Runs the input process up to its end, where all have come to the start.
fn begin_input<'a, 's, S: Source + Drop + Send, R: Threads + Wait + Sync>(
    rt: &R,
    alloc: Global,
    start: &'s Start,
    input: InputSide<'a, S>,
) -> (Ended<InputSide<'a, S>>, Told<'s>)
    requires { InputRan S.left S.taken S.faults input input [] }
    ensures { InputCame S.left S.taken S.faults start.now.lock result.1.of result.1.value input.entry result.0 }
{
    let told = start.come(rt);
    let mut side = input;
    if start.is_whole(&told) {
        let how = run_input(&mut side, rt, alloc);
        return ((side, how), told);
    }
    ((side, Outcome::Stopped), told)
}

/// Runs the output process up to its end, where all have come to the start.
fn begin_output<'a, 's, K: Sink + Drop + Send, R: Threads + Wait + Sync>(
    rt: &R,
    alloc: Global,
    start: &'s Start,
    output: OutputSide<'a, K>,
) -> (Ended<OutputSide<'a, K>>, Told<'s>)
    requires { OutputRan K.given K.faults output output [] }
    ensures { OutputCame K.given K.faults start.now.lock result.1.of result.1.value output.entry result.0 }
{
    let told = start.come(rt);
    let mut side = output;
    if start.is_whole(&told) {
        let how = run_output(&mut side, rt, alloc);
        return ((side, how), told);
    }
    ((side, Outcome::Stopped), told)
}

/// Runs the job process up to its end, where all have come to the start.
fn begin_job<
    'a,
    's,
    C: Commands + Drop,
    Y: Source + Drop + Send,
    T: Sink + Drop + Send,
    R: Threads + Wait + Sync,
>(
    rt: &R,
    alloc: Global,
    start: &'s Start,
    job: JobSide<'a, Y, T, C::Files>,
) -> (Ended<JobSide<'a, Y, T, C::Files>>, Told<'s>)
where
    C::Files: Drop + Send,
    requires { JobRan (job_world Y.left Y.taken Y.faults T.given T.faults C.sound C.faults C.opens
        C.follows C.passes)
        (C.opens job.files) job job [] }
    ensures { JobCame (job_world Y.left Y.taken Y.faults T.given T.faults C.sound C.faults C.opens
        C.follows C.passes)
        start.now.lock result.1.of result.1.value job.entry result.0 }
{
    let told = start.come(rt);
    let mut side = job;
    if start.is_whole(&told) {
        let how = run_job::<C, Y, T, R>(&mut side, rt, alloc);
        return ((side, how), told);
    }
    ((side, Outcome::Stopped), told)
}

/// Runs the job and the output process side by side, where all have come to the start.
fn run_back<
    'a,
    'b,
    's,
    C: Commands + Drop,
    Y: Source + Drop + Send,
    K: Sink + Drop + Send,
    T: Sink + Drop + Send,
    R: Threads + Wait + Sync,
>(
    rt: &R,
    alloc: Global,
    start: &'s Start,
    job: JobSide<'a, Y, T, C::Files>,
    output: OutputSide<'b, K>,
) -> (
    (Ended<JobSide<'a, Y, T, C::Files>>, Ended<OutputSide<'b, K>>),
    Told<'s>,
)
where
    C::Files: Drop + Send,
    requires { BackBegins (job_world Y.left Y.taken Y.faults T.given T.faults C.sound C.faults C.opens
        C.follows C.passes)
        K.given K.faults job output }
    ensures { BackCame (job_world Y.left Y.taken Y.faults T.given T.faults C.sound C.faults C.opens
        C.follows C.passes)
        K.given K.faults start.now.lock result.1.of result.1.value job.entry output.entry result.0 }
{
    let ((output, told), (job, also)) = beside(
        rt,
        start,
        OutputComing {
            start,
            output: Snapshot::of(&output),
        },
        move || -> (Ended<OutputSide<K>>, Told<'_>)
            requires { OutputRan K.given K.faults output output [] }
            ensures { OutputCame K.given K.faults
                start.entry.now.lock result.1.of result.1.value output.entry result.0 }
        { begin_output(rt, alloc, start, output) },
        move || -> (Ended<JobSide<Y, T, C::Files>>, Told<'_>)
            requires { JobRan (job_world Y.left Y.taken Y.faults T.given T.faults C.sound C.faults C.opens
                C.follows C.passes)
                (C.opens job.files) job job [] }
            ensures { JobCame (job_world Y.left Y.taken Y.faults T.given T.faults C.sound C.faults C.opens
                C.follows C.passes)
                start.entry.now.lock result.1.of result.1.value job.entry result.0 }
        { begin_job::<C, Y, T, R>(rt, alloc, start, job) },
    );
    told.agrees(&also);
    ((job, output), told)
}

/// Runs the three side by side. Where memory is refused for a thread none begins, and their sides come back
/// as they were.
#[inline(never)]
pub fn run_three<
    'a,
    C: Commands + Drop,
    S: Source + Drop + Send,
    Y: Source + Drop + Send,
    K: Sink + Drop + Send,
    T: Sink + Drop + Send,
    R: Threads + Wait + Sync,
>(
    rt: &R,
    alloc: Global,
    row: Row<'a, S, Y, K, T, C::Files>,
) -> Result<RowEnded<'a, S, Y, K, T, C::Files>, Row<'a, S, Y, K, T, C::Files>>
where
    C::Files: Drop + Send,
    requires { RowBegins S.left S.taken S.faults
        (job_world Y.left Y.taken Y.faults T.given T.faults C.sound C.faults C.opens
        C.follows C.passes)
        K.given K.faults row }
    ensures ran { IfOk result (λ ended. RowRan S.left S.taken S.faults
        (job_world Y.left Y.taken Y.faults T.given T.faults C.sound C.faults C.opens
        C.follows C.passes)
        K.given K.faults row.entry ended) }
    ensures refused { IfErr result (λ back. back ≡ row.entry) }
{
    let Row { input, job, output } = row;
    let start = &Start::new(3);
    let ((input, told), (back, also)) = beside(
        rt,
        start,
        InputComing {
            start,
            input: Snapshot::of(&input),
        },
        move || -> (Ended<InputSide<S>>, Told<'_>)
            requires { InputRan S.left S.taken S.faults input input [] }
            ensures { InputCame S.left S.taken S.faults
                start.entry.now.lock result.1.of result.1.value input.entry result.0 }
        { begin_input(rt, alloc, start, input) },
        move || -> (
            (Ended<JobSide<Y, T, C::Files>>, Ended<OutputSide<K>>),
            Told<'_>,
        )
            requires { BackBegins (job_world Y.left Y.taken Y.faults T.given T.faults C.sound C.faults C.opens
                C.follows C.passes)
                K.given K.faults job output }
            ensures { BackCame (job_world Y.left Y.taken Y.faults T.given T.faults C.sound C.faults C.opens
                C.follows C.passes)
                K.given K.faults start.entry.now.lock result.1.of result.1.value
                job.entry output.entry result.0 }
        { run_back::<C, Y, K, T, R>(rt, alloc, start, job, output) },
    );
    told.agrees(&also);
    let (job, output) = back;
    let ended = RowEnded { input, job, output };
    if start.is_whole(&told) {
        return Ok(ended);
    }
    Err(sides_of(ended))
}

/// The sides of the three.
pub(crate) fn sides_of<'a, S: Source, Y: Source, K: Sink, T: Sink, F>(
    ended: RowEnded<'a, S, Y, K, T, F>,
) -> Row<'a, S, Y, K, T, F>
    ensures { result ≡ record {
      input = ended.entry.input.0;
      job = ended.entry.job.0;
      output = ended.entry.output.0;
    } }
{
    let RowEnded { input, job, output } = ended;
    Row {
        input: input.0,
        job: job.0,
        output: output.0,
    }
}
