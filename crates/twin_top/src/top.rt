ghost use Rattle.std.specs.Prelude.{◌≡◌, ◌≢◌, ◌↔◌, ◌⊎◌, ◌<◌, ◌≤◌, ℕ, true, List, None, Some, IfErr, IfOk};
ghost use Rattle.batch_job.specs.Report.{Loads};
ghost use Rattle.batch_job.specs.OneThread.{one_thread_output};
ghost use Rattle.run_report.specs.Status.{status_of};
ghost use Rattle.twin_top.specs.Answers.{DoesAsAsked, GainsAndCounts, NothingFailed, RunsDeck};
ghost use Rattle.twin_top.specs.Kit.{MayRun, twin_kit, twin_kit_after, twin_kit_of};
ghost use Rattle.twin_top.specs.Mounting.{HasMounted, HasNotMounted, mount_cause};
ghost use Rattle.twin_top.specs.Runs.{AreGiven};
ghost use Rattle.twin_top.specs.Words.{schedule_asked};

use crate::devices::{TwinDevices, TwinDone};
use crate::running::run_mounted;
use crate::words::schedule_asked;
use disk_files::{FileArea, FileFault};
use run_report::status_of;
use solo_base::Cause;
use solo_devices::{Area, Sink, Source};
use std::alloc::Global;

/// How a run ended, and its devices. The cause is there except at status 0.
#[derive(Debug, Drop)]
pub struct TwinFinished<S, K, F, A> {
    pub status: u8,
    pub cause: Option<Cause>,
    pub deck: S,
    pub paper: K,
    pub files: F,
    pub input_a: A,
    pub input_b: A,
    pub output_a: A,
    pub output_b: A,
}

/// Mounts the files, runs the deck by the six under the schedule of the number that the words ask for, prints
/// the report of each of its jobs, and behind the reports what was counted. Where the words are of no form,
/// nothing is done.
pub fn twin_top<S: Source + Drop, K: Sink + Drop, F: Area + Drop, A: Area + Drop>(
    alloc: Global,
    words: &[String],
    deck: S,
    paper: K,
    files: F,
    input_a: A,
    input_b: A,
    output_a: A,
    output_b: A,
) -> TwinFinished<S, K, F, A>
    requires deck { S.taken deck ≡ 0 }
    requires files { F.size files ≡ 4288 }
    requires input_a { (0 < A.size input_a) × (A.size input_a ≤ 128) }
    requires input_b { (0 < A.size input_b) × (A.size input_b ≤ 128) }
    requires output_a { (0 < A.size output_a) × (A.size output_a ≤ 128) }
    requires output_b { (0 < A.size output_b) × (A.size output_b ≤ 128) }

    // The paper gains the reports of the deck's jobs, as one thread prints them, and behind them a line of
    // counts, or a prefix of both; and both whole at status 0. Which counts, the next clause says.
    ensures output { (bytes : List ℕ) (found : Loads) → schedule_asked words.now ≢ None →
        AreGiven
        (twin_kit S.Source K.Sink F.Area A.Area deck paper files input_a input_b output_a output_b)
        bytes found →
        GainsAndCounts (K.given paper) (K.given result.paper) (one_thread_output found bytes)
        (result.status ≡ 0) }

    // What the words ask for is done.
    ensures does { DoesAsAsked (schedule_asked words.now)
        (twin_kit S.Source K.Sink F.Area A.Area deck paper files input_a input_b output_a output_b)
        (twin_kit_after S.Source K.Sink F.Area A.Area result) result.cause }

    // The status is the number of the cause, and 1 exactly where the words are of no form.
    ensures status { result.status ≡ status_of result.cause }
    ensures usage { (result.status ≡ 1) ↔ (schedule_asked words.now ≡ None) }

    // Where nothing fails the whole work is done, unless memory is refused.
    ensures complete { schedule_asked words.now ≢ None →
        NothingFailed
        (twin_kit S.Source K.Sink F.Area A.Area deck paper files input_a input_b output_a output_b)
        (twin_kit_after S.Source K.Sink F.Area A.Area result) →
        (result.status ≡ 0) ⊎ (result.status ≡ 9) }
    ensures files_size { F.size result.files ≡ F.size files }
{
    let devices = TwinDevices {
        deck,
        paper,
        files,
        input_a,
        input_b,
        output_a,
        output_b,
    };
    let TwinDone { cause, devices } = run_words(alloc, words, devices);
    let TwinDevices {
        deck,
        paper,
        files,
        input_a,
        input_b,
        output_a,
        output_b,
    } = devices;
    TwinFinished {
        status: status_of(cause),
        cause,
        deck,
        paper,
        files,
        input_a,
        input_b,
        output_a,
        output_b,
    }
}

// Runs the deck, if the words ask for it.
fn run_words<S: Source, K: Sink, F: Area + Drop, A: Area>(
    alloc: Global,
    words: &[String],
    devices: TwinDevices<S, K, F, A>,
) -> TwinDone<S, K, F, A>
    requires { MayRun (twin_kit_of S.Source K.Sink F.Area A.Area devices) }
    ensures { DoesAsAsked (schedule_asked words.now) (twin_kit_of S.Source K.Sink F.Area A.Area devices)
        (twin_kit_of S.Source K.Sink F.Area A.Area result.devices) result.cause }
{
    match schedule_asked(words) {
        Some(schedule) => run_deck(alloc, schedule, devices),
        None => TwinDone {
            cause: Some(Cause::Usage),
            devices,
        },
    }
}

// Mounts the files, and runs the deck with them.
fn run_deck<S: Source, K: Sink, F: Area + Drop, A: Area>(
    alloc: Global,
    schedule: u32,
    devices: TwinDevices<S, K, F, A>,
) -> TwinDone<S, K, F, A>
    requires { MayRun (twin_kit_of S.Source K.Sink F.Area A.Area devices) }
    ensures { RunsDeck schedule (twin_kit_of S.Source K.Sink F.Area A.Area devices)
        (twin_kit_of S.Source K.Sink F.Area A.Area result.devices) result.cause }
{
    match mount(alloc, devices) {
        Ok(mounted) => run_mounted(alloc, schedule, mounted),
        Err(done) => done,
    }
}

// Mounts the files. Where they can't be mounted nothing else was touched.
#[inline(never)]
fn mount<S: Source, K: Sink, F: Area, A: Area>(
    alloc: Global,
    devices: TwinDevices<S, K, F, A>,
) -> Result<TwinDevices<S, K, FileArea<F>, A>, TwinDone<S, K, F, A>>
    requires { F.size devices.files ≡ 4288 }
    ensures sound { IfOk result (λ mounted. mounted.files.sound ≡ true) }
    ensures mounted { IfOk result (λ mounted. HasMounted
        (twin_kit_of S.Source K.Sink F.Area A.Area devices)
        (twin_kit S.Source K.Sink F.Area A.Area mounted.deck mounted.paper mounted.files.area mounted.input_a
        mounted.input_b mounted.output_a mounted.output_b)) }
    ensures unmounted { IfErr result (λ done. HasNotMounted
        (twin_kit_of S.Source K.Sink F.Area A.Area devices)
        (twin_kit_of S.Source K.Sink F.Area A.Area done.devices) done.cause) }
{
    let TwinDevices {
        deck,
        paper,
        files,
        input_a,
        input_b,
        output_a,
        output_b,
    } = devices;
    match FileArea::mount(alloc, files) {
        Ok(files) => mounted(deck, paper, files, input_a, input_b, output_a, output_b),
        Err((files, fault)) => unmounted(
            fault, deck, paper, files, input_a, input_b, output_a, output_b,
        ),
    }
}

// The devices with their files mounted. Each of the two ends of a mount stands in a function of its own: both
// together, of devices that have kilobytes in them, would take the compiler of the program many minutes.
#[inline(never)]
fn mounted<S, K, F: Area, A>(
    deck: S,
    paper: K,
    files: FileArea<F>,
    input_a: A,
    input_b: A,
    output_a: A,
    output_b: A,
) -> Result<TwinDevices<S, K, FileArea<F>, A>, TwinDone<S, K, F, A>>
    ensures whole { IfOk result (λ all. all ≡ record {
      deck = deck;
      paper = paper;
      files = files;
      input_a = input_a;
      input_b = input_b;
      output_a = output_a;
      output_b = output_b;
    }) }
    ensures never { IfErr result (λ done. ⊥) }
{
    Ok(TwinDevices {
        deck,
        paper,
        files,
        input_a,
        input_b,
        output_a,
        output_b,
    })
}

// The devices as they came, and why their files weren't mounted.
#[inline(never)]
fn unmounted<S, K, F: Area, A>(
    fault: FileFault,
    deck: S,
    paper: K,
    files: F,
    input_a: A,
    input_b: A,
    output_a: A,
    output_b: A,
) -> Result<TwinDevices<S, K, FileArea<F>, A>, TwinDone<S, K, F, A>>
    ensures refused { IfErr result (λ done. done ≡ record {
      cause = Some (mount_cause fault);
      devices = record {
        deck = deck;
        paper = paper;
        files = files;
        input_a = input_a;
        input_b = input_b;
        output_a = output_a;
        output_b = output_b;
      };
    }) }
    ensures never { IfOk result (λ all. ⊥) }
{
    Err(TwinDone {
        cause: Some(mount_cause(fault)),
        devices: TwinDevices {
            deck,
            paper,
            files,
            input_a,
            input_b,
            output_a,
            output_b,
        },
    })
}

// The cause that files weren't mounted by.
fn mount_cause(fault: FileFault) -> Cause
    ensures { result ≡ mount_cause fault }
{
    match fault {
        FileFault::NotSolo { page } => Cause::NotSolo { page },
        FileFault::NoMemory => Cause::NoMemory,
        _ => Cause::DiskFault,
    }
}
