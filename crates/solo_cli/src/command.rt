//! What the words of a command line ask for, done over devices.
ghost use Rattle.std.specs.Prelude.{◌≡◌, ◌≢◌, ◌↔◌, ◌⊎◌, ◌<◌, ◌≤◌, ℕ, List, Some, None, IsSome};
ghost use Rattle.solo_base.specs.Text.{text};
ghost use Rattle.solo_base.specs.Card.{cards};
ghost use Rattle.solo_devices.specs.PrinterUnit.{Gains};
ghost use Rattle.batch_job.specs.Report.{Loads};
ghost use Rattle.batch_job.specs.OneThread.{one_thread_output};
ghost use Rattle.deck_work.specs.DeckJobs.{AreFound, files_found};
ghost use Rattle.solo_cli.specs.Reasons.{Answers, NothingFails};
ghost use Rattle.solo_cli.specs.Causes.{MayBeRefused};
ghost use Rattle.solo_cli.specs.Devices.{finished_with, kit, kit_after};
ghost use Rattle.solo_cli.specs.Does.{DoesItsWork, Finishes};
ghost use Rattle.solo_cli.specs.Ready.{MayBeGiven};
ghost use Rattle.solo_cli.specs.Status.{status_of};
ghost use Rattle.solo_cli.specs.Uses.{uses};
ghost use Rattle.solo_cli.specs.Words.{asked, HasNumber};

use crate::batch::batch;
use crate::check::check;
use crate::core_run::core;
use crate::ending::Ended;
use crate::files::{format, migrate};
use crate::make::make;
use crate::refusal::Refusal;
use crate::session::session;
use crate::status::status_of;
use crate::times::times;
use crate::words::{Command, command_of};
use solo_base::Cause;
use solo_devices::{Area, Sink, Source};
use std::alloc::Global;
use std::sync::Wait;
use std::thread::Threads;

/// How a command ended, and its devices. The cause is there except at status 0.
#[derive(Debug, Drop)]
pub struct Finished<S, Y, K, T, F, I, O> {
    pub status: u8,
    pub cause: Option<Refusal>,
    pub deck: S,
    pub keys: Y,
    pub paper: K,
    pub console: T,
    pub files: F,
    pub input: I,
    pub output: O,
}

/// Runs the command that the words are, over these devices. `batch`, `core`, `make` and `solo` mount the
/// files before anything else. `batch` and `core` then run the card deck and print the report of each of its
/// jobs: `batch` on threads, `core` under the schedule of a number, and behind the reports it prints what it
/// counted. `make` makes the deck of a number, runs it in memory under the schedule of this number, and
/// prints the numbers of both. `format` makes the area of the files one without a file, and `migrate` makes
/// one of format 1 one of format 2 with the same files. `check` judges the deck as a description of access
/// rights, and prints the line of its judgement. `times` runs what is typed at the keys, under the schedule
/// of a number, and displays its lines on the console. `solo` runs a session on threads: the commands that
/// are typed at the keys, with the deck as cards; it displays their answers on the console, and prints and
/// changes files as they say. Where the words are no command, nothing is done.
pub fn top<
    S: Source + Drop + Send,
    Y: Source + Drop + Send,
    K: Sink + Drop + Send,
    T: Sink + Drop + Send,
    F: Area + Drop + Send,
    I: Area + Send,
    O: Area + Send,
    R: Threads + Wait + Sync,
>(
    rt: &R,
    alloc: Global,
    words: &[String],
    deck: S,
    keys: Y,
    paper: K,
    console: T,
    files: F,
    input: I,
    output: O,
) -> Finished<S, Y, K, T, F, I, O>
    requires deck { S.taken deck ≡ 0 }
    requires keys { Y.taken keys ≡ 0 }
    requires files { F.size files ≡ 4288 }
    requires input { (0 < I.size input) × (I.size input ≤ 256) }
    requires output { (0 < O.size output) × (O.size output ≤ 256) }

    // For the word `batch` the paper gains the one-thread output of the deck's jobs, with the files as they
    // are told, or with any where no job names one; or a prefix of it, and all of it at status 0.
    ensures output { (bytes : List ℕ) (found : Loads) → asked words.now ≡ Some Command.Batch →
        S.left deck ≡ Some bytes → AreFound (files_found (F.pages files)) found (cards bytes) →
        IsSome (I.pages input) → IsSome (O.pages output) →
        Gains (K.given paper) (K.given result.paper) (text (one_thread_output found bytes))
        (result.status ≡ 0) }

    // What the words ask for is done, each command as its own record says.
    ensures does { DoesItsWork (asked words.now)
        (kit S.Source Y.Source K.Sink T.Sink F.Area I.Area O.Area deck keys paper console files input
        output)
        (kit_after S.Source Y.Source K.Sink T.Sink F.Area I.Area O.Area result) result.cause }

    // The status is the number of the cause. Each cause is one that the command may have, and has its reason,
    // and a device that the command doesn't use comes back as it came.
    ensures status { result.status ≡ status_of result.cause }
    ensures answers { Answers (uses (asked words.now)) (MayBeRefused (asked words.now))
        (kit S.Source Y.Source K.Sink T.Sink F.Area I.Area O.Area deck keys paper console files input
        output)
        (kit_after S.Source Y.Source K.Sink T.Sink F.Area I.Area O.Area result) result.cause }

    // The words are no command.
    ensures usage { (result.status ≡ 1) ↔ (asked words.now ≡ None) }

    // Where nothing fails the whole work is done, unless memory is refused. A migration may find too little
    // room.
    ensures complete { asked words.now ≢ None → NothingFails (asked words.now)
        (kit S.Source Y.Source K.Sink T.Sink F.Area I.Area O.Area deck keys paper console files input
        output) (kit_after S.Source Y.Source K.Sink T.Sink F.Area I.Area O.Area result) →
        (result.status ≡ 0) ⊎ (result.status ≡ 9)
        ⊎ ((result.status ≡ 10) × (asked words.now ≡ Some Command.Migrate)) }
    ensures files_size { F.size result.files ≡ F.size files }
{
    let command = command_of(words);
    run(
        rt, alloc, command, deck, keys, paper, console, files, input, output,
    )
}

// Runs a command, or none.
fn run<
    S: Source + Drop + Send,
    Y: Source + Drop + Send,
    K: Sink + Drop + Send,
    T: Sink + Drop + Send,
    F: Area + Drop + Send,
    I: Area + Send,
    O: Area + Send,
    R: Threads + Wait + Sync,
>(
    rt: &R,
    alloc: Global,
    command: Option<Command>,
    deck: S,
    keys: Y,
    paper: K,
    console: T,
    files: F,
    input: I,
    output: O,
) -> Finished<S, Y, K, T, F, I, O>
    requires ready { MayBeGiven (kit S.Source Y.Source K.Sink T.Sink F.Area I.Area O.Area deck keys paper
        console files input output) }
    requires number { HasNumber command }
    ensures status { result.status ≡ status_of result.cause }
    ensures finishes { Finishes command
        (kit S.Source Y.Source K.Sink T.Sink F.Area I.Area O.Area deck keys paper console files input output)
        (kit_after S.Source Y.Source K.Sink T.Sink F.Area I.Area O.Area result) result.cause }
{
    let Some(command) = command else {
        let cause = Some(Refusal::Fault(Cause::Usage));
        return finish(cause, deck, keys, paper, console, files, input, output);
    };
    match command {
        Command::Batch => {
            let ended = batch(rt, alloc, deck, paper, files, input, output);
            beside(ended, keys, console)
        }
        Command::Core { schedule } => {
            let ended = core(alloc, schedule, deck, paper, files, input, output);
            beside(ended, keys, console)
        }
        Command::Make { number } => {
            let ended = make(alloc, number, deck, paper, files, input, output);
            beside(ended, keys, console)
        }
        Command::Format => {
            let (cause, files) = format(files);
            finish(cause, deck, keys, paper, console, files, input, output)
        }
        Command::Migrate => {
            let (cause, files) = migrate(alloc, files);
            finish(cause, deck, keys, paper, console, files, input, output)
        }
        Command::Check => {
            let (cause, deck, paper) = check(alloc, deck, paper);
            finish(cause, deck, keys, paper, console, files, input, output)
        }
        Command::Times { schedule } => {
            let (cause, keys, console) = times(schedule, keys, console);
            finish(cause, deck, keys, paper, console, files, input, output)
        }
        Command::Solo => session(rt, alloc, deck, keys, paper, console, files, input, output),
    }
}

// How a command that runs a deck ended, beside the keys and the console, which it doesn't use.
#[inline(never)]
fn beside<S, Y, K, T, F, I, O>(
    ended: Ended<S, K, F, I, O>,
    keys: Y,
    console: T,
) -> Finished<S, Y, K, T, F, I, O>
    ensures { result ≡ finished_with ended.0 ended.1 keys ended.2 console ended.3 ended.4 ended.5 }
{
    let (cause, deck, paper, files, input, output) = ended;
    finish(cause, deck, keys, paper, console, files, input, output)
}

/// The end of a command with this cause, and its devices.
pub fn finish<S, Y, K, T, F, I, O>(
    cause: Option<Refusal>,
    deck: S,
    keys: Y,
    paper: K,
    console: T,
    files: F,
    input: I,
    output: O,
) -> Finished<S, Y, K, T, F, I, O>
    ensures { result ≡ finished_with cause deck keys paper console files input output }
{
    Finished {
        status: status_of(cause),
        cause,
        deck,
        keys,
        paper,
        console,
        files,
        input,
        output,
    }
}
