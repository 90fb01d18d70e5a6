//! The command that runs a session of Solo on threads.
ghost use Rattle.std.specs.Prelude.{◌≡◌, length, Some};
ghost use Rattle.run_report.specs.Decides.{decides};
ghost use Rattle.solo_cli.specs.Devices.{finished_with, kit, kit_after};
ghost use Rattle.solo_cli.specs.Does.{Finishes};
ghost use Rattle.solo_cli.specs.Ready.{MayBeGiven};
ghost use Rattle.solo_cli.specs.Refusals.{as_refusal};
ghost use Rattle.solo_cli.specs.Status.{status_of};

use crate::command::{Finished, finish};
use crate::refusal::Refusal;
use crate::words::Command;
use disk_files::FileArea;
use run_report::decides;
use session_work::SessionCommands;
use solo_base::{Cause, NoMemory};
use solo_devices::{Area, CardUnit, PrinterUnit, Sink, Source, Typewriter};
use solo_ends::{SoloRan, SoloUnits};
use solo_run::run_solo;
use std::alloc::Global;
use std::sync::Wait;
use std::thread::Threads;

/// Mounts the files, and then runs the commands that are typed at the keys on three threads, with the deck as
/// cards: it displays their answers on the console, and prints and changes files as they say. The areas of
/// the spools are given back as they came.
#[inline(never)]
pub fn session<
    S: Source + Drop + Send,
    Y: Source + Drop + Send,
    K: Sink + Drop + Send,
    T: Sink + Drop + Send,
    F: Area + Drop + Send,
    I: Area,
    O: Area,
    R: Threads + Wait + Sync,
>(
    rt: &R,
    alloc: Global,
    deck: S,
    keys: Y,
    paper: K,
    console: T,
    files: F,
    input: I,
    output: O,
) -> Finished<S, Y, K, T, F, I, O>
    requires { MayBeGiven (kit S.Source Y.Source K.Sink T.Sink F.Area I.Area O.Area deck keys paper console
        files input output) }
    ensures status { result.status ≡ status_of result.cause }
    ensures session { Finishes (Some Command.Solo)
        (kit S.Source Y.Source K.Sink T.Sink F.Area I.Area O.Area deck keys paper console files input output)
        (kit_after S.Source Y.Source K.Sink T.Sink F.Area I.Area O.Area result) result.cause }
{
    match FileArea::mount(alloc, files) {
        Ok(files) => {
            let units = SoloUnits {
                cards: CardUnit::new(deck),
                typewriter: Typewriter::new(keys, console),
                paper: PrinterUnit::new(paper),
                files,
            };
            match run_solo::<SessionCommands<F>, S, Y, K, T, R>(rt, alloc, units) {
                Ok(ran) => came_to(ran, input, output),
                Err((units, NoMemory)) => given_back(Some(Cause::NoMemory), units, input, output),
            }
        }
        Err((files, fault)) => {
            let cause = Some(Refusal::of_mount(fault));
            finish(cause, deck, keys, paper, console, files, input, output)
        }
    }
}

// What a session came to, beside the areas of the spools, which it doesn't use.
#[inline(never)]
fn came_to<S: Source, Y: Source, K: Sink, T: Sink, F: Area + Drop, I, O>(
    ran: SoloRan<S, Y, K, T, FileArea<F>>,
    input: I,
    output: O,
) -> Finished<S, Y, K, T, F, I, O>
    ensures finishes { result ≡ finished_with (as_refusal (decides ran.outcomes)) ran.units.cards.source
        ran.units.typewriter.keys.source ran.units.paper.sink ran.units.typewriter.console.sink
        ran.units.files.area input output }
    ensures three { length ran.outcomes ≡ 3 }
    ensures size { F.size ran.units.files.area ≡ 4288 }
{
    let SoloRan {
        outcomes,
        stopped_by: _,
        units,
    } = ran;
    given_back(decides(&outcomes), units, input, output)
}

// The devices behind a session with this cause.
#[inline(never)]
fn given_back<S: Source, Y: Source, K: Sink, T: Sink, F: Area + Drop, I, O>(
    cause: Option<Cause>,
    units: SoloUnits<S, Y, K, T, FileArea<F>>,
    input: I,
    output: O,
) -> Finished<S, Y, K, T, F, I, O>
    ensures finishes { result ≡ finished_with (as_refusal cause) units.cards.source
        units.typewriter.keys.source units.paper.sink units.typewriter.console.sink units.files.area input
        output }
    ensures size { F.size units.files.area ≡ 4288 }
{
    let SoloUnits {
        cards,
        typewriter,
        paper,
        files,
    } = units;
    let (keys, console) = typewriter.into_inner();
    let cause = Refusal::of_run(cause);
    finish(
        cause,
        cards.into_inner(),
        keys,
        paper.into_inner(),
        console,
        files.into_inner(),
        input,
        output,
    )
}
