//! The command that runs the deck on threads.
ghost use Rattle.solo_cli.specs.Causes.{run_statuses};
ghost use Rattle.std.specs.Prelude.{◌∷◌, true};
ghost use Rattle.solo_cli.specs.DeckRan.{RanDeck};
ghost use Rattle.solo_cli.specs.DeckRuns.{RunsBatch};
ghost use Rattle.solo_cli.specs.Devices.{deck_kit};
ghost use Rattle.solo_cli.specs.Ready.{MayRunDeck};

use crate::ending::{Ended, came_to, given_back, units_of};
use crate::refusal::Refusal;
use batch_run::run_batch;
use deck_work::{DeckFiles, DeckWork};
use disk_files::FileArea;
use solo_base::{Cause, NoMemory};
use solo_devices::{Area, Sink, Source};
use std::alloc::Global;
use std::sync::Wait;
use std::thread::Threads;

/// Mounts the files, and then runs the deck on five threads, and prints the report of each of its jobs.
#[inline(never)]
pub fn batch<
    S: Source + Drop + Send,
    K: Sink + Drop + Send,
    F: Area + Drop + Send,
    I: Area + Send,
    O: Area + Send,
    R: Threads + Wait + Sync,
>(rt: &R, alloc: Global, deck: S, paper: K, files: F, input: I, output: O) -> Ended<S, K, F, I, O>
    requires { MayRunDeck (deck_kit S.Source K.Sink F.Area I.Area O.Area deck paper files input output) }
    ensures { RanDeck RunsBatch true (7 ∷ run_statuses)
        (deck_kit S.Source K.Sink F.Area I.Area O.Area deck paper files input output)
        (deck_kit S.Source K.Sink F.Area I.Area O.Area result.1 result.2 result.3 result.4 result.5)
        result.0 }
{
    match FileArea::mount(alloc, files) {
        Ok(files) => {
            let units = units_of(deck, paper, files, input, output);
            match run_batch::<DeckWork, S, K, DeckFiles<F>, I, O, R>(rt, alloc, units) {
                Ok(ran) => came_to(ran),
                Err((units, NoMemory)) => given_back(Some(Cause::NoMemory), units),
            }
        }
        Err((files, fault)) => (
            Some(Refusal::of_mount(fault)),
            deck,
            paper,
            files,
            input,
            output,
        ),
    }
}
