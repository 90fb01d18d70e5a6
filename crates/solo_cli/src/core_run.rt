//! The command that runs the deck on the core, under the schedule of a number.
ghost use Rattle.std.specs.Prelude.{◌≡◌, ◌∷◌, Some, IfSome, None, true};
ghost use Rattle.solo_base.specs.Text.{line_text};
ghost use Rattle.run_report.specs.CountsLine.{counts_line};
ghost use Rattle.run_report.specs.Told.{sink_told};
ghost use Rattle.solo_cli.specs.Causes.{run_statuses};
ghost use Rattle.solo_cli.specs.DeckRan.{RanCore, RanDeck};
ghost use Rattle.solo_cli.specs.DeckRuns.{RunsCore};
ghost use Rattle.solo_cli.specs.Devices.{deck_kit};
ghost use Rattle.solo_cli.specs.Printing.{PrintsBytes};
ghost use Rattle.solo_cli.specs.Ready.{MayRunDeck};

use crate::ending::{Ended, came_to, units_of};
use crate::printing::print_line;
use crate::refusal::Refusal;
use deck_work::{DeckFiles, DeckWork};
use disk_files::FileArea;
use net_core::run_core;
use network_run::{Counts, Rule};
use run_report::counts_line;
use solo_devices::{Area, Sink, Source};
use std::alloc::Global;

/// Mounts the files, runs the deck under the schedule of this number, prints the report of each of its jobs,
/// and behind the reports what was counted.
#[inline(never)]
pub fn core<S: Source, K: Sink, F: Area + Drop, I: Area, O: Area>(
    alloc: Global,
    schedule: u32,
    deck: S,
    paper: K,
    files: F,
    input: I,
    output: O,
) -> Ended<S, K, F, I, O>
    requires { MayRunDeck (deck_kit S.Source K.Sink F.Area I.Area O.Area deck paper files input output) }
    ensures { RanDeck (RunsCore schedule) true (7 ∷ run_statuses)
        (deck_kit S.Source K.Sink F.Area I.Area O.Area deck paper files input output)
        (deck_kit S.Source K.Sink F.Area I.Area O.Area result.1 result.2 result.3 result.4 result.5)
        result.0 }
{
    match FileArea::mount(alloc, files) {
        Ok(files) => {
            let (ran, counts) = run_numbered(alloc, schedule, deck, paper, files, input, output);
            let (cause, deck, paper, files, input, output) = ran;
            let (cause, paper) = with_counts(cause, paper, counts);
            (cause, deck, paper, files, input, output)
        }
        Err((files, fault)) => (
            Some(Refusal::of_mount(fault)),
            deck,
            paper,
            files,
            input,
            output,
        ),
    }
}

/// Runs a deck with mounted files under the schedule of this number. What it came to, and what it counted.
#[inline(never)]
pub fn run_numbered<S: Source, K: Sink, F: Area + Drop, I: Area, O: Area>(
    alloc: Global,
    number: u32,
    deck: S,
    paper: K,
    files: FileArea<F>,
    input: I,
    output: O,
) -> (Ended<S, K, F, I, O>, Counts)
    requires ready { MayRunDeck
        (deck_kit S.Source K.Sink F.Area I.Area O.Area deck paper files.area input output) }
    requires sound { files.sound ≡ true }
    ensures { RanCore (Rule.Numbered number)
        (deck_kit S.Source K.Sink F.Area I.Area O.Area deck paper files.area input output)
        (deck_kit S.Source K.Sink F.Area I.Area O.Area result.0.1 result.0.2 result.0.3 result.0.4 result.0.5)
        result.0.0 result.1 }
{
    let units = units_of(deck, paper, files, input, output);
    let rule = Rule::Numbered { number };
    let (ran, counts) = run_core::<DeckWork, S, K, DeckFiles<F>, I, O>(alloc, units, rule);
    (came_to(ran), counts)
}

// Prints what a run counted, behind its reports, unless it has a cause.
fn with_counts<K: Sink>(cause: Option<Refusal>, paper: K, counts: Counts) -> (Option<Refusal>, K)
    ensures fault { IfSome cause (λ why. (result.0 ≡ Some why)
        × (sink_told K.Sink result.1 ≡ sink_told K.Sink paper)) }
    ensures prints { cause ≡ None → PrintsBytes (sink_told K.Sink paper) (sink_told K.Sink result.1)
        (line_text (counts_line counts.events counts.delays counts.grants)) result.0 }
{
    match cause {
        Some(cause) => (Some(cause), paper),
        None => print_line(paper, &counts_line(counts)),
    }
}
