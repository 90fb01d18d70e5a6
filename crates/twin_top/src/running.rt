//! A run of the deck by the six, with its files mounted, and what is printed behind it.
ghost use Rattle.std.specs.Prelude.{◌≡◌, ℕ, true, None, Some, IsOk, IsErrOf, IfSome};
ghost use Rattle.run_report.specs.Decides.{decides};
ghost use Rattle.run_report.specs.Told.{sink_told};
ghost use Rattle.twin_top.specs.Answers.{HasReasons};
ghost use Rattle.twin_top.specs.Kit.{MayRun, twin_kit, twin_kit_of};
ghost use Rattle.twin_top.specs.Runs.{IsOfPrint, PrintsCounts, SixRan, six_outcomes};

use crate::devices::{TwinDevices, TwinDone};
use deck_work::{DeckFiles, DeckWork};
use disk_files::FileArea;
use network_run::{Counts, Rule};
use run_report::{counts_line, decides};
use solo_base::{Cause, Outcome};
use solo_devices::{Area, CardUnit, PrintFault, PrinterUnit, Sink, Source};
use std::alloc::Global;
use twin_ends::{TwinOutcomes, TwinRan, TwinUnits};
use twin_net::run_twin;

/// Runs the deck under the schedule of this number, prints the report of each of its jobs, and behind the
/// reports what was counted.
#[inline(never)]
pub fn run_mounted<S: Source, K: Sink, F: Area + Drop, A: Area>(
    alloc: Global,
    schedule: u32,
    devices: TwinDevices<S, K, FileArea<F>, A>,
) -> TwinDone<S, K, F, A>
    requires ready { MayRun (twin_kit S.Source K.Sink F.Area A.Area devices.deck devices.paper
        devices.files.area devices.input_a devices.input_b devices.output_a devices.output_b) }
    requires sound { devices.files.sound ≡ true }
    ensures ran { SixRan schedule (twin_kit S.Source K.Sink F.Area A.Area devices.deck devices.paper
        devices.files.area devices.input_a devices.input_b devices.output_a devices.output_b)
        (twin_kit_of S.Source K.Sink F.Area A.Area result.devices) result.cause }
    ensures reasons { HasReasons (twin_kit S.Source K.Sink F.Area A.Area devices.deck devices.paper
        devices.files.area devices.input_a devices.input_b devices.output_a devices.output_b)
        (twin_kit_of S.Source K.Sink F.Area A.Area result.devices) result.cause }
    ensures never { (page : ℕ) → result.cause ≡ Some (Cause.NotSolo page) → ⊥ }
{
    let TwinDevices {
        deck,
        paper,
        files,
        input_a,
        input_b,
        output_a,
        output_b,
    } = devices;
    let units = TwinUnits {
        deck: CardUnit::new(deck),
        paper: PrinterUnit::new(paper),
        files: DeckFiles { files },
        to_a: input_a,
        to_b: input_b,
        from_a: output_a,
        from_b: output_b,
    };
    let rule = Rule::Numbered { number: schedule };
    let (ran, counts) = run_twin::<DeckWork, S, K, DeckFiles<F>, A>(alloc, units, rule);
    came_to(ran, counts)
}

// What the run came to: the cause that decides, or else how what was counted is printed.
#[inline(never)]
fn came_to<S: Source, K: Sink, F: Area + Drop, A: Area>(
    ran: TwinRan<S, K, DeckFiles<F>, A>,
    counts: Counts,
) -> TwinDone<S, K, F, A>
    ensures faulty { (why : Cause) → decides (six_outcomes ran.outcomes) ≡ Some why →
        (result.cause ≡ Some why) × (result.devices.paper ≡ ran.units.paper.sink) }
    ensures faultless { decides (six_outcomes ran.outcomes) ≡ None →
        PrintsCounts (sink_told K.Sink ran.units.paper.sink) (sink_told K.Sink result.devices.paper) counts
        result.cause }
    ensures devices { result.devices ≡ record {
      deck = ran.units.deck.source;
      paper = result.devices.paper;
      files = ran.units.files.files.area;
      input_a = ran.units.to_a;
      input_b = ran.units.to_b;
      output_a = ran.units.from_a;
      output_b = ran.units.from_b;
    } }
    ensures size { F.size ran.units.files.files.area ≡ 4288 }
{
    let TwinRan {
        outcomes,
        stopped_by: _,
        units,
    } = ran;
    let TwinUnits {
        deck,
        paper,
        files,
        to_a,
        to_b,
        from_a,
        from_b,
    } = units;
    let DeckFiles { files } = files;
    let paper = paper.into_inner();
    let decided = decides(&six_outcomes(outcomes));
    let (cause, paper) = end_paper(decided, paper, counts);
    TwinDone {
        cause,
        devices: TwinDevices {
            deck: deck.into_inner(),
            paper,
            files: files.into_inner(),
            input_a: to_a,
            input_b: to_b,
            output_a: from_a,
            output_b: from_b,
        },
    }
}

// The cause that decides, or else how what was counted is printed.
fn end_paper<K: Sink>(decided: Option<Cause>, paper: K, counts: Counts) -> (Option<Cause>, K)
    ensures faulty { (why : Cause) → decided ≡ Some why → (result.0 ≡ Some why) × (result.1 ≡ paper) }
    ensures faultless { decided ≡ None →
        PrintsCounts (sink_told K.Sink paper) (sink_told K.Sink result.1) counts result.0 }
{
    match decided {
        None => print_counts(paper, counts),
        Some(cause) => (Some(cause), paper),
    }
}

// The outcomes of the six, in order.
fn six_outcomes(outcomes: TwinOutcomes) -> [Outcome; 6]
    ensures { result ≡ six_outcomes outcomes }
{
    [
        outcomes.card,
        outcomes.input,
        outcomes.job_a,
        outcomes.job_b,
        outcomes.output,
        outcomes.printer,
    ]
}

// Prints the line of what a run counted.
fn print_counts<K: Sink>(paper: K, counts: Counts) -> (Option<Cause>, K)
    ensures { PrintsCounts (sink_told K.Sink paper) (sink_told K.Sink result.1) counts result.0 }
{
    let mut unit = PrinterUnit::new(paper);
    let printed = unit.print(&counts_line(counts));
    (cause_of(printed), unit.into_inner())
}

// Why a line wasn't printed.
fn cause_of(printed: Result<(), PrintFault>) -> Option<Cause>
    ensures done { result ≡ None → IsOk printed }
    ensures failed { result ≡ Some Cause.PrintFault → IsErrOf printed PrintFault.Failed }
    ensures known { IfSome result IsOfPrint }
{
    match printed {
        Ok(()) => None,
        Err(PrintFault::Failed) => Some(Cause::PrintFault),
        Err(PrintFault::NoMemory) => Some(Cause::NoMemory),
    }
}
