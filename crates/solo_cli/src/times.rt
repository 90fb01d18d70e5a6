//! The command that runs a script of the real-time scheduler.
ghost use Rattle.std.specs.Prelude.{◌≡◌, ◌⊎◌, ◌<◌, ◌≤◌, ℕ, List, Some, None, IfSome, IsOk, IsErrOf};
ghost use Rattle.solo_base.specs.Card.{cards};
ghost use Rattle.solo_base.specs.Text.{line_text};
ghost use Rattle.solo_devices.specs.Count.{Rose};
ghost use Rattle.solo_devices.specs.CardUnit.{IsAllTaken, byte_limit, bytes_total};
ghost use Rattle.solo_devices.specs.PrinterUnit.{Gains};
ghost use Rattle.time_net.specs.TimeStands.{IsTimesCause};
ghost use Rattle.time_net.specs.TimesRuns.{fault_told};
ghost use Rattle.run_report.specs.CountsLine.{counts_line};
ghost use Rattle.run_report.specs.Told.{sink_told, source_told};
ghost use Rattle.solo_cli.specs.Refusals.{OfFault};
ghost use Rattle.solo_cli.specs.TimesConsole.{GainsTimes, TimesEnds};

use crate::refusal::Refusal;
use network_run::{Counts, Rule};
use run_report::counts_line;
use solo_base::{Cause, Outcome};
use solo_devices::{PrintFault, PrinterUnit, Sink, Source};
use time_net::{TimeRan, run_times};

/// Runs what is typed at the keys, under the schedule of a number, and displays its lines on the console, and
/// behind them what it counted.
#[inline(never)]
pub fn times<Y: Source, T: Sink>(schedule: u32, keys: Y, console: T) -> (Option<Refusal>, Y, T)
    requires { Y.taken keys ≡ 0 }
    ensures output { (bytes : List ℕ) → Y.left keys ≡ Some bytes →
        GainsTimes (Rule.Numbered schedule) (cards bytes) (T.given console) (T.given result.2)
        (result.0 ≡ None) }
    ensures ends { TimesEnds (Rule.Numbered schedule) (source_told Y.Source keys)
        (source_told Y.Source result.1) (sink_told T.Sink console) (sink_told T.Sink result.2) result.0 }
    ensures all_taken { result.0 ≡ None → IsAllTaken (Y.left result.1) }
    ensures read { result.0 ≡ Some (Refusal.Fault Cause.ReadFault) →
        Rose (Y.faults keys) (Y.faults result.1) }
    ensures shown { result.0 ≡ Some (Refusal.Fault Cause.ConsoleFault) →
        Rose (T.faults console) (T.faults result.2) }
    ensures limit { result.0 ≡ Some (Refusal.Fault Cause.DeckLimit) → byte_limit < Y.taken result.1 }
    ensures beyond { byte_limit < Y.taken result.1 → result.0 ≡ Some (Refusal.Fault Cause.DeckLimit) }
    ensures total { bytes_total (Y.taken result.1) (Y.left result.1)
        ≡ bytes_total (Y.taken keys) (Y.left keys) }
    ensures known { IfSome result.0 (OfFault IsTimesCause) }
{
    let rule = Rule::Numbered { number: schedule };
    let (ran, counts) = run_times(keys, console, rule);
    let TimeRan {
        outcome,
        runs: _,
        typewriter,
    } = ran;
    let (keys, console) = typewriter.into_inner();
    match fault_told(outcome) {
        None => {
            let (cause, console) = show_counts(console, counts);
            (cause, keys, console)
        }
        Some(cause) => (Some(Refusal::Fault(cause)), keys, console),
    }
}

// The fault of an outcome.
fn fault_told(outcome: Outcome) -> Option<Cause>
    ensures { result ≡ fault_told outcome }
{
    match outcome {
        Outcome::Done | Outcome::Stopped => None,
        Outcome::Fault(cause) => Some(cause),
    }
}

// Displays what a script counted.
fn show_counts<T: Sink>(console: T, counts: Counts) -> (Option<Refusal>, T)
    ensures line { Gains (T.given console) (T.given result.1)
        (line_text (counts_line counts.events counts.delays counts.grants)) (result.0 ≡ None) }
    ensures causes { (result.0 ≡ None) ⊎ (result.0 ≡ Some (Refusal.Fault Cause.ConsoleFault))
        ⊎ (result.0 ≡ Some (Refusal.Fault Cause.NoMemory)) }
    ensures failed { result.0 ≡ Some (Refusal.Fault Cause.ConsoleFault) →
        Rose (T.faults console) (T.faults result.1) }
    ensures counts { T.faults console ≤ T.faults result.1 }
{
    let mut unit = PrinterUnit::new(console);
    let shown = unit.print(&counts_line(counts));
    (console_cause(shown), unit.into_inner())
}

// Why a line wasn't displayed.
fn console_cause(shown: Result<(), PrintFault>) -> Option<Refusal>
    ensures done { result ≡ None → IsOk shown }
    ensures causes { (result ≡ None) ⊎ (result ≡ Some (Refusal.Fault Cause.ConsoleFault))
        ⊎ (result ≡ Some (Refusal.Fault Cause.NoMemory)) }
    ensures failed { result ≡ Some (Refusal.Fault Cause.ConsoleFault) → IsErrOf shown PrintFault.Failed }
{
    match shown {
        Ok(()) => None,
        Err(PrintFault::Failed) => Some(Refusal::Fault(Cause::ConsoleFault)),
        Err(PrintFault::NoMemory) => Some(Refusal::Fault(Cause::NoMemory)),
    }
}
