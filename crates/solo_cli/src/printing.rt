//! The printing of lines by a command itself.
ghost use Rattle.std.specs.Prelude.{◌≡◌, ◌≤◌, Some, None, IsOk, IsErrOf, IfSome, true};
ghost use Rattle.solo_base.specs.Text.{line_text, text};
ghost use Rattle.solo_devices.specs.Count.{Rose};
ghost use Rattle.solo_devices.specs.PrinterUnit.{Gains};
ghost use Rattle.run_report.specs.Told.{sink_told};
ghost use Rattle.solo_cli.specs.Causes.{EndsBy, print_statuses};
ghost use Rattle.solo_cli.specs.Printing.{PrintsBytes};

use crate::refusal::Refusal;
use solo_base::{Cause, Line};
use solo_devices::{PrintFault, PrinterUnit, Sink};

/// Prints a line.
pub fn print_line<K: Sink>(paper: K, line: &Line) -> (Option<Refusal>, K)
    ensures { PrintsBytes (sink_told K.Sink paper) (sink_told K.Sink result.1) (line_text line.now) result.0 }
{
    let mut unit = PrinterUnit::new(paper);
    let printed = unit.print(line);
    (refusal_of(printed), unit.into_inner())
}

/// Prints lines, up to the first that is refused.
pub fn print_all<K: Sink>(paper: K, lines: &[Line]) -> (Option<Refusal>, K)
    ensures { PrintsBytes (sink_told K.Sink paper) (sink_told K.Sink result.1) (text lines.now) result.0 }
{
    let mut unit = PrinterUnit::new(paper);
    let printed = print_lines(&mut unit, lines);
    (refusal_of(printed), unit.into_inner())
}

fn print_lines<K: Sink>(unit: &mut PrinterUnit<K>, lines: &[Line]) -> Result<(), PrintFault>
    requires { unit.old.live ≡ true }
    ensures lines { Gains (K.given unit.old.sink) (K.given unit.new.sink) (text lines.now) (IsOk result) }
    ensures counts { K.faults unit.old.sink ≤ K.faults unit.new.sink }
    ensures failed { IsErrOf result PrintFault.Failed →
        Rose (K.faults unit.old.sink) (K.faults unit.new.sink) }
{
    match lines {
        [] => Ok(()),
        [line, later @ ..] => {
            unit.print(line)?;
            print_lines(unit, later)
        }
    }
}

// Why a line wasn't printed.
fn refusal_of(printed: Result<(), PrintFault>) -> Option<Refusal>
    ensures done { result ≡ None → IsOk printed }
    ensures known { IfSome result (EndsBy print_statuses) }
    ensures failed { result ≡ Some (Refusal.Fault Cause.PrintFault) → IsErrOf printed PrintFault.Failed }
{
    match printed {
        Ok(()) => None,
        Err(PrintFault::Failed) => Some(Refusal::Fault(Cause::PrintFault)),
        Err(PrintFault::NoMemory) => Some(Refusal::Fault(Cause::NoMemory)),
    }
}
