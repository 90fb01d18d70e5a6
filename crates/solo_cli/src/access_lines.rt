//! The line that the paper gains of a description.
ghost use Rattle.std.specs.Prelude.{◌≡◌, ◌≢◌, ◌≤◌, Err, IfNone, IfSome, length, IsTrue};
ghost use Rattle.std.specs.List.{list_all};
ghost use Rattle.solo_base.specs.Line.{is_printable};
ghost use Rattle.solo_cli.specs.AccessLines.{accepted_line, card_line, access_fault_line, judgement_line};
ghost use Rattle.access_check.specs.declared.fault.AccessFault.TheVariants as why;

use access_check::{Accepted, AccessFault};
use run_report::append_count;
use solo_base::{Ident, Line};

/// The line of a judgement, or `None` where memory was refused.
pub fn judgement_line(answer: Result<Accepted, AccessFault>) -> Option<Line>
    ensures line { IfSome result (λ line. line ≡ judgement_line answer) }
    ensures told { IfSome result (λ line. answer ≢ Err why.NoMemory) }
    ensures none { IfNone result (answer ≡ Err why.NoMemory) }
{
    match &answer {
        Ok(accepted) => Some(accepted_line(accepted)),
        Err(fault) => access_fault_line(fault),
    }
}

fn access_fault_line(fault: &AccessFault) -> Option<Line>
    ensures line { IfSome result (λ line. line ≡ access_fault_line fault.now) }
    ensures told { IfSome result (λ line. fault.now ≢ why.NoMemory) }
    ensures none { IfNone result (fault.now ≡ why.NoMemory) }
{
    match fault {
        AccessFault::BadLine { card } => Some(card_line(*card, b": BAD LINE")),
        AccessFault::Twice { card } => Some(card_line(*card, b": DECLARED TWICE")),
        AccessFault::TooMany { card } => Some(card_line(*card, b": TOO MANY")),
        AccessFault::Unknown { card } => Some(card_line(*card, b": UNKNOWN NAME")),
        AccessFault::Again { card } => Some(card_line(*card, b": ORDERED TWICE")),
        AccessFault::Missing { monitor } => Some(missing_line(monitor)),
        AccessFault::Backward { holder, monitor } => Some(backward_line(holder, monitor)),
        AccessFault::NoMemory => None,
    }
}

fn accepted_line(accepted: &Accepted) -> Line
    ensures { result ≡ accepted_line accepted.now }
{
    let mut line = Line::new();
    line.append(b"ACCEPTED ");
    append_count(&mut line, u64::from(accepted.monitors));
    line.append(b" MONITORS, ");
    append_count(&mut line, u64::from(accepted.processes));
    line.append(b" PROCESSES");
    line
}

fn card_line(card: u32, words: &[u8]) -> Line
    requires short { length words.now ≤ 20 }
    requires printable { IsTrue (list_all is_printable words.now) }
    ensures { result ≡ card_line card words.now }
{
    let mut line = Line::new();
    line.append(b"CARD ");
    append_count(&mut line, u64::from(card));
    line.append(words);
    line
}

fn missing_line(monitor: &Ident) -> Line
    ensures { result ≡ access_fault_line (why.Missing monitor.now) }
{
    let mut line = Line::new();
    line.append(b"NOT ORDERED: ");
    line.append(monitor.name());
    line
}

fn backward_line(holder: &Ident, monitor: &Ident) -> Line
    ensures { result ≡ access_fault_line (why.Backward holder.now monitor.now) }
{
    let mut line = Line::new();
    line.append(b"RIGHT OF ");
    line.append(holder.name());
    line.append(b" TO ");
    line.append(monitor.name());
    line.append(b" IS BACKWARD");
    line
}
