// The lines of the console.
ghost use Rattle.std.specs.Prelude.{◌≡◌, ◌++◌, codes};
ghost use Rattle.std.specs.Fmt.{decimal};
ghost use Rattle.solo_base.specs.Blanks.{trimmed};
ghost use Rattle.real_time.specs.Starts.{start_line};
ghost use Rattle.real_time.specs.Answers.{name_text, start_text, stop_text};

use crate::{Named, Planned};
use solo_base::{Ident, Line};

/// `2 A`, of a task that starts in a second.
pub fn start_line(second: u32, name: &Ident) -> Line
    ensures { result ≡ start_line second name.now }
{
    let mut line = Line::new();
    line.append_number(second);
    line.append(b" ");
    line.append(name.name());
    line
}

/// `TIME 6`, of the second that has passed last.
pub fn time_line(second: u32) -> Line
    ensures { result ≡ codes "TIME " ++ decimal second }
{
    let mut line = Line::new();
    line.append(b"TIME ");
    line.append_number(second);
    line
}

/// `A: 2 RUNS`, of a task and how often it has started.
pub fn runs_line(name: &Ident, runs: u32) -> Line
    ensures { result ≡ trimmed name.now ++ codes ": " ++ decimal runs ++ codes " RUNS" }
{
    let mut line = Line::new();
    line.append(name.name());
    line.append(b": ");
    line.append_number(runs);
    line.append(b" RUNS");
    line
}

/// What TASK answers, as a line.
pub fn name_line(answer: Named) -> Line
    ensures { result ≡ name_text answer }
{
    let mut line = Line::new();
    match answer {
        Named::TaskExists => line.append(b"TASK: TASK EXISTS"),
        Named::TableFull => line.append(b"TASK: TABLE FULL"),
        Named::Done => line.append(b"TASK: OK"),
    }
    line
}

/// What START answers, as a line.
pub fn plan_line(answer: Planned) -> Line
    ensures { result ≡ start_text answer }
{
    let mut line = Line::new();
    match answer {
        Planned::NoTask => line.append(b"START: NO TASK"),
        Planned::TimeIsPast => line.append(b"START: TIME IS PAST"),
        Planned::Done => line.append(b"START: OK"),
    }
    line
}

/// What STOP answers, as a line.
pub fn stop_line(answer: Planned) -> Line
    ensures { result ≡ stop_text answer }
{
    let mut line = Line::new();
    match answer {
        Planned::NoTask => line.append(b"STOP: NO TASK"),
        Planned::TimeIsPast => line.append(b"STOP: TIME IS PAST"),
        Planned::Done => line.append(b"STOP: OK"),
    }
    line
}
