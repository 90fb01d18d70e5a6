ghost use Rattle.std.specs.Prelude.{◌≡◌, ◌≤◌, length, IsTrue};
ghost use Rattle.std.specs.List.{list_all};
ghost use Rattle.solo_base.specs.Line.{is_printable};
ghost use Rattle.time_net.specs.Standing.{answer_text};

use real_time::{Named, Planned, name_line, plan_line, stop_line, time_line};
use solo_base::Line;

/// What the operator displays of a typed line that is done.
#[derive(Clone, Copy, Debug)]
pub enum Answer {
    /// What TASK, START and STOP answer.
    Names(Named),
    Plans(Planned),
    Stops(Planned),
    /// The second that has passed last.
    Time(u32),
    /// So many seconds can't pass any more.
    ClockLimit,
    /// The line is spoiled, or of no known form.
    Bad,
}

/// The line of an answer.
pub fn answer_line(answer: Answer) -> Line
    ensures { result ≡ answer_text answer }
{
    match answer {
        Answer::Names(named) => name_line(named),
        Answer::Plans(planned) => plan_line(planned),
        Answer::Stops(planned) => stop_line(planned),
        Answer::Time(second) => time_line(second),
        Answer::ClockLimit => literal(b"TICK: CLOCK LIMIT"),
        Answer::Bad => literal(b"BAD COMMAND"),
    }
}

// A line of these characters.
fn literal(bytes: &[u8]) -> Line
    requires short { length bytes.now ≤ 132 }
    requires printable { IsTrue (list_all is_printable bytes.now) }
    ensures { result ≡ bytes.now }
{
    let mut line = Line::new();
    line.append(bytes);
    line
}
