//! A command that runs a program, from need to need.

ghost use Rattle.std.specs.Prelude.{IfSome};
ghost use Rattle.program_run.specs.Sight.{MayTake};
ghost use Rattle.program_run.specs.Work.{kind_of};
ghost use Rattle.solo_procs.specs.Commands.{AtNothing};

use crate::made_files::{Stored, add_programs, blank_files, name};
use crate::made_programs::Step::{Accept, Display, Pass, Read, Run, Write, WriteLine};
use disk_files::FileArea;
use program_run::{Begun, ProgramRun, Progress};
use solo_base::{ArgList, Feed, Item, Line, LineList};
use solo_devices::SureArea;
use solo_procs::Need;
use solo_work::{Paper, Printing};
use std::alloc::Global;
use std::process::Abort;

fn tell(rt: &impl Abort, text: &mut String, part: &str) {
    text.push_str(part).ok().expect(rt, "ample memory");
}

// A line, with a semicolon behind it.
fn tell_line(rt: &impl Abort, text: &mut String, line: &Line) {
    let shown = str::from_utf8(line.bytes()).ok().expect(rt, "a text");
    tell(rt, text, shown);
    tell(rt, text, ";");
}

fn tell_lines(rt: &impl Abort, text: &mut String, lines: &LineList) {
    for place in 0..lines.len() {
        tell_line(rt, text, &lines.get(place));
    }
}

fn line(rt: &impl Abort, letters: &str) -> Line {
    Line::of(letters.as_bytes()).expect(rt, "a line")
}

// Gives the program what it needs: the card AB, of a card file with a spoiled card, or the line C. `None`
// where it can't be given anything.
fn give(
    rt: &impl Abort,
    alloc: Global,
    program: &mut ProgramRun,
    need: &Need,
    text: &mut String,
) -> Option<()>
    requires { MayTake (kind_of need.now) program.old }
    ensures { IfSome result (λ _. MayTake AtNothing program.new) }
{
    match need {
        Need::Cards => {
            tell(rt, text, "cards;");
            let mut cards = LineList::new(alloc);
            cards.push(&line(rt, "AB")).ok().expect(rt, "ample memory");
            program.take_cards(alloc, &cards, true).ok()
        }
        Need::Line => {
            tell(rt, text, "line;");
            let typed = Feed::Item(Item::Line(line(rt, "C")));
            program.take_line(alloc, &typed).ok()
        }
        Need::Display(shown) => {
            tell(rt, text, "display ");
            tell_line(rt, text, shown);
            Some(())
        }
        Need::Page(_) => {
            tell(rt, text, "page;");
            Some(())
        }
        Need::End { .. } => None,
    }
}

// What is still printed, and what answers.
fn tell_end(rt: &impl Abort, text: &mut String, printing: &Printing) {
    tell(rt, text, "prints ");
    tell_lines(rt, text, &printing.lines);
    tell(rt, text, "answers ");
    tell_lines(rt, text, &printing.answers);
}

// One piece of work. `None` where it was the last.
fn work(
    rt: &impl Abort,
    alloc: Global,
    program: &mut ProgramRun,
    paper: &mut Paper,
    files: &mut FileArea<SureArea>,
    text: &mut String,
) -> Option<()>
    requires { MayTake AtNothing program.old }
    ensures { IfSome result (λ _. MayTake AtNothing program.new) }
{
    assert!(rt; files.sound());
    match program.go_on(alloc, paper, files) {
        Ok(Progress::Needs(need)) => give(rt, alloc, program, &need, text),
        Ok(Progress::Ends(printing)) => {
            tell_end(rt, text, &printing);
            None
        }
        Err(_) => None,
    }
}

// Works as long as the program goes on, for 100 pieces of work.
fn run(
    rt: &impl Abort,
    alloc: Global,
    program: &mut ProgramRun,
    files: &mut FileArea<SureArea>,
    text: &mut String,
)
    requires { MayTake AtNothing program.old }
{
    let mut paper = Paper::new();
    for _ in 0..100 {
        let Some(()) = work(rt, alloc, program, &mut paper, files, text) else {
            return;
        };
    }
}

// What is told of a command that runs this program.
fn told_of(
    rt: &impl Abort,
    alloc: Global,
    files: &mut FileArea<SureArea>,
    letters: &str,
) -> String {
    let mut text = String::new(alloc);
    assert!(rt; files.sound());
    match ProgramRun::begin(alloc, name(rt, letters), ArgList::new(), files) {
        Ok(Begun::Runs(mut program)) => run(rt, alloc, &mut program, files, &mut text),
        Ok(Begun::Answer(line)) => tell_line(rt, &mut text, &line),
        Err(_) => {}
    }
    text
}

const PROGRAMS: [Stored; 4] = [
    (
        "DEVICES",
        &[
            Read,
            WriteLine,
            Write(32),
            Read,
            WriteLine,
            Write(32),
            Read,
            WriteLine,
            Write(32),
            Read,
            WriteLine,
            Write(10),
            Accept,
            WriteLine,
            Write(32),
            Accept,
            WriteLine,
            Write(32),
            Accept,
            WriteLine,
            Display(68),
            Display(10),
            Display(70),
        ],
    ),
    ("LONG", &[Write(65); 532]),
    ("CALLED", &[Accept, Accept, Accept, WriteLine]),
    (
        "CALLS",
        &[
            Accept,
            Run("CALLED"),
            Accept,
            WriteLine,
            Run("NOTHING"),
            WriteLine,
        ],
    ),
];

const ROWS: [(&str, &str); 4] = [
    // the card is read to its end and past it; both lines that are accepted, and what is displayed
    (
        "DEVICES",
        "cards;line;line;display D;prints 67 10 67;answers F;DEVICES: TERMINATED;DEVICES: SPOILED CARD;",
    ),
    // four lines of 132 are complete, and the fourth has no room behind the others
    ("LONG", "page;prints AAAA;answers LONG: TERMINATED;"),
    // what is left of a typed line is shared
    (
        "CALLS",
        "line;line;line;prints 10670;answers CALLS: TERMINATED;",
    ),
    ("NOTHING", "NOTHING: NO FILE;"),
];

#[test]
fn needs_come_in_turn(rt: HostRuntime) {
    let mut files = blank_files(&rt, rt.alloc());
    add_programs(&rt, rt.alloc(), &mut files, &PROGRAMS).expect(&rt, "the programs");
    for (letters, wanted) in &ROWS {
        let told = told_of(&rt, rt.alloc(), &mut files, letters);
        assert!(rt; told.as_str() == *wanted, "{told}\nin place of\n{wanted}");
    }
}
