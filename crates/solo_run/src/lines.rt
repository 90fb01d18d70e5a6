ghost use Rattle.std.specs.Prelude.{◌≡◌, true};
ghost use Rattle.solo_law.specs.Replies.{IsLineRead};
ghost use Rattle.solo_run.specs.Devices.{GivesLine, ReadsOne, answered};

use solo_base::Line;
use solo_devices::{CardRead, CardUnit, PrintFault, PrinterUnit, Sink, Source, Typewriter};
use solo_procs::SoloReply;

/// Reads a card.
pub(crate) fn read<S: Source>(deck: &mut CardUnit<S>) -> CardRead
    requires live { deck.old.live ≡ true }
    ensures { ReadsOne S.left S.taken S.faults deck.old deck.new result }
{
    let answer = deck.read();
    is_line(&answer);
    answer
}

/// Accepts a typed line.
pub(crate) fn accept<Y: Source, T: Sink>(typewriter: &mut Typewriter<Y, T>) -> CardRead
    requires live { typewriter.old.keys.live ≡ true }
    ensures line { ReadsOne Y.left Y.taken Y.faults typewriter.old.keys typewriter.new.keys result }
    ensures console { typewriter.new.console ≡ typewriter.old.console }
{
    let answer = typewriter.accept();
    is_line(&answer);
    answer
}

// What is read is a line. Nothing is done here: the contract tells it of the line.
fn is_line(answer: &CardRead)
    ensures { IsLineRead answer.now }
{
    match answer {
        CardRead::Card(line) => {
            let _ = line.bytes();
        }
        CardRead::Spoiled => {}
        CardRead::End => {}
        CardRead::Failed => {}
        CardRead::Limit => {}
    }
}

/// Prints a line.
pub(crate) fn print<K: Sink>(paper: &mut PrinterUnit<K>, line: &Line) -> SoloReply
    requires live { paper.old.live ≡ true }
    ensures { GivesLine K.given K.faults paper.old paper.new line.now result }
{
    answered(paper.print(line))
}

/// Displays a line.
pub(crate) fn display<Y: Source, T: Sink>(
    typewriter: &mut Typewriter<Y, T>,
    line: &Line,
) -> SoloReply
    requires live { typewriter.old.console.live ≡ true }
    ensures line { GivesLine T.given T.faults typewriter.old.console typewriter.new.console line.now result }
    ensures keys { typewriter.new.keys ≡ typewriter.old.keys }
{
    answered(typewriter.display(line))
}

// What a line that was given or wasn't is answered.
fn answered(given: Result<(), PrintFault>) -> SoloReply
    ensures { result ≡ answered given }
{
    match given {
        Ok(()) => SoloReply::Done,
        Err(PrintFault::Failed) => SoloReply::Failed,
        Err(PrintFault::NoMemory) => SoloReply::NoMemory,
    }
}
