use crate::deed::Deed;
use crate::event::Told;
use solo_base::{Cause, Feed, Ident, Item, Line, Outcome, ProcNo};
use std::alloc::AllocError;

/// How many characters of a card or a line are shown.
const SHOWN: usize = 10;

/// The name of a process.
pub fn name_of(process: ProcNo) -> &'static str {
    match process {
        1 => "card",
        2 => "input",
        3 => "job",
        4 => "output",
        _ => "printer",
    }
}

/// Writes what a line buffer hands over.
pub fn write_feed(text: &mut String, feed: &Feed) -> Result<(), AllocError> {
    match feed {
        Feed::Item(Item::Line(line)) => write_line(text, line),
        Feed::Item(Item::Spoiled) => text.push_str("(spoiled)"),
        Feed::End => text.push_str("(end)"),
    }
}

/// Writes the first characters of a line.
fn write_line(text: &mut String, line: &Line) -> Result<(), AllocError> {
    if line.is_empty() {
        return text.push_str("(blank)");
    }
    for byte in line.bytes().iter().take(SHOWN) {
        text.push(char::from(*byte))?;
    }
    if line.len() > SHOWN {
        return text.push_str("..");
    }
    Ok(())
}

/// Writes the characters of a name.
pub fn write_name(text: &mut String, name: &Ident) -> Result<(), AllocError> {
    for byte in name.name() {
        text.push(char::from(*byte))?;
    }
    Ok(())
}

/// Writes what a process does.
pub fn write_deed(text: &mut String, deed: &Deed) -> Result<(), AllocError> {
    text.push_str(words_of(deed))?;
    match deed {
        Deed::PutFeed(feed) => write_feed(text, feed),
        Deed::Load(file) => write_name(text, file),
        Deed::Print(line) => write_line(text, line),
        Deed::Stop(buffer) => write!(text, "{buffer}"),
        _ => Ok(()),
    }
}

/// The words of what a process does, in front of what it does it with.
fn words_of(deed: &Deed) -> &'static str {
    match deed {
        Deed::ReadCard => "reads a card",
        Deed::PutFeed(_) => "puts ",
        Deed::TakeFeed => "takes",
        Deed::AwaitRoom => "awaits room",
        Deed::AwaitItem => "awaits a page",
        Deed::Request => "requests the disk",
        Deed::PutPage { last: true } => "puts the last page",
        Deed::PutPage { .. } => "puts a page",
        Deed::TakePage => "takes a page",
        Deed::Load(_) => "loads ",
        Deed::Release => "releases the disk",
        Deed::Local => "works",
        Deed::Print(_) => "prints ",
        Deed::Stop(_) => "stops buffer ",
        Deed::Ended(_) => "ends",
    }
}

/// Writes what came of an action.
pub fn write_told(text: &mut String, told: &Told) -> Result<(), AllocError> {
    match told {
        Told::Waits => text.push_str("waits"),
        Told::Done => text.push_str("done"),
        Told::Fed(feed) => write_feed(text, feed),
        Told::Closes(outcome) | Told::Ends(outcome) => text.push_str(outcome_of(*outcome)),
    }
}

/// The words of an outcome.
pub fn outcome_of(outcome: Outcome) -> &'static str {
    match outcome {
        Outcome::Done => "done",
        Outcome::Stopped => "stopped",
        Outcome::Fault(Cause::ReadFault) => "read fault",
        Outcome::Fault(Cause::DiskFault) => "disk fault",
        Outcome::Fault(Cause::PrintFault) => "print fault",
        Outcome::Fault(Cause::DeckLimit) => "deck limit",
        Outcome::Fault(Cause::Damaged { .. }) => "damaged page",
        Outcome::Fault(_) => "no memory",
    }
}
