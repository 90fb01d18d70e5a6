// Drives a process by a script of replies, and writes what it does.

use page_codec::Packer;
use solo_base::{Arg, Cause, Ident, Item, Line, NoMemory, Outcome, Page};
use solo_devices::CardRead;
use solo_procs::{Machine, Proc, SoloAction, SoloReply};
use std::alloc::Global;

/// The text of an outcome.
fn outcome_text(outcome: Outcome) -> &'static [u8] {
    match outcome {
        Outcome::Done => b"Done",
        Outcome::Stopped => b"Stopped",
        Outcome::Fault(Cause::ReadFault) => b"ReadFault",
        Outcome::Fault(Cause::DiskFault) => b"DiskFault",
        Outcome::Fault(Cause::PrintFault) => b"PrintFault",
        Outcome::Fault(Cause::ConsoleFault) => b"ConsoleFault",
        Outcome::Fault(Cause::DeckLimit) => b"DeckLimit",
        Outcome::Fault(Cause::NoMemory) => b"NoMemory",
        Outcome::Fault(Cause::Damaged { .. }) => b"Damaged",
        Outcome::Fault(_) => b"another fault",
    }
}

fn put_arg(text: &mut Vec<u8>, arg: &Arg) -> Result<(), NoMemory> {
    match arg {
        Arg::Nil => text.extend_from_slice(b"nil")?,
        Arg::Bool(true) => text.extend_from_slice(b"true")?,
        Arg::Bool(false) => text.extend_from_slice(b"false")?,
        Arg::Int(_) => text.extend_from_slice(b"a number")?,
        Arg::Id(name) => text.extend_from_slice(name.name())?,
    }
    Ok(())
}

/// The place of a page in its stream, the bytes of its items, and whether it is the last.
fn put_page(text: &mut Vec<u8>, page: &Page) -> Result<(), NoMemory> {
    let length = u16::from_be_bytes([page.0[4], page.0[5]]);
    text.push(b'0' + page.0[1] % 10)?;
    text.push(b' ')?;
    text.push(b'0' + (length / 100 % 10) as u8)?;
    text.push(b'0' + (length / 10 % 10) as u8)?;
    text.push(b'0' + (length % 10) as u8)?;
    if page.last() {
        text.extend_from_slice(b" last")?;
    }
    Ok(())
}

/// A word, and the number of a buffer.
fn put_at(text: &mut Vec<u8>, word: &[u8], buffer: u8) -> Result<(), NoMemory> {
    text.extend_from_slice(word)?;
    text.push(b'0' + buffer % 10)?;
    Ok(())
}

/// Writes an action, with a bar behind it.
fn put_action(text: &mut Vec<u8>, action: &SoloAction) -> Result<(), NoMemory> {
    match action {
        SoloAction::Accept => text.extend_from_slice(b"Accept")?,
        SoloAction::Display(line) => {
            text.extend_from_slice(b"Display ")?;
            text.extend_from_slice(line.bytes())?;
        }
        SoloAction::ReadCard => text.extend_from_slice(b"ReadCard")?,
        SoloAction::Print(line) => {
            text.extend_from_slice(b"Print ")?;
            text.extend_from_slice(line.bytes())?;
        }
        SoloAction::PutArg { buffer, arg } => {
            put_at(text, b"PutArg ", *buffer)?;
            text.push(b' ')?;
            put_arg(text, arg)?;
        }
        SoloAction::TakeArg(buffer) => put_at(text, b"TakeArg ", *buffer)?,
        SoloAction::PutPage { buffer, page } => {
            put_at(text, b"PutPage ", *buffer)?;
            text.push(b' ')?;
            put_page(text, page)?;
        }
        SoloAction::TakePage(buffer) => put_at(text, b"TakePage ", *buffer)?,
        SoloAction::Work => text.extend_from_slice(b"Work")?,
        SoloAction::Stop(buffer) => put_at(text, b"Stop ", *buffer)?,
        SoloAction::Ended(outcome) => {
            text.extend_from_slice(b"Ended ")?;
            text.extend_from_slice(outcome_text(*outcome))?;
        }
    }
    text.push(b'|')?;
    Ok(())
}

/// The last page of a stream with one line.
fn last_page(line: &[u8]) -> Option<Page> {
    let mut packer = Packer::new();
    if let Some(page) = packer.push(&Item::Line(Line::of(line)?)) {
        return Some(page);
    }
    Some(packer.finish())
}

/// The first page of a stream whose next line has no room on it.
fn full_page() -> Option<Page> {
    let mut packer = Packer::new();
    for _ in 0..5 {
        if let Some(page) = packer.push(&Item::Line(Line::of(&[b'x'; 120])?)) {
            return Some(page);
        }
    }
    None
}

/// A reply by its word: a card behind `=`, a last page with one line behind `*`, a name behind `:`.
fn reply_of(word: &str) -> Option<SoloReply> {
    match word.as_bytes() {
        [b'=', card @ ..] => Some(SoloReply::Card(CardRead::Card(Line::of(card)?))),
        [b'*', line @ ..] => Some(SoloReply::Page(last_page(line)?)),
        [b':', name @ ..] => Some(SoloReply::Arg(Arg::Id(Ident::of(name)?))),
        _ => plain_reply(word),
    }
}

fn plain_reply(word: &str) -> Option<SoloReply> {
    if word == "done" {
        return Some(SoloReply::Done);
    }
    if word == "stopped" {
        return Some(SoloReply::Stopped);
    }
    if word == "failed" {
        return Some(SoloReply::Failed);
    }
    if word == "lacking" {
        return Some(SoloReply::NoMemory);
    }
    if word == "full" {
        return Some(SoloReply::Page(full_page()?));
    }
    if word == "zeros" {
        return Some(SoloReply::Page(Page::zeros()));
    }
    read_reply(word)
}

fn read_reply(word: &str) -> Option<SoloReply> {
    if word == "end" {
        return Some(SoloReply::Card(CardRead::End));
    }
    if word == "spoiled" {
        return Some(SoloReply::Card(CardRead::Spoiled));
    }
    if word == "unread" {
        return Some(SoloReply::Card(CardRead::Failed));
    }
    if word == "limit" {
        return Some(SoloReply::Card(CardRead::Limit));
    }
    if word == "nil" {
        return Some(SoloReply::Arg(Arg::Nil));
    }
    if word == "true" {
        return Some(SoloReply::Arg(Arg::Bool(true)));
    }
    if word == "false" {
        return Some(SoloReply::Arg(Arg::Bool(false)));
    }
    None
}

/// Writes what is next and gives the reply of this word.
fn give<P: Proc>(machine: &mut Machine<P>, text: &mut Vec<u8>, word: &str) -> Option<()> {
    put_action(text, &machine.next()).ok()?;
    machine.give(reply_of(word)?).ok()
}

/// Whether a process does this by these replies, each behind its action; the last action has none.
pub fn does<P: Proc + Drop>(alloc: Global, replies: &[&str], want: &str) -> Option<bool> {
    let mut machine = Machine::<P>::new(alloc);
    let mut text = Vec::new(alloc);
    for word in replies {
        give(&mut machine, &mut text, word)?;
    }
    put_action(&mut text, &machine.next()).ok()?;
    Some(text.as_slice() == want.as_bytes())
}
