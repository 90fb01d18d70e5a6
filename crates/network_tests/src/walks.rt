// Walks a process from its beginning to its end, for tests.

use batch_procs::{Action, Lent, Machine, Reply, Work};
use deck_work::DeckWork;
use disk_system::Loaded;
use page_codec::Packer;
use solo_base::{Cause, Feed, Item, Line, Outcome, Page};
use solo_devices::CardRead;
use std::alloc::Global;
use std::test::Fail;

/// What goes wrong, and at which action, counted from 0.
#[derive(Clone, Copy)]
pub enum Trouble {
    None,
    Stop(usize),
    Failure(usize),
    Refusal(usize),
    Unread(usize),
}

/// The text of an outcome.
fn outcome_text(outcome: Outcome) -> &'static [u8] {
    match outcome {
        Outcome::Done => b"Done",
        Outcome::Stopped => b"Stopped",
        Outcome::Fault(Cause::ReadFault) => b"ReadFault",
        Outcome::Fault(Cause::DiskFault) => b"DiskFault",
        Outcome::Fault(Cause::PrintFault) => b"PrintFault",
        Outcome::Fault(Cause::DeckLimit) => b"DeckLimit",
        Outcome::Fault(
            Cause::Damaged {
                expected: 0,
                found: 0,
                at: 2,
            },
        ) => b"Damaged 0 0 2",
        Outcome::Fault(Cause::NoMemory) => b"NoMemory",
        _ => b"another outcome",
    }
}

fn put_feed(text: &mut Vec<u8>, feed: &Feed) -> Result<(), Fail> {
    text.extend_from_slice(b"PutFeed ")?;
    match feed {
        Feed::Item(Item::Line(line)) => text.extend_from_slice(line.bytes())?,
        Feed::Item(Item::Spoiled) => text.extend_from_slice(b"spoiled")?,
        Feed::End => text.extend_from_slice(b"end")?,
    }
    Ok(())
}

/// The place of a page in its stream, the bytes of its items, and whether it is the last.
fn put_page(text: &mut Vec<u8>, page: &Page) -> Result<(), Fail> {
    text.extend_from_slice(b"PutPage ")?;
    text.push(b'0' + page.0[1] % 10)?;
    text.push(b' ')?;
    let length = u16::from_be_bytes([page.0[4], page.0[5]]);
    text.push(b'0' + (length / 100 % 10) as u8)?;
    text.push(b'0' + (length / 10 % 10) as u8)?;
    text.push(b'0' + (length % 10) as u8)?;
    if page.last() {
        text.extend_from_slice(b" last")?;
    }
    Ok(())
}

/// Writes an action, with a bar behind it.
pub fn put_action(text: &mut Vec<u8>, action: &Action<'_>) -> Result<(), Fail> {
    match action {
        Action::ReadCard => text.extend_from_slice(b"ReadCard")?,
        Action::PutFeed(feed) => put_feed(text, feed.get())?,
        Action::TakeFeed => text.extend_from_slice(b"TakeFeed")?,
        Action::AwaitRoom => text.extend_from_slice(b"AwaitRoom")?,
        Action::AwaitItem => text.extend_from_slice(b"AwaitItem")?,
        Action::Request => text.extend_from_slice(b"Request")?,
        Action::PutPage(page) => put_page(text, page.get())?,
        Action::TakePage => text.extend_from_slice(b"TakePage")?,
        Action::Release => text.extend_from_slice(b"Release")?,
        Action::Load(file) => {
            text.extend_from_slice(b"Load ")?;
            text.extend_from_slice(file.name())?;
        }
        Action::Local => text.extend_from_slice(b"Local")?,
        Action::Print(line) => {
            text.extend_from_slice(b"Print ")?;
            text.extend_from_slice(line.get().bytes())?;
        }
        Action::Stop(buffer) => {
            text.extend_from_slice(b"Stop ")?;
            text.push(b'0' + *buffer % 10)?;
        }
        Action::Ended(outcome) => {
            text.extend_from_slice(b"Ended ")?;
            text.extend_from_slice(outcome_text(*outcome))?;
        }
    }
    text.push(b'|')?;
    Ok(())
}

/// What a process takes: cards, and the pages that hold them.
#[derive(Drop)]
struct Supply<'a> {
    cards: &'a [&'a [u8]],
    pages: Vec<Page>,
}

/// The pages of a stream of these cards.
fn pages_of(alloc: Global, cards: &[&[u8]]) -> Result<Vec<Page>, Fail> {
    let mut packer = Packer::new();
    let mut pages = Vec::new(alloc);
    for card in cards {
        let line = Line::of(card).ok_or("a card")?;
        if let Some(page) = packer.push(&Item::Line(line)) {
            pages.push(page)?;
        }
    }
    pages.push(packer.finish())?;
    Ok(pages)
}

impl Supply<'_> {
    fn card(&self, place: usize) -> CardRead {
        match self.cards.get(place) {
            Some(card) => match Line::of(card) {
                Some(line) => CardRead::Card(line),
                None => CardRead::Spoiled,
            },
            None => CardRead::End,
        }
    }

    fn feed(&self, place: usize) -> Feed {
        match self.card(place) {
            CardRead::Card(line) => Feed::Item(Item::Line(line)),
            CardRead::Spoiled => Feed::Item(Item::Spoiled),
            _ => Feed::End,
        }
    }

    fn page(&self, place: usize) -> Reply<'_, Loaded> {
        match self.pages.as_slice().get(place) {
            Some(page) => Reply::Page {
                page: Lent::of(page),
                last: page.last(),
            },
            None => Reply::Failed,
        }
    }

    /// The reply to an action that succeeds, behind so many things that were taken.
    fn reply_to<'s>(&'s self, action: &Action<'_>, taken: usize) -> Reply<'s, Loaded> {
        match action {
            Action::ReadCard => Reply::Card(self.card(taken)),
            Action::TakeFeed => Reply::Feed(self.feed(taken)),
            Action::TakePage => self.page(taken),
            Action::Load(_) => Reply::Loaded(Loaded::NoFile),
            _ => Reply::Done,
        }
    }
}

/// The reply that goes wrong at the action of this number.
fn trouble_at<'a>(trouble: Trouble, number: usize) -> Option<Reply<'a, Loaded>> {
    match trouble {
        Trouble::Stop(at) if at == number => Some(Reply::Stopped),
        Trouble::Failure(at) if at == number => Some(Reply::Failed),
        Trouble::Refusal(at) if at == number => Some(Reply::NoMemory),
        Trouble::Unread(at) if at == number => Some(Reply::Card(CardRead::Failed)),
        _ => None,
    }
}

/// The first row of a table by which a process that takes these cards, or the pages of them, doesn't do
/// what is wanted up to its end.
pub fn first_other<W: Work<DeckWork> + Drop>(
    alloc: Global,
    cards: &[&[u8]],
    rows: &[(Trouble, &str)],
) -> Result<Option<usize>, Fail> {
    for row in 0..rows.len() {
        let (trouble, want) = rows[row];
        let supply = Supply {
            cards,
            pages: pages_of(alloc, cards)?,
        };
        let text = actions_over::<W>(alloc, supply, trouble)?;
        if text.as_slice() != want.as_bytes() {
            return Ok(Some(row));
        }
    }
    Ok(None)
}

/// All actions of a process that takes a listing of two pages.
pub fn listing_actions<W: Work<DeckWork> + Drop>(
    alloc: Global,
    columns: usize,
) -> Result<Vec<u8>, Fail> {
    let supply = Supply {
        cards: &[],
        pages: listing(alloc, columns)?,
    };
    actions_over::<W>(alloc, supply, Trouble::None)
}

/// The reply to the action of this number, behind so many things that were taken.
fn reply_at<'s>(
    supply: &'s Supply<'_>,
    trouble: Trouble,
    number: usize,
    action: &Action<'_>,
    taken: usize,
) -> Reply<'s, Loaded> {
    match trouble_at(trouble, number) {
        Some(reply) => reply,
        None => supply.reply_to(action, taken),
    }
}

/// Whether an action takes one of the things that there are.
fn takes_one(action: &Action<'_>) -> bool {
    matches!(
        action,
        Action::ReadCard | Action::TakeFeed | Action::TakePage
    )
}

fn actions_over<W: Work<DeckWork> + Drop>(
    alloc: Global,
    supply: Supply,
    trouble: Trouble,
) -> Result<Vec<u8>, Fail> {
    let mut machine = Machine::<DeckWork, W>::new(alloc);
    let mut text = Vec::new(alloc);
    let mut taken = 0usize;
    for number in 0..60 {
        let action = machine.next();
        put_action(&mut text, &action)?;
        let (takes, ends) = (takes_one(&action), matches!(action, Action::Ended(_)));
        let reply = reply_at(&supply, trouble, number, &action, taken);
        machine.give(reply)?;
        if takes {
            taken = taken.saturating_add(1);
        }
        if ends {
            break;
        }
    }
    Ok(text)
}

/// The pages of a listing of six cards of 80 columns and one of so many.
fn listing(alloc: Global, columns: usize) -> Result<Vec<Page>, Fail> {
    let mut packer = Packer::new();
    let mut pages = Vec::new(alloc);
    let heading = Line::of(b"#LIST A").ok_or("a card")?;
    let _ = packer.push(&Item::Line(heading));
    for place in 0..7 {
        let length = if place < 6 { 80 } else { columns };
        let card = b"A".repeat(alloc, length)?;
        let card = Line::of(card.as_slice()).ok_or("a card")?;
        if let Some(page) = packer.push(&Item::Line(card)) {
            pages.push(page)?;
        }
    }
    pages.push(packer.finish())?;
    Ok(pages)
}
