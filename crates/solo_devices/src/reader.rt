ghost use Rattle.std.specs.Prelude.{◌≡◌, ◌≢◌, ◌↔◌, ◌+◌, ◌<◌, ◌≤◌, ℕ, List, [], ◌∷◌, ◌++◌, length, false};
ghost use Rattle.solo_base.specs.Card.{cards};
ghost use Rattle.solo_devices.specs.Source.{CountsFaults};
ghost use Rattle.solo_devices.specs.CardUnit.{IsPartial, byte_limit, item_of};

use crate::pending::{KEPT_LENGTH, PIECE_LENGTH, Pending};
use crate::{CardRead, Source, Took};
use solo_base::Item;

/// How many bytes are taken before a deck is too long.
pub const BYTE_LIMIT: u32 = 16_777_216;

/// Reads the items of a source one after another.
#[derive(Debug, Drop)]
pub struct Reader<S> {
    pub source: S,
    pub pending: Pending,
    pub taken: u32,
    pub ended: bool,
}

impl<S: Source> Reader<S> {
    ghost use Rattle.solo_devices.specs.Reader.{IsReader, IsRead, Refills};

    /// The next item, or why there is none. It takes from the source until a line is whole.
    pub fn next(&mut self) -> CardRead
        requires reader { IsReader S.left S.taken self.old }
        requires within { self.old.taken ≤ byte_limit }
        ensures { IsRead S.left S.taken S.faults self.old self.new result }
    {
        'reading: loop {
            if let Some(item) = self.pending.next_line() {
                return answer(item);
            }
            if self.ended {
                return last(&mut self.pending);
            }
            match self.refill() {
                Took::Failed => return CardRead::Failed,
                Took::Bytes(_) => {
                    if self.taken > BYTE_LIMIT {
                        return CardRead::Limit;
                    }
                }
            }
        }
    }

    /// Takes a piece from the source.
    fn refill(&mut self) -> Took
        requires reader { IsReader S.left S.taken self.old }
        requires within { self.old.taken ≤ byte_limit }
        requires partial { IsPartial self.old.pending }
        requires going { self.old.ended ≡ false }
        ensures refills { Refills S.left S.taken S.faults self.old self.new result }
        ensures most { S.taken self.new.source ≤ S.taken self.old.source + 512 }
    {
        let mut piece = [0; PIECE_LENGTH];
        let took = self.source.take(&mut piece);
        if let Took::Bytes(count) = took {
            self.pending = Pending::with_more(kept(self.pending.bytes()), &piece[..count]);
            self.taken += count as u32;
            self.ended = count == 0;
        }
        took
    }
}

/// What is left where the source has ended.
fn last(pending: &mut Pending) -> CardRead
    requires { IsPartial pending.old }
    ensures items { cards pending.old ≡ item_of result }
    ensures taken { pending.new ≡ [] }
    ensures end { (result ≡ CardRead.End) ↔ (pending.old ≡ []) }
    ensures failed { result ≢ CardRead.Failed }
    ensures limit { result ≢ CardRead.Limit }
{
    match pending.last_line() {
        Some(item) => answer(item),
        None => CardRead::End,
    }
}

/// The item as an answer.
fn answer(item: Item) -> CardRead
    ensures { item_of result ≡ item ∷ [] }
{
    match item {
        Item::Line(card) => CardRead::Card(card),
        Item::Spoiled => CardRead::Spoiled,
    }
}

/// As much of a line without its end as decides what it is, whatever comes behind it.
fn kept(line: &[u8]) -> &[u8]
    requires { IsPartial line.now }
    ensures same { (more : List ℕ) → cards (result.now ++ more) ≡ cards (line.now ++ more) }
    ensures short { length result.now ≤ KEPT_LENGTH }
    ensures part { length result.now ≤ length line.now }
{
    if line.len() > KEPT_LENGTH {
        &line[..KEPT_LENGTH]
    } else {
        line
    }
}
