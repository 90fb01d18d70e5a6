ghost use Rattle.std.specs.Prelude.{◌≡◌, ◌≢◌, ◌+◌, ◌<◌, ◌≤◌, ◌↔◌, ℕ, List, [], ◌++◌, length, true};
ghost use Rattle.solo_base.specs.declared.item.Item.{Item};
ghost use Rattle.solo_devices.specs.Count.{Rose};
ghost use Rattle.solo_devices.specs.CardUnit.{IsPartial, StandsFor, GivesNext, IsAllTaken, bytes_total, items_ahead, item_of, byte_limit, work_ahead, fresh_unit};

use crate::pending::Pending;
use crate::reader::Reader;
use crate::{CardRead, Source};
use std::marker::Model;

/// Reads the cards of a source: a deck, one line of text a card. It takes at most 512 bytes in a call
/// of its source, and only where it holds no whole line. It takes no memory.
#[derive(Debug, Drop)]
pub struct CardUnit<S: Source> {
    reader: Reader<S>,
    live: bool,
}

impl<S: Source> Model for CardUnit<S> {
    ghost use Rattle.std.specs.Prelude.{◌≡◌, ◌≤◌, true};
    ghost use Rattle.solo_devices.specs.CardUnit.{Held, held_code, byte_limit};

    ghost Value = { Held S };

    ghost coded = { held_code S.code };

    ghost use Rattle.solo_devices.specs.Reader.{IsReader};

    ghost view = { λ unit. record { source = unit.reader.source; pending = unit.reader.pending; ended = unit.reader.ended; live = unit.live } };

    ghost invariant = { λ unit. IsReader S.left S.taken unit.reader × (unit.live ≡ true → unit.reader.taken ≤ byte_limit) };
}

impl<S: Source> CardUnit<S> {
    /// A unit of which nothing was read.
    pub fn new(source: S) -> CardUnit<S>
        requires { S.taken source ≡ 0 }
        ensures { result ≡ fresh_unit source }
    {
        CardUnit {
            reader: Reader {
                source,
                pending: Pending::new(),
                taken: 0,
                ended: false,
            },
            live: true,
        }
    }

    /// The next card. After a failure or the limit it is not asked again.
    pub fn read(&mut self) -> CardRead
        requires { self.old.live ≡ true }

        // Of the items ahead the answer is the next, however the source cuts its pieces.
        ensures next { GivesNext
            (items_ahead (S.left self.old.source) self.old.pending)
            (items_ahead (S.left self.new.source) self.new.pending) result }

        // So a unit that stood for the cards of a text, so many of them given, does so with one more.
        ensures stands { (text : List ℕ) (given : List Item) →
            StandsFor (S.left self.old.source) self.old.pending text given →
            StandsFor (S.left self.new.source) self.new.pending text (given ++ item_of result) }

        // The end comes once the source has told its end and nothing is held, and comes again.
        ensures end { result ≡ CardRead.End → (self.new.ended ≡ true) × (self.new.pending ≡ []) }
        ensures all_taken { result ≡ CardRead.End → IsAllTaken (S.left self.new.source) }
        ensures again { self.old.ended ≡ true → self.old.pending ≡ [] → result ≡ CardRead.End }
        ensures unasked { self.old.ended ≡ true → self.new.source ≡ self.old.source }
        ensures whole { (IsPartial self.old.pending → ⊥) → self.new.source ≡ self.old.source }

        // A failure was counted, and the limit is told at once.
        ensures failed { result ≡ CardRead.Failed → Rose (S.faults self.old.source) (S.faults self.new.source) }
        ensures counts { S.faults self.old.source ≤ S.faults self.new.source }
        ensures limit { (result ≡ CardRead.Limit) ↔ (byte_limit < S.taken self.new.source) }
        ensures most { S.taken self.new.source ≤ byte_limit + 512 }
        ensures live { result ≢ CardRead.Failed → result ≢ CardRead.Limit → self.new.live ≡ true }

        // What a source that tells its bytes had in all is what was taken of it and what is left.
        ensures total { bytes_total (S.taken self.new.source) (S.left self.new.source)
            ≡ bytes_total (S.taken self.old.source) (S.left self.old.source) }

        // Each item leaves less to do.
        ensures falls { 0 < length (item_of result) →
            work_ahead (S.taken self.new.source) self.new.pending self.new.ended
            < work_ahead (S.taken self.old.source) self.old.pending self.old.ended }
    {
        let answer = self.reader.next();
        self.live = !matches!(answer, CardRead::Failed | CardRead::Limit);
        answer
    }

    /// The source, with what was not taken.
    pub fn into_inner(self) -> S
        ensures { result ≡ self.source }
    {
        let CardUnit { reader, live: _ } = self;
        let Reader {
            source,
            pending: _,
            taken: _,
            ended: _,
        } = reader;
        source
    }
}
