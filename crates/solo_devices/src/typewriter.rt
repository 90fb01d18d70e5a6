ghost use Rattle.std.specs.Prelude.{◌≡◌, ◌≢◌, ◌<◌, ◌≤◌, ◌↔◌, ℕ, List, [], ◌++◌, length, true, IsOk, IsErrOf, OnOk};
ghost use Rattle.solo_base.specs.declared.item.Item.{Item};
ghost use Rattle.solo_base.specs.Text.{line_text};
ghost use Rattle.solo_devices.specs.Count.{Rose};
ghost use Rattle.solo_devices.specs.CardUnit.{IsPartial, StandsFor, GivesNext, IsAllTaken, bytes_total, items_ahead, item_of, byte_limit, work_ahead, fresh_unit};
ghost use Rattle.solo_devices.specs.PrinterUnit.{Gains, fresh_printer};

use crate::{CardRead, CardUnit, PrintFault, PrinterUnit, Sink, Source};
use solo_base::Line;
use std::marker::Model;

/// The operator's typewriter: lines are typed on its keys, and displayed on its console.
#[derive(Debug, Drop)]
pub struct Typewriter<Y: Source, T> {
    keys: CardUnit<Y>,
    console: PrinterUnit<T>,
}

impl<Y: Source, T> Model for Typewriter<Y, T> {
    ghost use Rattle.solo_devices.specs.Typewriter.{Typing, typing_code};

    ghost Value = { Typing Y T };

    ghost coded = { typing_code Y.code T.code };

    ghost view = { λ typewriter. record { keys = typewriter.keys; console = typewriter.console } };
}

impl<Y: Source, T: Sink> Typewriter<Y, T> {
    /// A typewriter on whose keys nothing was typed, and on whose console nothing was displayed.
    pub fn new(source: Y, sink: T) -> Typewriter<Y, T>
        requires { Y.taken source ≡ 0 }
        ensures keys { result.keys ≡ fresh_unit source }
        ensures console { result.console ≡ fresh_printer sink }
    {
        Typewriter {
            keys: CardUnit::new(source),
            console: PrinterUnit::new(sink),
        }
    }

    /// The next typed line, read as a card unit reads a card, under the same limit. After a failure or the
    /// limit the keys aren't asked again.
    pub fn accept(&mut self) -> CardRead
        requires { self.old.keys.live ≡ true }

        // Of the lines ahead the answer is the next, however the source cuts its pieces.
        ensures next { GivesNext
            (items_ahead (Y.left self.old.keys.source) self.old.keys.pending)
            (items_ahead (Y.left self.new.keys.source) self.new.keys.pending) result }

        // So keys that stood for the lines of a text, so many of them given, do so with one more.
        ensures stands { (text : List ℕ) (given : List Item) →
            StandsFor (Y.left self.old.keys.source) self.old.keys.pending text given →
            StandsFor (Y.left self.new.keys.source) self.new.keys.pending text (given ++ item_of result) }

        // The end comes once the source has told its end and nothing is held, and comes again.
        ensures end { result ≡ CardRead.End → (self.new.keys.ended ≡ true) × (self.new.keys.pending ≡ []) }
        ensures all_taken { result ≡ CardRead.End → IsAllTaken (Y.left self.new.keys.source) }
        ensures again { self.old.keys.ended ≡ true → self.old.keys.pending ≡ [] → result ≡ CardRead.End }
        ensures unasked { self.old.keys.ended ≡ true → self.new.keys.source ≡ self.old.keys.source }
        ensures whole { (IsPartial self.old.keys.pending → ⊥) → self.new.keys.source ≡ self.old.keys.source }

        // A failure was counted, and the limit is told at once.
        ensures failed { result ≡ CardRead.Failed
            → Rose (Y.faults self.old.keys.source) (Y.faults self.new.keys.source) }
        ensures counts { Y.faults self.old.keys.source ≤ Y.faults self.new.keys.source }
        ensures limit { (result ≡ CardRead.Limit) ↔ (byte_limit < Y.taken self.new.keys.source) }
        ensures live { result ≢ CardRead.Failed → result ≢ CardRead.Limit → self.new.keys.live ≡ true }

        // What a source that tells its bytes had in all is what was taken of it and what is left.
        ensures total { bytes_total (Y.taken self.new.keys.source) (Y.left self.new.keys.source)
            ≡ bytes_total (Y.taken self.old.keys.source) (Y.left self.old.keys.source) }

        // Each line leaves less to do, and nothing is displayed.
        ensures falls { 0 < length (item_of result) →
            work_ahead (Y.taken self.new.keys.source) self.new.keys.pending self.new.keys.ended
            < work_ahead (Y.taken self.old.keys.source) self.old.keys.pending self.old.keys.ended }
        ensures console { self.new.console ≡ self.old.console }
    {
        self.keys.read()
    }

    /// Displays a line, offered to the sink as one piece. After a refusal, which may have displayed its
    /// beginning, nothing more is displayed. Of the keys nothing is read.
    pub fn display(&mut self, line: &Line) -> Result<(), PrintFault>
        requires { self.old.console.live ≡ true }
        ensures line { Gains (T.given self.old.console.sink) (T.given self.new.console.sink)
            (line_text line.now) (IsOk result) }
        ensures counts { T.faults self.old.console.sink ≤ T.faults self.new.console.sink }
        ensures failed { IsErrOf result PrintFault.Failed
            → Rose (T.faults self.old.console.sink) (T.faults self.new.console.sink) }
        ensures live { OnOk result (self.new.console.live ≡ true) }
        ensures keys { self.new.keys ≡ self.old.keys }
    {
        self.console.print(line)
    }

    /// The source with what was not taken, and the sink with what it was given.
    pub fn into_inner(self) -> (Y, T)
        ensures keys { result.0 ≡ self.keys.source }
        ensures console { result.1 ≡ self.console.sink }
    {
        let Typewriter { keys, console } = self;
        (keys.into_inner(), console.into_inner())
    }
}
