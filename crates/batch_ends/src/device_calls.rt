ghost use Rattle.std.specs.Prelude.{◌≡◌, ◌≤◌, ◌<◌, ◌≢◌, ◌↔◌, true, ℕ, length};
ghost use Rattle.solo_devices.specs.Count.{Rose};
ghost use Rattle.solo_devices.specs.CardUnit.{items_ahead, item_of, byte_limit, bytes_total, IsAllTaken};
ghost use Rattle.page_codec.specs.Items.{AreItems};
ghost use Rattle.solo_devices.specs.declared.card_read.CardRead.TheVariants as card_read;
ghost use Rattle.batch_procs.specs.declared.actions.Reply.TheVariants as reply;
ghost use Rattle.core_law.specs.Core.{items_by};
ghost use Rattle.batch_ends.specs.Devices.{ReadsCard, PrintsLine, cards_left};

use batch_procs::{JobWork, Reply};
use solo_base::Line;
use solo_devices::{CardRead, CardUnit, PrintFault, PrinterUnit, Sink, Source};

/// Reads the next card of the deck.
#[inline(always)]
pub fn read_card<'a, J: JobWork, S: Source>(deck: &mut CardUnit<S>) -> Reply<'a, J::Load>
    requires live { deck.old.live ≡ true }
    ensures reads { ReadsCard J.jobs (items_ahead (S.left deck.old.source) deck.old.pending)
        (items_ahead (S.left deck.new.source) deck.new.pending) result }
    ensures failed { result ≡ reply.Card card_read.Failed
        → Rose (S.faults deck.old.source) (S.faults deck.new.source) }
    ensures counts { S.faults deck.old.source ≤ S.faults deck.new.source }
    ensures limit { (result ≡ reply.Card card_read.Limit) ↔ (byte_limit < S.taken deck.new.source) }
    ensures falls { 0 < length (items_by result) → cards_left S.taken deck.new < cards_left S.taken deck.old }
    ensures total { bytes_total (S.taken deck.new.source) (S.left deck.new.source)
        ≡ bytes_total (S.taken deck.old.source) (S.left deck.old.source) }
    ensures all_taken { result ≡ reply.Card card_read.End → IsAllTaken (S.left deck.new.source) }
    ensures live { result ≢ reply.Card card_read.Failed → result ≢ reply.Card card_read.Limit
        → deck.new.live ≡ true }
{
    let answer = deck.read();
    is_item(&answer);
    Reply::Card(answer)
}

/// A card that is read is an item. Nothing is done here: the contract tells it of the line.
pub fn is_item(answer: &CardRead)
    ensures { AreItems (item_of answer.now) }
{
    match answer {
        CardRead::Card(line) => {
            let _ = line.bytes();
        }
        CardRead::Spoiled => {}
        CardRead::End => {}
        CardRead::Failed => {}
        CardRead::Limit => {}
    }
}

/// Prints a line.
#[inline(always)]
pub fn print<'a, J: JobWork, K: Sink>(paper: &mut PrinterUnit<K>, line: &Line) -> Reply<'a, J::Load>
    requires live { paper.old.live ≡ true }
    ensures prints { PrintsLine J.jobs (K.given paper.old.sink) (K.given paper.new.sink) line.now result }
    ensures failed { result ≡ reply.Failed → Rose (K.faults paper.old.sink) (K.faults paper.new.sink) }
    ensures counts { K.faults paper.old.sink ≤ K.faults paper.new.sink }
    ensures live { result ≡ reply.Done → paper.new.live ≡ true }
{
    match paper.print(line) {
        Ok(()) => Reply::Done,
        Err(PrintFault::Failed) => Reply::Failed,
        Err(PrintFault::NoMemory) => Reply::NoMemory,
    }
}
