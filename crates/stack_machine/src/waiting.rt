ghost use Rattle.std.specs.Prelude.{◌≡◌, ◌<◌, ◌≤◌, ◌+◌, List, [], ◌∷◌, ◌++◌, length, map, take, slice_get, slice_set, slice_index_or, Some, IfOk};
ghost use Rattle.stack_machine.specs.States.{Activation};
ghost use Rattle.stack_machine.specs.Activations.{opened, waiting_caller, nobody};
ghost use Rattle.stack_machine.specs.Slots.{shown_slot, HasRoomOf, HaveRoomOf};
ghost use Rattle.stack_machine.specs.Store.{Waiters};

use crate::slot::Slot;
use crate::{Frame, Operands, Room};
use stack_code::RoutineInfo;
use std::alloc::{AllocError, Global};
use std::marker::Model;

/// The activations that wait for a call to return, by their numbers: the program's is 0. The room
/// for all of them is taken when it is made.
#[derive(Debug, Drop)]
pub struct Waiting {
    slots: Vec<Slot>,
    count: usize,
    room: Room,
}

impl Model for Waiting {
    ghost Value = { Waiters };

    ghost view = { λ waiting. record {
      waiting = map shown_slot (take waiting.count waiting.slots.items);
      room = waiting.room;
    } };

    ghost invariant = { λ waiting.
        (waiting.count ≤ waiting.room.waiting) × (waiting.room.waiting ≤ 63)
        × (length waiting.slots.items ≡ waiting.room.waiting)
        × HaveRoomOf waiting.room waiting.slots.items };
}

impl Waiting {
    /// No activations, in this room.
    pub(crate) fn new(alloc: Global, room: Room) -> Result<Waiting, AllocError>
        requires words { room.words ≤ 4352 }
        requires height { room.height ≤ 1536 }
        requires waiting { room.waiting ≤ 63 }
        ensures { IfOk result (λ waiting. waiting ≡ record { waiting = []; room = room }) }
    {
        let mut slots = Vec::new(alloc);
        for slot in 0..room.waiting {
            slots.push(Slot {
                routine: 0,
                place: 0,
                line: 0,
                words: Frame::new(alloc, room.words)?,
                operands: Operands::new(alloc, room.height)?,
            })?;
        }
        Ok(Waiting {
            slots,
            count: 0,
            room,
        })
    }

    /// How many activations wait.
    pub(crate) fn len(&self) -> usize
        ensures count { result ≡ length self.now.waiting }
        ensures bound { result ≤ 63 }
    {
        self.count
    }

    /// Opens an activation of a routine, with its parameters from the current one's operands, and
    /// lets the current one wait at its next instruction.
    pub(crate) fn open(&mut self, current: &mut Slot, routine: RoutineInfo, number: u16)
        requires room { length self.old.waiting < self.old.room.waiting }
        requires same { HasRoomOf self.old.room current.old }
        requires place { current.old.place < 8192 }
        requires arguments { routine.params ≤ length current.old.operands.words }
        requires params { routine.params ≤ routine.words }
        requires words { routine.words ≤ self.old.room.words }
        ensures waits { self.new ≡ record self.old {
          waiting =
              self.old.waiting ++ waiting_caller routine (shown_slot current.old) ∷ [];
        } }
        ensures opened { shown_slot current.new ≡ opened routine number current.old.operands.words }
        ensures same { HasRoomOf self.old.room current.new }
    {
        let params = routine.params as usize;
        let slot = &mut self.slots[self.count];
        slot.routine = number;
        slot.place = routine.start;
        slot.line = 0;
        slot.words
            .begin(current.operands.top(params), routine.words as usize);
        slot.operands.clear();
        current.operands.drop_top(params);
        current.place += 1;
        std::mem::swap(slot, current);
        self.count += 1;
    }

    /// Makes the latest of the waiting activations the current one.
    pub(crate) fn resume(&mut self, current: &mut Slot)
        requires some { 0 < length self.old.waiting }
        requires same { HasRoomOf self.old.room current.old }
        ensures resumed { self.old.waiting ≡ self.new.waiting ++ shown_slot current.new ∷ [] }
        ensures room { self.new.room ≡ self.old.room }
        ensures same { HasRoomOf self.old.room current.new }
    {
        self.count -= 1;
        std::mem::swap(&mut self.slots[self.count], current);
    }

    /// How many words the frame of the activation with this number has.
    pub(crate) fn words_len(&self, number: usize) -> usize
        requires { number < length self.now.waiting }
        ensures count { result ≡ length (slice_index_or self.now.waiting number nobody).words }
        ensures bound { result ≤ 4352 }
    {
        self.slots[number].words.len()
    }

    /// A word of its frame.
    pub(crate) fn word(&self, number: usize, place: usize) -> Option<i16>
        requires { number < length self.now.waiting }
        ensures { result ≡ slice_get (slice_index_or self.now.waiting number nobody).words place }
    {
        self.slots[number].words.get(place)
    }

    /// Changes a word of its frame.
    pub(crate) fn set_word(&mut self, number: usize, place: usize, word: i16)
        requires waits { number < length self.old.waiting }
        requires inside { place < length (slice_index_or self.old.waiting number nobody).words }
        ensures { (a : Activation) → slice_get self.old.waiting number ≡ Some a
            → self.new ≡ record self.old {
              waiting =
                  slice_set self.old.waiting number (record a { words = slice_set a.words place word });
            } }
    {
        self.slots[number].words.set(place, word);
    }
}
