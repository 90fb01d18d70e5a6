ghost use Rattle.std.specs.Prelude.{◌≡◌, ◌<◌, ◌≤◌, ◌+◌, ◌++◌, ◌∷◌, ◌^◌, length, map, pos};
ghost use Rattle.stack_code.specs.CodeLists.{CodeLists};
ghost use Rattle.solo_base.specs.Interface.{values_of};
ghost use Rattle.stack_code.specs.Rules.{pops};
ghost use Rattle.stack_machine.specs.State.{words_of, with_words};
ghost use Rattle.solo_base.specs.Replies.{results_in, array_in, ticks_in};
ghost use Rattle.stack_machine.specs.Machine.{answered, fail_call, reply_at, set_array, uses_program, array_start};
ghost use Rattle.stack_machine.specs.Room.{HasRoom, HasRoomFor};
ghost use Rattle.stack_machine.specs.Shown.{shown, in_store};

use crate::operands::Operands;
use crate::state::Store;
use crate::step::{array_start, uses_program};
use solo_base::{ProgResult, SysReply, call_row};
use stack_code::{Instr, Verified};

impl Store {
    /// Completes the instruction whose call got this reply, or ends the program.
    #[tactic(auto, unfolding(crate::specs::Machine::answered))]
    pub(crate) fn answer(&mut self, code: &Verified, reply: SysReply)
        requires { HasRoomFor code.now (shown self.old) self.old.current.operands.room reply }
        ensures { self.new ≡ in_store self.old (answered code.now (shown self.old) reply) }
    {
        if let SysReply::CallError = reply {
            self.end(ProgResult::CallError, self.current.line);
            return;
        }
        let instr = code.code().instrs()[self.current.place as usize];
        self.complete(instr, &reply);
    }

    // Pops the values of the call, sets its array and pushes its results.
    fn complete(&mut self, instr: Instr, reply: &SysReply)
        requires place { self.old.current.place < 8192 }
        requires room { HasRoom (shown self.old) self.old.current.operands.room instr reply.now }
        ensures { (c : CodeLists) → pops c instr.op instr.a ≡ values_of instr.a
            → self.new ≡ in_store self.old (reply_at c (shown self.old) instr reply.now) }
    {
        let program = uses_program(instr.op);
        self.set_array(program, array_start(instr) as usize, reply);
        self.current.operands.drop_top(values_of(instr.a));
        push_results(&mut self.current.operands, reply);
        self.ticks += ticks_in(reply);
        self.current.place += 1;
    }

    // Sets the array that the reply gives.
    fn set_array(&mut self, program: bool, start: usize, reply: &SysReply)
        requires low { start < 2 ^ 16 }
        requires inside { start + length (array_in reply.now)
            ≤ length (words_of program (shown self.old)) }
        ensures { self.new ≡ in_store self.old
            (with_words program (shown self.old)
            (set_array (words_of program (shown self.old)) start (array_in reply.now))) }
    {
        match reply {
            SysReply::Page(page) => self.set_bytes(program, start, &page.0),
            SysReply::Argument { name, .. } => self.set_bytes(program, start, name),
            _ => {}
        }
    }

    // Sets the words of a frame from a place on to these bytes.
    fn set_bytes(&mut self, program: bool, start: usize, bytes: &[u8])
        requires low { start < 2 ^ 16 }
        requires inside { start + length bytes.now ≤ length (words_of program (shown self.old)) }
        ensures { self.new ≡ in_store self.old
            (with_words program (shown self.old)
            (set_array (words_of program (shown self.old)) start (map pos bytes.now))) }
    {
        for place in 0..bytes.len() {
            self.set_word(program, start + place, i16::from(bytes[place]));
        }
    }
}

// How many values the call of a row of the interface pops.
fn values_of(row: u16) -> usize
    ensures { result ≡ values_of row }
{
    match call_row(row) {
        Some(found) => found.values as usize,
        None => 0,
    }
}

// Pushes the words that the reply gives.
fn push_results(operands: &mut Operands, reply: &SysReply)
    requires { length operands.old.words + length (results_in reply.now) ≤ operands.old.room }
    ensures { operands.new
        ≡ record operands.old { words = results_in reply.now ++ operands.old.words } }
{
    match reply {
        SysReply::Char(byte) => operands.push(i16::from(*byte)),
        SysReply::Opened(found) => operands.push(i16::from(*found)),
        SysReply::Length(pages) => operands.push(*pages),
        SysReply::Found { kind, found } => push_two(operands, *kind, i16::from(*found)),
        SysReply::Argument { tag, number, .. } => push_two(operands, *tag, *number),
        SysReply::Ran {
            line,
            result: number,
            ..
        } => push_two(operands, *line, *number),
        _ => {}
    }
}

fn push_two(operands: &mut Operands, lower: i16, upper: i16)
    requires { length operands.old.words + 2 ≤ operands.old.room }
    ensures { operands.new ≡ record operands.old { words = upper ∷ lower ∷ operands.old.words } }
{
    operands.push(lower);
    operands.push(upper);
}

// The ticks that the reply says were taken.
fn ticks_in(reply: &SysReply) -> u32
    ensures { result ≡ ticks_in reply.now }
{
    match reply {
        SysReply::Ran { ticks, .. } => *ticks,
        _ => 0,
    }
}
