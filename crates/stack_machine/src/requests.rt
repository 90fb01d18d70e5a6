ghost use Rattle.std.specs.Prelude.{◌≡◌, ◌<◌, ◌≤◌, ◌+◌, ◌^◌, ℕ, length, take, drop, map, pos, IfSome, IfNone, unsigned_abs, true, false, slice_index_or};
ghost use Rattle.solo_base.specs.declared.outcome.ProgResult.TheVariants.{RangeError};
ghost use Rattle.solo_base.specs.Interface.{call_row_of};
ghost use Rattle.stack_machine.specs.State.{asked, stop, words_of};
ghost use Rattle.solo_base.specs.Arithmetic.{byte_of, are_bytes};
ghost use Rattle.stack_machine.specs.Calls.{sys, ask, made, request};
ghost use Rattle.stack_machine.specs.Shown.{shown};

use crate::state::{Ask, Store};
use crate::words::routine_at;
use solo_base::{IDENT_LENGTH, PAGE_LENGTH, Page, Procedure, ProgResult, SysCall};
use stack_code::Verified;

impl Store {
    /// SYS, SYSG, SYSL: the call of a row of the interface, with the array from word b. The program
    /// stays at the instruction until the call is answered.
    pub(crate) fn sys(&self, code: &Verified, limit: u32, program: bool, a: u16, b: u16) -> Ask
        ensures { asked result (shown self.now) ≡ sys code.now limit (shown self.now) program a b }
    {
        let Some(procedure) = Procedure::at(a) else {
            return Ask::Stuck;
        };
        let row = procedure.row();
        let height = self.current.operands.len();
        let highest = routine_at(code, self.current.routine).height as usize;
        if height < row.values as usize
            || b as usize + row.array as usize > self.words_len(program)
            || height - row.values as usize + row.results as usize > highest
        {
            return Ask::Stuck;
        }
        self.request(
            procedure,
            program,
            b as usize,
            limit.saturating_sub(self.ticks),
        )
    }

    // What a procedure asks for, whose values are there and whose array lies in the frame.
    fn request(&self, procedure: Procedure, program: bool, b: usize, left: u32) -> Ask
        requires low { b < 2 ^ 16 }
        requires values { (call_row_of procedure).values ≤ length self.now.current.operands.words }
        requires array { b + (call_row_of procedure).array
            ≤ length (words_of program (shown self.now)) }
        ensures { asked result (shown self.now)
            ≡ made (shown self.now) (request procedure self.now.current.operands.words
            (take (call_row_of procedure).array (drop b (words_of program (shown self.now)))) left) }
    {
        let top = self.operand(0);
        let second = self.operand(1);
        match procedure {
            Procedure::Read => Ask::Call(SysCall::Read),
            Procedure::Write => match u8::try_from(top) {
                Ok(byte) => Ask::Call(SysCall::Write(byte)),
                Err(_) => self.out_of_range(),
            },
            Procedure::WriteInt => Ask::Call(SysCall::WriteInt(top)),
            Procedure::Accept => Ask::Call(SysCall::Accept),
            Procedure::Display => match u8::try_from(top) {
                Ok(byte) => Ask::Call(SysCall::Display(byte)),
                Err(_) => self.out_of_range(),
            },
            Procedure::Open => Ask::Call(SysCall::Open {
                f: top,
                name: self.name_at(program, b),
            }),
            Procedure::Close => Ask::Call(SysCall::Close(top)),
            Procedure::Get => Ask::Call(SysCall::Get { f: second, p: top }),
            Procedure::Put => match self.page_at(program, b) {
                Some(page) => Ask::Call(SysCall::Put {
                    f: second,
                    p: top,
                    page,
                }),
                None => self.out_of_range(),
            },
            Procedure::Length => Ask::Call(SysCall::Length(top)),
            Procedure::Lookup => Ask::Call(SysCall::Lookup(self.name_at(program, b))),
            Procedure::ReadArg => Ask::Call(SysCall::ReadArg),
            Procedure::WriteArg => Ask::Call(SysCall::WriteArg {
                tag: second,
                number: top,
                name: self.name_at(program, b),
            }),
            Procedure::Run => Ask::Call(SysCall::Run {
                name: self.name_at(program, b),
                left,
            }),
        }
    }

    // Ends the program in the activation's line.
    fn out_of_range(&self) -> Ask
        ensures { asked result (shown self.now) ≡ stop (shown self.now) RangeError }
    {
        Ask::Stopped(ProgResult::RangeError, self.current.line)
    }

    // The operand at a depth, the topmost at 0, or 0 where there is none.
    fn operand(&self, depth: usize) -> i16
        ensures { result ≡ slice_index_or self.now.current.operands.words depth (pos 0) }
    {
        self.current.operands.get(depth).unwrap_or(0)
    }

    // The name in twelve words of a frame.
    fn name_at(&self, program: bool, start: usize) -> [i16; 12]
        requires low { start < 2 ^ 16 }
        requires inside { start + 12 ≤ length (words_of program (shown self.now)) }
        ensures { result ≡ take 12 (drop start (words_of program (shown self.now))) }
    {
        let mut name = [0; IDENT_LENGTH];
        for k in 0..IDENT_LENGTH {
            name[k] = self.word(program, start + k).unwrap_or(0);
        }
        name
    }

    // The page in 512 words of a frame, if each is a byte.
    fn page_at(&self, program: bool, start: usize) -> Option<Page>
        requires low { start < 2 ^ 16 }
        requires inside { start + 512 ≤ length (words_of program (shown self.now)) }
        ensures bytes { IfSome result (λ page.
            (are_bytes (take 512 (drop start (words_of program (shown self.now)))) ≡ true)
            × (page.0 ≡ map unsigned_abs (take 512 (drop start (words_of program (shown self.now)))))) }
        ensures other { IfNone result
            (are_bytes (take 512 (drop start (words_of program (shown self.now)))) ≡ false) }
    {
        let mut bytes = [0; PAGE_LENGTH];
        for k in 0..PAGE_LENGTH {
            let word = self.word(program, start + k).unwrap_or(0);
            let Some(byte) = byte_of(word) else {
                return None;
            };
            bytes[k] = byte;
        }
        Some(Page(bytes))
    }
}

// The word as a byte, if it is one.
fn byte_of(word: i16) -> Option<u8>
    ensures { result ≡ byte_of word }
{
    u8::try_from(word).ok()
}
