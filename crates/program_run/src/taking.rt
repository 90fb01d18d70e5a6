// A program takes what it waits for.
ghost use Rattle.std.specs.Prelude.{◌≡◌, ◌++◌, ◌∷◌, [], IfOk, OnOk};
ghost use Rattle.program_task.specs.Characters.{typed_text};
ghost use Rattle.program_run.specs.Sight.{MayTake, TakesCards, TakesLine};
ghost use Rattle.solo_procs.specs.Commands.{AtCards, AtTyped};

use crate::program_run::ProgramRun;
use file_commands::text_of_cards;
use solo_base::{Feed, Item, LineList, NoMemory, SysReply};
use std::alloc::Global;

impl ProgramRun {
    /// Gives the program the card file that it needs: its cards up to the first spoiled one, and whether
    /// there is one.
    pub fn take_cards(
        &mut self,
        alloc: Global,
        cards: &LineList,
        spoiled: bool,
    ) -> Result<(), NoMemory>
        requires { MayTake AtCards self.old }
        ensures { OnOk result (TakesCards (record { cards = cards.now; spoiled = spoiled })
            self.old self.new) }
    {
        let text = match text_of_cards(alloc, cards) {
            Ok(text) => text,
            Err(refused) => return Err(refused),
        };
        let code = self.hand.take_cards(text, spoiled);
        self.programs.answer(SysReply::Char(code));
        Ok(())
    }

    /// Gives the program the typed line that it needs, or the end of all typed lines.
    pub fn take_line(&mut self, alloc: Global, typed: &Feed) -> Result<(), NoMemory>
        requires { MayTake AtTyped self.old }
        ensures { OnOk result (TakesLine typed.now self.old self.new) }
    {
        let text = match typed_text(alloc, typed) {
            Ok(text) => text,
            Err(refused) => return Err(refused),
        };
        let code = self.hand.take_line(text);
        self.programs.answer(SysReply::Char(code));
        Ok(())
    }
}

// The characters of a typed line: a spoiled one has code 10 alone, and the end none.
fn typed_text(alloc: Global, typed: &Feed) -> Result<Vec<u8>, NoMemory>
    ensures { IfOk result (λ codes. codes.items ≡ typed_text typed.now) }
{
    match typed {
        Feed::Item(Item::Line(line)) => ended(alloc, line.bytes()),
        Feed::Item(Item::Spoiled) => ended(alloc, &[]),
        Feed::End => Ok(Vec::new(alloc)),
    }
}

// These characters, and code 10.
fn ended(alloc: Global, codes: &[u8]) -> Result<Vec<u8>, NoMemory>
    ensures { IfOk result (λ all. all.items ≡ codes.now ++ 10 ∷ []) }
{
    let mut all = Vec::new(alloc);
    all.extend_from_slice(codes)?;
    all.push(b'\n')?;
    Ok(all)
}
