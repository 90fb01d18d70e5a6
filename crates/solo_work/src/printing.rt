ghost use Rattle.std.specs.Prelude.{◌≡◌, ℕ, List, [], ◌∷◌, IfOk};
ghost use Rattle.solo_work.specs.Paper.{IsHand};
ghost use Rattle.solo_work.specs.Printing.{PrintsOn};

use crate::paper::Paper;
use solo_base::{Line, LineList, NoMemory, Page};
use std::alloc::Global;

/// Lines that are still to be printed, from a place on, and the lines that answer the command then.
#[derive(Drop)]
pub struct Printing {
    pub lines: LineList,
    pub next: usize,
    pub answers: LineList,
}

/// Nothing is to be printed, and this line answers.
pub fn answered(alloc: Global, line: &Line) -> Result<Printing, NoMemory>
    ensures { IfOk result (λ p. (p.lines ≡ []) × (p.next ≡ 0) × (p.answers ≡ line.now ∷ [])) }
{
    prints(LineList::new(alloc), alloc, line)
}

/// These lines are to be printed, and this one answers then.
pub fn prints(lines: LineList, alloc: Global, answer: &Line) -> Result<Printing, NoMemory>
    ensures { IfOk result (λ p. (p.lines ≡ lines) × (p.next ≡ 0) × (p.answers ≡ answer.now ∷ [])) }
{
    let mut answers = LineList::new(alloc);
    match answers.push(answer) {
        Ok(()) => Ok(Printing {
            lines,
            next: 0,
            answers,
        }),
        Err(refused) => Err(refused),
    }
}

impl Printing {
    /// Prints up to the next page that is full. `None` once all lines are printed.
    pub fn print(&mut self, paper: &mut Paper) -> Option<Page>
        ensures prints { (pages : ℕ) (hand : List (List ℕ)) → IsHand paper.old pages hand
            → PrintsOn self.old.lines self.old.next pages hand result self.new.next paper.new }
        ensures lines { self.new.lines ≡ self.old.lines }
        ensures answers { self.new.answers ≡ self.old.answers }
    {
        'printing: while self.next < self.lines.len() {
            let line = self.lines.get(self.next);
            self.next += 1;
            if let Some(page) = paper.print(&line) {
                return Some(page);
            }
        }
        None
    }
}
