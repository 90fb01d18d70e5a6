// Commands that need no programs: each letter of a typed line is a deed.
ghost use Rattle.std.specs.Prelude.{◌≡◌, ℕ, IfOk};
ghost use Rattle.solo_net_tests.specs.Hands.{HasHand, ComesTo};

use solo_base::{Feed, Item, Line, LineList, NoMemory, Page};
use solo_devices::{Area, MemArea, Moved};
use solo_procs::{Commands, Given, Need, WorkFault};
use solo_work::{Paper, Printing};
use std::alloc::Global;
use std::mem;

/// `c` prints the next card file, `t` answers with the next typed line, `p` prints a line of 120 columns, and
/// any other letter displays itself. Each piece of work reads a page of the area.
#[derive(Drop)]
pub struct Deeds {
    letters: Line,
    at: usize,
    paper: Paper,
    printing: Printing,
    alloc: Global,
}

fn line_of(bytes: &[u8]) -> Line {
    match Line::of(bytes) {
        Some(line) => line,
        None => Line::new(),
    }
}

impl Commands for Deeds {
    type Files = MemArea;

    ghost use Rattle.std.specs.Prelude.{◌<◌};
    ghost use Rattle.solo_net_tests.specs.Hands.{HasHand};

    ghost sound = { λ area. 0 < ⟦<MemArea as Area>⟧.size area };

    ghost faults = { λ area. ⟦<MemArea as Area>⟧.faults area };

    ghost opens = { λ area plan. ⊥ };

    ghost awaits = { λ deeds pages kind. HasHand deeds.paper pages };

    ghost plans = { λ deeds area plan. ⊥ };

    ghost follows = { λ deeds opening before area. Unit {0} };

    ghost passes = { λ opening before area. Unit {0} };

    fn begin(alloc: Global) -> Deeds {
        Deeds {
            letters: Line::new(),
            at: 0,
            paper: Paper::new(),
            printing: nothing(alloc),
            alloc,
        }
    }

    fn work(&mut self, given: Given, files: &mut MemArea) -> Result<Need, WorkFault> {
        let mut page = Page::zeros();
        match files.read(0, &mut page) {
            Moved::Failed => Err(WorkFault::Failed),
            Moved::Done => match self.go_on(given) {
                Ok(need) => Ok(need),
                Err(_) => Err(WorkFault::NoMemory),
            },
        }
    }
}

// Nothing is to be printed.
fn nothing(alloc: Global) -> Printing {
    Printing {
        lines: LineList::new(alloc),
        next: 0,
        answers: LineList::new(alloc),
    }
}

impl Deeds {
    // Up to the next need.
    fn go_on(&mut self, given: Given) -> Result<Need, NoMemory>
        ensures { (pages : ℕ) → HasHand self.old.paper pages
            → IfOk result (λ need. ComesTo pages need self.new.paper) }
    {
        match self.hear(given) {
            Ok(()) => match self.printing.print(&mut self.paper) {
                Some(page) => Ok(Need::Page(page)),
                None => self.deed(),
            },
            Err(refused) => Err(refused),
        }
    }

    // What a piece of work begins with.
    fn hear(&mut self, given: Given) -> Result<(), NoMemory>
        ensures { self.new.paper ≡ self.old.paper }
    {
        match given {
            Given::Line(item) => {
                self.letters = text_of(item);
                self.at = 0;
                Ok(())
            }
            Given::Cards { cards, spoiled } => {
                self.printing.lines = cards;
                self.printing.next = 0;
                if spoiled {
                    return self.printing.answers.push(&line_of(b"SPOILED"));
                }
                Ok(())
            }
            Given::Typed(Feed::Item(item)) => self.printing.answers.push(&text_of(item)),
            Given::Typed(Feed::End) => self.printing.answers.push(&line_of(b"NONE")),
            Given::Nothing => Ok(()),
        }
    }

    // The deed of the next letter, or the end behind the last one.
    fn deed(&mut self) -> Result<Need, NoMemory>
        ensures { (pages : ℕ) → HasHand self.old.paper pages
            → IfOk result (λ need. ComesTo pages need self.new.paper) }
    {
        match self.letters.bytes().get(self.at).copied() {
            Some(letter) => {
                self.at = self.at.saturating_add(1);
                Ok(self.needed(letter))
            }
            None => self.end(),
        }
    }

    #[tactic(auto, using(crate::proofs::Fit::cards, crate::proofs::Fit::line, crate::proofs::Fit::show))]
    fn needed(&mut self, letter: u8) -> Need
        ensures { (pages : ℕ) → HasHand self.old.paper pages → ComesTo pages result self.new.paper }
    {
        match letter {
            b'c' => Need::Cards,
            b't' => Need::Line,
            b'p' => self.print_row(),
            _ => Need::Display(line_of(&[letter])),
        }
    }

    // Prints a line, which is displayed where no page is full by it.
    fn print_row(&mut self) -> Need
        ensures { (pages : ℕ) → HasHand self.old.paper pages → ComesTo pages result self.new.paper }
    {
        match self.paper.print(&line_of(&[b'P'; 120])) {
            Some(page) => Need::Page(page),
            None => Need::Display(line_of(b"p")),
        }
    }

    fn end(&mut self) -> Result<Need, NoMemory>
        ensures { (pages : ℕ) → HasHand self.old.paper pages
            → IfOk result (λ need. ComesTo pages need self.new.paper) }
    {
        let paper = mem::replace(&mut self.paper, Paper::new());
        let printing = mem::replace(&mut self.printing, nothing(self.alloc));
        let mut answers = printing.answers;
        match answers.push(&line_of(b"OK")) {
            Ok(()) => Ok(Need::End {
                last: paper.last(),
                answers,
            }),
            Err(refused) => Err(refused),
        }
    }
}

// A typed line, or what stands for a spoiled one: for a command no letter at all.
fn text_of(item: Item) -> Line {
    match item {
        Item::Line(line) => line,
        Item::Spoiled => Line::new(),
    }
}
