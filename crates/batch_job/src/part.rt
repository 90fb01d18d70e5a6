ghost use Rattle.std.specs.Prelude.{◌≡◌, ◌+◌, ◌≤◌, None, length, option_to_list};
ghost use Rattle.batch_job.specs.LinesAhead.{Where};

use program_lines::ProgramLines;
use solo_base::{Ident, Line, LineList};

/// The part of a deck that a stream of items is in.
#[derive(Debug, Drop)]
pub enum Part {
    /// Outside groups, behind so many cards that count.
    Stretch {
        count: u32,
    },
    /// In a list without a fault, behind so many cards.
    List {
        name: Ident,
        count: u32,
    },
    /// In a program without a fault, before its input. The next card has this number.
    Program {
        name: Ident,
        limit: u32,
        number: u32,
        cards: LineList,
    },
    /// In the input of a program, without a fault. The next card has this number.
    Input {
        name: Ident,
        number: u32,
        lines: ProgramLines,
    },
    /// In a group of which no more is told.
    Dropped,
}

impl Part {
    ghost use Rattle.batch_job.specs.Places.{IsPart, IsSpentPart, GivesOn, RestsAt, is_in_a_group, part_left};

    /// Whether a group is open.
    pub fn is_in_group(&self) -> bool
        ensures { result ≡ is_in_a_group self.now }
    {
        !matches!(self, Part::Stretch { count: _ })
    }

    /// The next line of a program that reads its input, or `None` where none comes before the next item.
    pub fn next(&mut self) -> Option<Line>
        ensures gives { (place : Where) → IsPart self.old place
            → GivesOn place self.new (option_to_list result) }
        ensures none { result ≡ None → IsSpentPart self.new }
        ensures rests { result ≡ None → (place : Where) → IsPart self.old place → RestsAt place self.new }
        ensures left { part_left self.new + length (option_to_list result) ≤ part_left self.old }
    {
        match self {
            Part::Input { lines, .. } => lines.next(),
            _ => None,
        }
    }
}
