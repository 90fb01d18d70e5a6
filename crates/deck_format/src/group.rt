ghost use Rattle.std.specs.Prelude.{◌≡◌, IfOk, OnOk, OnErr, None};
ghost use Rattle.deck_format.specs.Jobs.{job_with};
ghost use Rattle.deck_format.specs.declared.job.CardFault.{CardFault as Fault};
ghost use Rattle.deck_format.specs.Jobs.{followed_by};
ghost use Rattle.deck_format.specs.JobReader.{opened, added, parts_at, card_kept, fault_kept, item_kept, input_behind};
ghost use Rattle.solo_base.specs.declared.item.Item.TheVariants as ItemOf;

use crate::{CardFault, CardFaultKind, Control, Job, Opener};
use solo_base::{Item, Line, LineList, NoMemory};
use std::alloc::Global;

/// What is kept of the cards of a group, up to its first fault.
#[derive(Debug, Drop)]
pub struct Kept {
    /// Those that are listed, or the program.
    pub cards: LineList,
    /// The input of a program.
    pub input: LineList,
    pub fault: Option<CardFault>,
}

impl Kept {
    /// The job of a group of which this is kept.
    fn into_job(self, opener: Opener) -> Job
        ensures { result ≡ job_with opener self }
    {
        match opener {
            Opener::List(name) => Job::List {
                name,
                cards: self.cards,
                fault: self.fault,
            },
            Opener::Job { name, limit } => Job::Pascal {
                name,
                limit,
                program: self.cards,
                input: self.input,
                fault: self.fault,
            },
            Opener::Run { name, file } => Job::Run {
                name,
                file,
                input: self.input,
                fault: self.fault,
            },
        }
    }
}

/// A group that is open.
#[derive(Debug, Drop)]
pub struct Group {
    opener: Opener,
    kept: Kept,
    /// Whether the next plain card is input.
    in_input: bool,
    /// The number of the next card.
    number: u32,
}

impl Group {
    /// The group behind its opener, which takes no memory.
    pub fn open(alloc: Global, opener: Opener) -> Group
        ensures { result ≡ opened opener }
    {
        Group {
            opener,
            kept: Kept {
                cards: LineList::new(alloc),
                input: LineList::new(alloc),
                fault: None,
            },
            in_input: matches!(opener, Opener::Run { name: _, file: _ }),
            number: 1,
        }
    }

    /// Adds an item that neither opens nor ends a group. Behind a fault nothing is kept.
    pub fn add(&mut self, item: &Item, control: &Option<Control>) -> Result<(), NoMemory>
        ensures ok { OnOk result (self.new ≡ added self.old item.now control.now) }
        ensures err { OnErr result (self.new ≡ self.old) }
    {
        if self.kept.fault.is_some() {
            return Ok(());
        }
        match item {
            Item::Spoiled => self.spoil(CardFaultKind::Spoiled),
            Item::Line(card) => self.add_card(card, control)?,
        }
        self.number = self.number.saturating_add(1);
        Ok(())
    }

    /// Adds a card where there is no fault yet.
    fn add_card(&mut self, card: &Line, control: &Option<Control>) -> Result<(), NoMemory>
        requires { self.old.kept.fault ≡ None }
        ensures ok { OnOk result (self.new ≡ record self.old {
          kept =
              followed_by self.old.kept (item_kept self.old.opener self.old.in_input self.old.number
              (ItemOf.Line card.now) control.now);
          in_input = input_behind self.old.opener self.old.in_input (ItemOf.Line card.now) control.now;
        }) }
        ensures err { OnErr result (self.new ≡ self.old) }
    {
        if control.is_none() {
            return self.keep(card);
        }
        if self.parts_at(control) {
            self.in_input = true;
        } else {
            self.spoil(CardFaultKind::Control);
        }
        Ok(())
    }

    /// Whether the card parts a program from its input.
    fn parts_at(&self, control: &Option<Control>) -> bool
        ensures { result ≡ parts_at self.now.opener self.now.in_input control.now }
    {
        !self.in_input
            && matches!(self.opener, Opener::Job { name: _, limit: _ })
            && matches!(control, Some(Control::Data))
    }

    /// Keeps a plain card.
    fn keep(&mut self, card: &Line) -> Result<(), NoMemory>
        requires { self.old.kept.fault ≡ None }
        ensures ok { OnOk result (self.new ≡ record self.old {
          kept =
              followed_by self.old.kept (card_kept self.old.in_input card.now);
        }) }
        ensures err { OnErr result (self.new ≡ self.old) }
    {
        if self.in_input {
            self.kept.input.push(card)
        } else {
            self.kept.cards.push(card)
        }
    }

    /// Keeps the fault of the next card.
    fn spoil(&mut self, kind: CardFaultKind)
        requires { self.old.kept.fault ≡ None }
        ensures { self.new ≡ record self.old {
          kept =
              followed_by self.old.kept
              (fault_kept (record { kind = kind; card = self.old.number; in_input = self.old.in_input }));
        } }
    {
        self.kept.fault = Some(CardFault {
            kind,
            card: self.number,
            in_input: self.in_input,
        });
    }

    /// The job of the group, where nothing more comes to it.
    pub fn into_job(self) -> Job
        ensures { result ≡ job_with self.opener self.kept }
    {
        self.kept.into_job(self.opener)
    }
}
