use crate::deed::Deed;
use crate::event::{Event, Told};
use batch_procs::copy_feed;
use solo_base::{BufferNo, Feed, ProcNo};
use std::alloc::{AllocError, Global};

/// Where a process may wait.
#[derive(Clone, Copy, PartialEq, Eq)]
pub enum Place {
    Buffer(BufferNo),
    Disk,
}

/// A process that waits, from this event on, and the event that handed it the turn, once one did.
#[derive(Clone, Copy)]
pub struct Waiting {
    pub process: ProcNo,
    pub place: Place,
    pub since: u64,
    pub turn: Option<u64>,
}

/// What a network doesn't tell of itself, noted from the events so far: what the line buffers 1 and 4 hold,
/// and who waits where, in order of arrival.
#[derive(Drop)]
pub struct Board {
    pub cards: Option<Feed>,
    pub lines: Option<Feed>,
    pub waiting: Vec<Waiting>,
}

impl Board {
    /// The board before the first event.
    pub fn new(alloc: Global) -> Board {
        Board {
            cards: None,
            lines: None,
            waiting: Vec::new(alloc),
        }
    }

    /// What the line buffer beside a process holds.
    pub fn slot(&mut self, process: ProcNo) -> &mut Option<Feed> {
        if process < 3 {
            &mut self.cards
        } else {
            &mut self.lines
        }
    }

    /// Notes an event that has this number.
    pub fn note(&mut self, event: &Event, number: u64) -> Result<(), AllocError> {
        let process = event.process;
        match (&event.deed, &event.told) {
            (deed, Told::Waits) => {
                if let Some(place) = place_of(process, deed) {
                    self.waiting.push(Waiting {
                        process,
                        place,
                        since: number,
                        turn: None,
                    })?;
                }
            }
            (Deed::PutFeed(feed), Told::Done) => *self.slot(process) = Some(copy_feed(feed)),
            _ => {}
        }
        Ok(())
    }

    /// Notes to whom the turn of a place is handed behind the event of this number.
    pub fn hand(&mut self, place: Place, handed: Option<ProcNo>, number: u64) {
        let Some(process) = handed else {
            return;
        };
        for at in 0..self.waiting.len() {
            let waiting = self.waiting[at];
            if waiting.place == place && waiting.process == process && waiting.turn.is_none() {
                self.waiting[at].turn = Some(number);
                return;
            }
        }
    }

    /// A process goes on. Where it waited so far, if it did.
    pub fn goes_on(&mut self, process: ProcNo) -> Option<Waiting> {
        for at in 0..self.waiting.len() {
            if self.waiting[at].process == process {
                return Some(self.waiting.remove(at));
            }
        }
        None
    }
}

/// Where a process waits that is delayed in this call.
fn place_of(process: ProcNo, deed: &Deed) -> Option<Place> {
    match deed {
        Deed::PutFeed(_) | Deed::AwaitRoom => Some(Place::Buffer(process)),
        Deed::TakeFeed | Deed::AwaitItem => Some(Place::Buffer(process.saturating_sub(1))),
        Deed::Request => Some(Place::Disk),
        _ => None,
    }
}
