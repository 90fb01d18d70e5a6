// What the three processes share.
ghost use Rattle.std.specs.Prelude.{Some};
ghost use Rattle.solo_net.specs.Telling.{solo_telling};
ghost use Rattle.solo_net.specs.Actions.{unsaid};
ghost use Rattle.solo_net.specs.Sharing.{SoloMayPerform, Performs};

use crate::{Buffers, print_reply};
use solo_base::ProcNo;
use solo_devices::{CardRead, Sink, Source};
use solo_ends::SoloUnits;
use solo_procs::{SoloAction, SoloReply};

/// What the three processes share: what Solo works with, and the six buffers.
#[derive(Drop)]
pub struct Shared<S: Source, Y: Source, K: Sink, T: Sink, F> {
    pub units: SoloUnits<S, Y, K, T, F>,
    pub buffers: Buffers,
}

impl<S: Source, Y: Source, K: Sink, T: Sink, F> Shared<S, Y, K, T, F> {
    /// Performs the action of a process, which is no piece of work. No reply: the process waits.
    pub fn perform(&mut self, p: ProcNo, action: SoloAction) -> Option<SoloReply>
        requires may { SoloMayPerform self.old p (unsaid action) }
        ensures performs { Performs
            (solo_telling S.left S.taken S.faults Y.left Y.taken Y.faults
            K.given K.faults T.given T.faults)
            self.old self.new p (unsaid action) result }
    {
        match action {
            SoloAction::Accept => {
                let answer = self.units.typewriter.accept();
                is_line(&answer);
                Some(SoloReply::Card(answer))
            }
            SoloAction::Display(line) => { Some(print_reply(self.units.typewriter.display(&line))) }
            SoloAction::ReadCard => {
                let answer = self.units.cards.read();
                is_line(&answer);
                Some(SoloReply::Card(answer))
            }
            SoloAction::Print(line) => Some(print_reply(self.units.paper.print(&line))),
            SoloAction::PutArg { buffer, arg } => self.buffers.put_arg(p, buffer, arg),
            SoloAction::TakeArg(buffer) => self.buffers.take_arg(p, buffer),
            SoloAction::PutPage { buffer, page } => self.buffers.put_page(p, buffer, page),
            SoloAction::TakePage(buffer) => self.buffers.take_page(p, buffer),
            SoloAction::Work => unreachable!(),
            SoloAction::Stop(buffer) => {
                self.buffers.stop(p, buffer);
                Some(SoloReply::Done)
            }
            SoloAction::Ended(_) => Some(SoloReply::Done),
        }
    }
}

ghost use Rattle.solo_law.specs.Replies.{IsLineRead};

/// What is read of a card is a line. Nothing is done here: the contract tells it of the line.
fn is_line(answer: &CardRead)
    ensures { IsLineRead answer.now }
{
    match answer {
        CardRead::Card(line) => {
            let _ = line.bytes();
        }
        CardRead::Spoiled => {}
        CardRead::End => {}
        CardRead::Failed => {}
        CardRead::Limit => {}
    }
}
