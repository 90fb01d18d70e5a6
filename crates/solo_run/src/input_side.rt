ghost use Rattle.std.specs.Prelude.{◌≡◌};
ghost use Rattle.solo_run.specs.Input.{InputMay, InputPerforms};

use crate::ends::{Sending, Taking};
use crate::lines::read;
use solo_base::{Arg, Page};
use solo_devices::{CardUnit, Source};
use solo_procs::{SoloAction, SoloReply};
use std::sync::Wait;
use std::thread::Threads;

/// What the input process is connected to: the cards, and the buffers 1 to 3.
#[derive(Drop)]
pub struct InputSide<'a, S: Source> {
    pub cards: CardUnit<S>,
    pub orders: Taking<'a, Arg>,
    pub pages: Sending<'a, Page>,
    pub reports: Sending<'a, Arg>,
}

impl<'a, S: Source> InputSide<'a, S> {
    /// Performs an action of the process, and waits where the other side of a buffer isn't ready.
    #[inline(always)]
    pub fn perform<R: Threads + Wait + Sync>(&mut self, action: SoloAction, rt: &R) -> SoloReply
        requires may { InputMay self.old action }
        ensures performs { InputPerforms S.left S.taken S.faults self.old self.new action result }
    {
        match action {
            SoloAction::TakeArg(_) => match self.orders.take(rt) {
                Ok(arg) => SoloReply::Arg(arg),
                Err(_) => SoloReply::Stopped,
            },
            SoloAction::ReadCard => SoloReply::Card(read(&mut self.cards)),
            SoloAction::PutPage { buffer: _, page } => match self.pages.put(page, rt) {
                Ok(()) => SoloReply::Done,
                Err(_) => SoloReply::Stopped,
            },
            SoloAction::PutArg { buffer: _, arg } => match self.reports.put(arg, rt) {
                Ok(()) => SoloReply::Done,
                Err(_) => SoloReply::Stopped,
            },
            SoloAction::Stop(1) => {
                self.orders.stop(rt);
                SoloReply::Done
            }
            SoloAction::Stop(2) => {
                self.pages.stop(rt);
                SoloReply::Done
            }
            SoloAction::Stop(_) => {
                self.reports.stop(rt);
                SoloReply::Done
            }
            SoloAction::Ended(_) => SoloReply::Done,
            _ => unreachable!(),
        }
    }
}
