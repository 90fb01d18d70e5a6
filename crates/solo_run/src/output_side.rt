ghost use Rattle.std.specs.Prelude.{◌≡◌};
ghost use Rattle.solo_run.specs.Output.{OutputMay, OutputPerforms};

use crate::ends::{Sending, Taking};
use crate::lines::print;
use solo_base::{Arg, Page};
use solo_devices::{PrinterUnit, Sink};
use solo_procs::{SoloAction, SoloReply};
use std::sync::Wait;
use std::thread::Threads;

/// What the output process is connected to: the buffers 4 to 6, and the paper.
#[derive(Drop)]
pub struct OutputSide<'a, K: Sink> {
    pub orders: Taking<'a, Arg>,
    pub pages: Taking<'a, Page>,
    pub reports: Sending<'a, Arg>,
    pub paper: PrinterUnit<K>,
}

impl<'a, K: Sink> OutputSide<'a, K> {
    /// Performs an action of the process, and waits where the other side of a buffer isn't ready.
    #[inline(always)]
    pub fn perform<R: Threads + Wait + Sync>(&mut self, action: SoloAction, rt: &R) -> SoloReply
        requires may { OutputMay self.old action }
        ensures performs { OutputPerforms K.given K.faults self.old self.new action result }
    {
        match action {
            SoloAction::TakeArg(_) => match self.orders.take(rt) {
                Ok(arg) => SoloReply::Arg(arg),
                Err(_) => SoloReply::Stopped,
            },
            SoloAction::TakePage(_) => match self.pages.take(rt) {
                Ok(page) => SoloReply::Page(page),
                Err(_) => SoloReply::Stopped,
            },
            SoloAction::Print(line) => print(&mut self.paper, &line),
            SoloAction::PutArg { buffer: _, arg } => match self.reports.put(arg, rt) {
                Ok(()) => SoloReply::Done,
                Err(_) => SoloReply::Stopped,
            },
            SoloAction::Stop(4) => {
                self.orders.stop(rt);
                SoloReply::Done
            }
            SoloAction::Stop(5) => {
                self.pages.stop(rt);
                SoloReply::Done
            }
            SoloAction::Stop(_) => {
                self.reports.stop(rt);
                SoloReply::Done
            }
            SoloAction::Ended(_) => SoloReply::Done,
            _ => unreachable!(),
        }
    }
}
