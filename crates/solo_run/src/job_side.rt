ghost use Rattle.std.specs.Prelude.{◌≡◌};
ghost use Rattle.solo_run.specs.Job.{JobAtGates, JobMay, JobPerforms, job_stopped};

use crate::ends::{Sending, Taking};
use crate::lines::{accept, display};
use solo_base::{Arg, BufferNo, Page};
use solo_devices::{Sink, Source, Typewriter};
use solo_procs::{SoloAction, SoloReply};
use std::sync::Wait;
use std::thread::Threads;

/// What the job process is connected to: the typewriter, the files, and all six buffers.
#[derive(Drop)]
pub struct JobSide<'a, Y: Source, T: Sink, F> {
    pub typewriter: Typewriter<Y, T>,
    pub files: F,
    pub card_orders: Sending<'a, Arg>,
    pub cards: Taking<'a, Page>,
    pub card_reports: Taking<'a, Arg>,
    pub print_orders: Sending<'a, Arg>,
    pub pages: Sending<'a, Page>,
    pub print_reports: Taking<'a, Arg>,
}

impl<'a, Y: Source, T: Sink, F> JobSide<'a, Y, T, F> {
    /// Performs an action of the process that isn't its own work, and waits where the other side of a buffer
    /// isn't ready.
    #[inline(always)]
    pub fn perform<R: Threads + Wait + Sync>(&mut self, action: SoloAction, rt: &R) -> SoloReply
        requires may { JobMay self.old action }
        ensures performs { JobPerforms Y.left Y.taken Y.faults T.given T.faults self.old self.new action result }
    {
        match action {
            SoloAction::Accept => SoloReply::Card(accept(&mut self.typewriter)),
            SoloAction::Display(line) => display(&mut self.typewriter, &line),
            SoloAction::PutArg { buffer: 1, arg } => match self.card_orders.put(arg, rt) {
                Ok(()) => SoloReply::Done,
                Err(_) => SoloReply::Stopped,
            },
            SoloAction::PutArg { buffer: _, arg } => match self.print_orders.put(arg, rt) {
                Ok(()) => SoloReply::Done,
                Err(_) => SoloReply::Stopped,
            },
            SoloAction::TakeArg(3) => match self.card_reports.take(rt) {
                Ok(arg) => SoloReply::Arg(arg),
                Err(_) => SoloReply::Stopped,
            },
            SoloAction::TakeArg(_) => match self.print_reports.take(rt) {
                Ok(arg) => SoloReply::Arg(arg),
                Err(_) => SoloReply::Stopped,
            },
            SoloAction::PutPage { buffer: _, page } => match self.pages.put(page, rt) {
                Ok(()) => SoloReply::Done,
                Err(_) => SoloReply::Stopped,
            },
            SoloAction::TakePage(_) => match self.cards.take(rt) {
                Ok(page) => SoloReply::Page(page),
                Err(_) => SoloReply::Stopped,
            },
            SoloAction::Stop(buffer) => self.stop(buffer, rt),
            SoloAction::Ended(_) => SoloReply::Done,
            _ => unreachable!(),
        }
    }

    // Stops a buffer.
    fn stop<R: Threads + Wait + Sync>(&mut self, buffer: BufferNo, rt: &R) -> SoloReply
        requires { JobAtGates self.old }
        ensures { (self.new ≡ job_stopped buffer self.old) × (result ≡ SoloReply.Done) }
    {
        match buffer {
            1 => self.card_orders.stop(rt),
            2 => self.cards.stop(rt),
            3 => self.card_reports.stop(rt),
            4 => self.print_orders.stop(rt),
            5 => self.pages.stop(rt),
            _ => self.print_reports.stop(rt),
        }
        SoloReply::Done
    }
}
