//! The gates of the five processes and their ends there: made before the processes begin, and ended once all
//! have.
ghost use Rattle.batch_sides.specs.Begun.{BeginsBy};
ghost use Rattle.batch_sides.specs.Met.{AreEndsOf, AllMeet};

use crate::buffers::{RunningDisk, Seats};
use crate::card_side::CardSide;
use crate::input_side::InputSide;
use crate::job_side::JobSide;
use crate::output_side::OutputSide;
use crate::printer_side::PrinterSide;
use crate::row::Row;
use disk_spool::{SpoolGate, SpoolMet, SpoolRecv, SpoolSend};
use resource_mon::DiskResource;
use slot_buffer::{RecvEnd, SendEnd, SlotGate};
use solo_base::{Feed, Side};
use solo_devices::{Area, CardUnit, PrinterUnit, Sink, Source};

/// The gates of the buffers 1 to 4, and the disk.
pub struct Gates<A: Area + Send, B: Area + Send> {
    pub cards: SlotGate<Feed>,
    pub input: SpoolGate<A>,
    pub output: SpoolGate<B>,
    pub lines: SlotGate<Feed>,
    pub disk: DiskResource,
}

/// The ends of the five processes at these.
pub struct Ends<A: Area + Send, B: Area + Send> {
    pub cards: (SendEnd<Feed>, RecvEnd<Feed>),
    pub input: (SpoolSend<A>, SpoolRecv<A>),
    pub output: (SpoolSend<B>, SpoolRecv<B>),
    pub lines: (SendEnd<Feed>, RecvEnd<Feed>),
    pub seats: Seats,
}

/// What is left of them: the areas, and who stopped the buffers 1 to 4 first.
pub struct AllMet<A, B> {
    pub input: A,
    pub output: B,
    pub stopped_by: [Option<Side>; 4],
}

impl<A: Area + Send, B: Area + Send> Gates<A, B> {
    /// The five processes at their ends, before their first action.
    pub fn row<'a, S: Source + Drop, K: Sink + Drop, F>(
        &'a self,
        ends: Ends<A, B>,
        deck: CardUnit<S>,
        paper: PrinterUnit<K>,
        files: F,
    ) -> Row<'a, S, K, F, A, B>
        ensures { BeginsBy self.now ends deck paper files result }
    {
        let Ends {
            cards: (cards_sender, cards_receiver),
            input: (input_sender, input_receiver),
            output: (output_sender, output_receiver),
            lines: (lines_sender, lines_receiver),
            seats: Seats { input, job, output },
        } = ends;
        Row {
            cards: CardSide {
                deck,
                gate: &self.cards,
                lines: cards_sender,
            },
            pages: InputSide {
                cards_gate: &self.cards,
                cards: cards_receiver,
                pages_gate: &self.input,
                pages: input_sender,
                disk: &self.disk,
                seat: input,
            },
            jobs: JobSide {
                cards_gate: &self.input,
                cards: input_receiver,
                pages_gate: &self.output,
                pages: output_sender,
                disk: &self.disk,
                seat: job,
                files,
            },
            lines: OutputSide {
                pages_gate: &self.output,
                pages: output_receiver,
                lines_gate: &self.lines,
                lines: lines_sender,
                disk: &self.disk,
                seat: output,
            },
            paper: PrinterSide {
                gate: &self.lines,
                lines: lines_receiver,
                paper,
            },
        }
    }

    /// Ends the buffers and the disk, once the ends of each have met.
    #[inline(never)]
    pub fn meet(self, ends: Ends<A, B>) -> AllMet<A, B>
        requires { AreEndsOf (A.size self.input.area) (B.size self.output.area) self ends }
        ensures { AllMeet (A.size self.input.area) (B.size self.output.area) A.pages A.faults B.pages B.faults
            self ends result }
    {
        let Gates {
            cards,
            input,
            output,
            lines,
            disk,
        } = self;
        let Ends {
            cards: (cards_sender, cards_receiver),
            input: (input_sender, input_receiver),
            output: (output_sender, output_receiver),
            lines: (lines_sender, lines_receiver),
            seats,
        } = ends;
        RunningDisk { disk, seats }.close();
        let cards = slot_buffer::meet(cards, cards_sender, cards_receiver);
        let lines = slot_buffer::meet(lines, lines_sender, lines_receiver);
        let SpoolMet {
            area: input_area,
            left: _,
            stopped_by: input,
        } = disk_spool::meet(input, input_sender, input_receiver);
        let SpoolMet {
            area: output_area,
            left: _,
            stopped_by: output,
        } = disk_spool::meet(output, output_sender, output_receiver);
        AllMet {
            input: input_area,
            output: output_area,
            stopped_by: [cards.stopped_by, input, output, lines.stopped_by],
        }
    }
}
