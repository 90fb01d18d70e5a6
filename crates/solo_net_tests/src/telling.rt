// What is told of a run: its events, and how it ended.
use solo_base::{BufferNo, Cause, Outcome, ProcNo, Side};
use solo_devices::{MemSink, MemSource};
use solo_net::SoloNet;
use solo_procs::{Commands, Machine, Proc, SoloAction};

/// A network whose next events can be told.
pub trait Shown {
    /// The next event of a process: its number, a letter for what it does, and the buffer, if there is one.
    fn event(&self, p: ProcNo) -> [u8; 3];
}

impl<C: Commands> Shown for SoloNet<C, MemSource, MemSource, MemSink, MemSink> {
    fn event(&self, p: ProcNo) -> [u8; 3] {
        let [letter, buffer] = if p == 1 {
            next_of(&self.input)
        } else if p == 2 {
            next_of(&self.job)
        } else {
            next_of(&self.output)
        };
        [digit(p), letter, buffer]
    }
}

fn next_of<P: Proc>(machine: &Machine<P>) -> [u8; 2] {
    code_of(&machine.next())
}

fn digit(number: u8) -> u8 {
    b'0' + number % 10
}

fn at(letter: u8, buffer: BufferNo) -> [u8; 2] {
    [letter, digit(buffer)]
}

// `p` puts, `t` takes and `s` stops at a buffer.
fn code_of(action: &SoloAction) -> [u8; 2] {
    match action {
        SoloAction::Accept => *b"A ",
        SoloAction::Display(_) => *b"D ",
        SoloAction::ReadCard => *b"R ",
        SoloAction::Print(_) => *b"P ",
        SoloAction::Work => *b"W ",
        SoloAction::Ended(_) => *b"E ",
        SoloAction::PutArg { buffer, .. } => at(b'p', *buffer),
        SoloAction::PutPage { buffer, .. } => at(b'p', *buffer),
        SoloAction::TakeArg(buffer) => at(b't', *buffer),
        SoloAction::TakePage(buffer) => at(b't', *buffer),
        SoloAction::Stop(buffer) => at(b's', *buffer),
    }
}

/// The word for an outcome.
pub fn outcome_text(outcome: Outcome) -> &'static str {
    match outcome {
        Outcome::Done => "Done",
        Outcome::Stopped => "Stopped",
        Outcome::Fault(Cause::ReadFault) => "ReadFault",
        Outcome::Fault(Cause::DiskFault) => "DiskFault",
        Outcome::Fault(Cause::PrintFault) => "PrintFault",
        Outcome::Fault(Cause::ConsoleFault) => "ConsoleFault",
        Outcome::Fault(Cause::DeckLimit) => "DeckLimit",
        Outcome::Fault(_) => "another fault",
    }
}

/// `s` where the sender stopped a buffer first, `r` where the receiver did, and `-` where neither.
pub fn side_text(side: Option<Side>) -> char {
    match side {
        Some(Side::Sender) => 's',
        Some(Side::Receiver) => 'r',
        None => '-',
    }
}
