//! The making of all that the five processes need beside the devices.
ghost use Rattle.std.specs.Prelude.{◌≡◌, ◌<◌, ◌≤◌, IfOk, IfErr};
ghost use Rattle.batch_sides.specs.Begun.{AreFresh, IsFreshDisk, IsFreshLine, IsFreshSpool};

use crate::buffers::{RunningDisk, RunningLine, RunningSpool};
use crate::gates::{Ends, Gates};
use solo_base::NoMemory;
use solo_devices::Area;
use std::alloc::Global;

/// The gates and the ends of the five processes. Where memory is refused the areas come back.
pub fn make_all<A: Area + Send, B: Area + Send>(
    alloc: Global,
    input: A,
    output: B,
) -> Result<(Gates<A, B>, Ends<A, B>), ((A, B), NoMemory)>
    requires input { (0 < A.size input) × (A.size input ≤ 256) }
    requires output { (0 < B.size output) × (B.size output ≤ 256) }
    ensures made { IfOk result (λ made.
        AreFresh (A.size made.0.input.area) (B.size made.0.output.area) made.0 made.1) }
    ensures areas { IfOk result (λ made. (made.0.input.area ≡ input) × (made.0.output.area ≡ output)) }
    ensures refused { IfErr result (λ back. back.0 ≡ (input, output)) }
{
    let (cards, lines) = match make_lines(alloc) {
        Ok(made) => made,
        Err(refused) => return Err(((input, output), refused)),
    };
    match make_disk_and_spools(alloc, input, output) {
        Ok((disk, input, output)) => Ok(apart(cards, input, output, lines, disk)),
        Err(back) => {
            cards.unmake();
            lines.unmake();
            Err(back)
        }
    }
}

// The line buffers 1 and 4.
fn make_lines(alloc: Global) -> Result<(RunningLine, RunningLine), NoMemory>
    ensures { IfOk result (λ made. IsFreshLine made.0 × IsFreshLine made.1) }
{
    let cards = RunningLine::make(alloc)?;
    match RunningLine::make(alloc) {
        Ok(lines) => Ok((cards, lines)),
        Err(refused) => {
            cards.unmake();
            Err(refused)
        }
    }
}

// The disk and the spools 2 and 3.
fn make_disk_and_spools<A: Area + Send, B: Area + Send>(
    alloc: Global,
    input: A,
    output: B,
) -> Result<(RunningDisk, RunningSpool<A>, RunningSpool<B>), ((A, B), NoMemory)>
    requires input { (0 < A.size input) × (A.size input ≤ 256) }
    requires output { (0 < B.size output) × (B.size output ≤ 256) }
    ensures disk { IfOk result (λ made. IsFreshDisk made.0) }
    ensures input { IfOk result (λ made.
        IsFreshSpool (A.size made.1.gate.area) made.1 × (made.1.gate.area ≡ input)) }
    ensures output { IfOk result (λ made.
        IsFreshSpool (B.size made.2.gate.area) made.2 × (made.2.gate.area ≡ output)) }
    ensures refused { IfErr result (λ back. back.0 ≡ (input, output)) }
{
    let disk = match RunningDisk::make(alloc) {
        Ok(disk) => disk,
        Err(refused) => return Err(((input, output), refused)),
    };
    match make_spools(alloc, input, output) {
        Ok((input, output)) => Ok((disk, input, output)),
        Err(back) => {
            disk.close();
            Err(back)
        }
    }
}

// The spools 2 and 3.
fn make_spools<A: Area + Send, B: Area + Send>(
    alloc: Global,
    input: A,
    output: B,
) -> Result<(RunningSpool<A>, RunningSpool<B>), ((A, B), NoMemory)>
    requires input { (0 < A.size input) × (A.size input ≤ 256) }
    requires output { (0 < B.size output) × (B.size output ≤ 256) }
    ensures input { IfOk result (λ made.
        IsFreshSpool (A.size made.0.gate.area) made.0 × (made.0.gate.area ≡ input)) }
    ensures output { IfOk result (λ made.
        IsFreshSpool (B.size made.1.gate.area) made.1 × (made.1.gate.area ≡ output)) }
    ensures refused { IfErr result (λ back. back.0 ≡ (input, output)) }
{
    let input = match RunningSpool::make(alloc, input) {
        Ok(made) => made,
        Err((input, refused)) => return Err(((input, output), refused)),
    };
    match RunningSpool::make(alloc, output) {
        Ok(output) => Ok((input, output)),
        Err((output, refused)) => Err(((input.unmake(), output), refused)),
    }
}

// All gates, and all ends.
fn apart<A: Area + Send, B: Area + Send>(
    cards: RunningLine,
    input: RunningSpool<A>,
    output: RunningSpool<B>,
    lines: RunningLine,
    disk: RunningDisk,
) -> (Gates<A, B>, Ends<A, B>)
    ensures cards { (result.0.cards ≡ cards.gate) × (result.1.cards ≡ (cards.sender, cards.receiver)) }
    ensures input { (result.0.input ≡ input.gate) × (result.1.input ≡ (input.sender, input.receiver)) }
    ensures output { (result.0.output ≡ output.gate) × (result.1.output ≡ (output.sender, output.receiver)) }
    ensures lines { (result.0.lines ≡ lines.gate) × (result.1.lines ≡ (lines.sender, lines.receiver)) }
    ensures disk { (result.0.disk ≡ disk.disk) × (result.1.seats ≡ disk.seats) }
{
    let RunningLine {
        gate: cards,
        sender: cards_sender,
        receiver: cards_receiver,
    } = cards;
    let RunningSpool {
        gate: input,
        sender: input_sender,
        receiver: input_receiver,
    } = input;
    let RunningSpool {
        gate: output,
        sender: output_sender,
        receiver: output_receiver,
    } = output;
    let RunningLine {
        gate: lines,
        sender: lines_sender,
        receiver: lines_receiver,
    } = lines;
    let RunningDisk { disk, seats } = disk;
    let gates = Gates {
        cards,
        input,
        output,
        lines,
        disk,
    };
    let ends = Ends {
        cards: (cards_sender, cards_receiver),
        input: (input_sender, input_receiver),
        output: (output_sender, output_receiver),
        lines: (lines_sender, lines_receiver),
        seats,
    };
    (gates, ends)
}
