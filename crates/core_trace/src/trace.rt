ghost use Rattle.network_run.specs.Law.{Placed};
ghost use Rattle.core_law.specs.TheLaw.{the_law};

use crate::board::{Board, Place, Waiting};
use crate::deed::Deed;
use crate::event::{Event, Told, happen};
use crate::fault::Fault;
use crate::frame::print_picture;
use crate::picture::Picture;
use crate::row::{HEAD, row_of};
use crate::words::{Asked, Form};
use batch_procs::{JobWork, Loader};
use net_core::{Net, Shared};
use network_run::{Counts, Network, Rule, next_by};
use solo_devices::{Area, Sink, Source};
use std::alloc::Global;

/// A run so far, and what is drawn of it where a picture is asked for.
#[derive(Drop)]
struct Run {
    rule: Rule,
    board: Board,
    counts: Counts,
    picture: Picture,
}

impl Run {
    fn new(alloc: Global, asked: Asked) -> Run {
        Run {
            rule: asked.rule,
            board: Board::new(alloc),
            counts: Counts {
                events: 0,
                delays: 0,
                grants: 0,
            },
            picture: Picture::new(alloc, asked),
        }
    }
}

/// Runs the network to its end by the rule that was asked for, and shows it.
pub fn trace<J: JobWork, S: Source, K: Sink, F: Loader<J>, A: Area, B: Area>(
    rt: &(impl Print + AllocGlobal),
    net: &mut Net<J, S, K, F, A, B>,
    asked: Asked,
) -> Result<(), Fault>
    requires { Placed (the_law J.jobs) (⟦<Net<J, S, K, F, A, B> as Network>⟧.Stands net.old) }
{
    let mut run = Run::new(rt.alloc(), asked);
    match asked.form {
        Form::Table => print_table(rt, net, asked, &mut run),
        Form::Picture => draw(rt, net, asked, &mut run),
    }
}

/// Prints a line for each event that is shown, and the counts behind them.
fn print_table<J: JobWork, S: Source, K: Sink, F: Loader<J>, A: Area, B: Area>(
    rt: &(impl Print + AllocGlobal),
    net: &mut Net<J, S, K, F, A, B>,
    asked: Asked,
    run: &mut Run,
) -> Result<(), Fault>
    requires { Placed (the_law J.jobs) (⟦<Net<J, S, K, F, A, B> as Network>⟧.Stands net.old) }
{
    println!(rt; "{HEAD}")?;
    go_through(rt, net, asked, run)?;
    let Counts {
        events,
        delays,
        grants,
    } = run.counts;
    println!(rt; "{events} events, {delays} delays, {grants} grants")?;
    Ok(())
}

/// Draws the events that are shown, and prints the picture.
fn draw<J: JobWork, S: Source, K: Sink, F: Loader<J>, A: Area, B: Area>(
    rt: &(impl Print + AllocGlobal),
    net: &mut Net<J, S, K, F, A, B>,
    asked: Asked,
    run: &mut Run,
) -> Result<(), Fault>
    requires { Placed (the_law J.jobs) (⟦<Net<J, S, K, F, A, B> as Network>⟧.Stands net.old) }
{
    go_through(rt, net, asked, run)?;
    run.picture.finish(&run.board, run.counts.events)?;
    print_picture(rt, &run.picture, asked.rule, run.counts.events)
}

/// Runs the network to its end.
fn go_through<J: JobWork, S: Source, K: Sink, F: Loader<J>, A: Area, B: Area>(
    rt: &(impl Print + AllocGlobal),
    net: &mut Net<J, S, K, F, A, B>,
    asked: Asked,
    run: &mut Run,
) -> Result<(), Fault>
    requires { Placed (the_law J.jobs) (⟦<Net<J, S, K, F, A, B> as Network>⟧.Stands net.old) }
{
    'running: for _ in 0..u64::MAX {
        if !go_on(rt, net, asked, run)? {
            break;
        }
    }
    Ok(())
}

/// Lets the next event happen, and shows it. Answers whether there was one.
fn go_on<J: JobWork, S: Source, K: Sink, F: Loader<J>, A: Area, B: Area>(
    rt: &(impl Print + AllocGlobal),
    net: &mut Net<J, S, K, F, A, B>,
    asked: Asked,
    run: &mut Run,
) -> Result<bool, Fault>
    requires { Placed (the_law J.jobs) (⟦<Net<J, S, K, F, A, B> as Network>⟧.Stands net.old) }
    ensures { Placed (the_law J.jobs) (⟦<Net<J, S, K, F, A, B> as Network>⟧.Stands net.new) }
{
    let Some(process) = next_by(net, &mut run.rule) else {
        return Ok(false);
    };
    let waited = run.board.goes_on(process);
    let event = happen(net, process, &mut run.board);
    run.counts = counted(run.counts, &event);
    show(rt, asked, run, &event, waited, &net.shared)
}

/// Notes an event and shows it, where it is one of those that are shown. Its process waited so far, if it
/// did. Answers true.
fn show<J: JobWork, S: Source, K: Sink, F: Loader<J>, A: Area, B: Area>(
    rt: &(impl Print + AllocGlobal),
    asked: Asked,
    run: &mut Run,
    event: &Event,
    waited: Option<Waiting>,
    shared: &Shared<J, S, K, F, A, B>,
) -> Result<bool, Fault> {
    let number = run.counts.events;
    run.board.note(event, number)?;
    match asked.form {
        Form::Table if asked.from <= number && number <= asked.to => {
            let row = row_of(rt.alloc(), number, event, &run.board, shared)?;
            println!(rt; "{row}")?;
        }
        Form::Table => {}
        Form::Picture => {
            note_turns(&mut run.board, number, shared);
            run.picture
                .add(event, number, waited, shared.desk.holder())?;
        }
    }
    Ok(true)
}

/// Notes to whom a turn is handed behind an event.
fn note_turns<J: JobWork, S: Source, K: Sink, F: Loader<J>, A: Area, B: Area>(
    board: &mut Board,
    number: u64,
    shared: &Shared<J, S, K, F, A, B>,
) {
    board.hand(Place::Buffer(1), shared.cards.handed(), number);
    board.hand(Place::Buffer(2), shared.input.handed(), number);
    board.hand(Place::Buffer(3), shared.output.handed(), number);
    board.hand(Place::Buffer(4), shared.lines.handed(), number);
    board.hand(Place::Disk, shared.desk.handed(), number);
}

/// The counts with one event more. A request that doesn't wait has the disk.
fn counted(counts: Counts, event: &Event) -> Counts {
    let waits = matches!(event.told, Told::Waits);
    let asks = matches!(event.deed, Deed::Request);
    Counts {
        events: counts.events.saturating_add(1),
        delays: counts.delays.saturating_add(u64::from(waits)),
        grants: counts.grants.saturating_add(u64::from(asks && !waits)),
    }
}
