use crate::board::{Board, Place};
use crate::event::Event;
use crate::said::{name_of, write_deed, write_feed, write_told};
use batch_procs::{JobWork, Loader};
use net_core::Shared;
use solo_base::{BufferNo, Feed, ProcNo};
use solo_devices::{Area, Sink, Source};
use std::alloc::{AllocError, Global};

/// The names of the columns. A number behind a `w` is a process that waits there, in order of arrival; one
/// behind a `t` is the process to which the turn there is handed, which goes next.
pub const HEAD: &str =
    "event process  what it does -> what came of it    1 cards         2 in   3 out  4 lines         disk";

/// How wide the columns are: what is done and what came of it, a line buffer, a spool.
const ACTS: usize = 36;

const LINES: usize = 16;

const PAGES: usize = 7;

/// The line of an event, with what the buffers and the disk hold behind it.
pub fn row_of<J: JobWork, S: Source, K: Sink, F: Loader<J>, A: Area, B: Area>(
    alloc: Global,
    number: u64,
    event: &Event,
    board: &Board,
    shared: &Shared<J, S, K, F, A, B>,
) -> Result<String, AllocError> {
    let mut row = String::new(alloc);
    write_row(&mut row, number, event, board, shared)?;
    Ok(row)
}

fn write_row<J: JobWork, S: Source, K: Sink, F: Loader<J>, A: Area, B: Area>(
    row: &mut String,
    number: u64,
    event: &Event,
    board: &Board,
    shared: &Shared<J, S, K, F, A, B>,
) -> Result<(), AllocError> {
    write_event(row, number, event)?;
    write_slot(row, board, 1, &board.cards, shared.cards.handed())?;
    write_spool(row, board, 2, shared.input.left(), shared.input.handed())?;
    write_spool(row, board, 3, shared.output.left(), shared.output.handed())?;
    write_slot(row, board, 4, &board.lines, shared.lines.handed())?;
    write_disk(row, board, shared.desk.holder(), shared.desk.handed())
}

/// Who did what, and what came of it.
fn write_event(row: &mut String, number: u64, event: &Event) -> Result<(), AllocError> {
    let process = event.process;
    let name = name_of(process);
    write!(row, "{number:>5} {process} {name:<8}")?;
    let start = row.len();
    write_deed(row, &event.deed)?;
    row.push_str(" -> ")?;
    write_told(row, &event.told)?;
    fill(row, start, ACTS)
}

/// What a line buffer holds.
fn write_slot(
    row: &mut String,
    board: &Board,
    buffer: BufferNo,
    held: &Option<Feed>,
    handed: Option<ProcNo>,
) -> Result<(), AllocError> {
    let start = row.len();
    match held {
        Some(feed) => write_feed(row, feed)?,
        None => row.push('-')?,
    }
    write_queue(row, board, Place::Buffer(buffer), handed)?;
    fill(row, start, LINES)
}

/// How many pages a spool holds.
fn write_spool(
    row: &mut String,
    board: &Board,
    buffer: BufferNo,
    pages: u16,
    handed: Option<ProcNo>,
) -> Result<(), AllocError> {
    let start = row.len();
    write!(row, "{pages}")?;
    write_queue(row, board, Place::Buffer(buffer), handed)?;
    fill(row, start, PAGES)
}

/// Who has the disk.
fn write_disk(
    row: &mut String,
    board: &Board,
    holder: Option<ProcNo>,
    handed: Option<ProcNo>,
) -> Result<(), AllocError> {
    match holder {
        Some(process) => write!(row, "{process}")?,
        None => row.push('-')?,
    }
    write_queue(row, board, Place::Disk, handed)
}

/// Who waits at a place, and to whom the turn is handed there.
fn write_queue(
    row: &mut String,
    board: &Board,
    place: Place,
    handed: Option<ProcNo>,
) -> Result<(), AllocError> {
    for waiting in board.waiting.iter() {
        if waiting.place == place && handed != Some(waiting.process) {
            write!(row, " w{}", waiting.process)?;
        }
    }
    match handed {
        Some(process) => write!(row, " t{process}"),
        None => Ok(()),
    }
}

/// Fills a column that began here up to its width.
fn fill(row: &mut String, start: usize, width: usize) -> Result<(), AllocError> {
    let written = row.len().saturating_sub(start);
    for _ in written..width {
        row.push(' ')?;
    }
    Ok(())
}
