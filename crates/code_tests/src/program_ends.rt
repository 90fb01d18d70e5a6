// A program with its input, and how it ends.

use crate::cards::{cards_of, joined};
use pascal_compile::compile;
use pascal_evaluate::evaluate;
use pascal_mean::BatchWorld;
use pascal_read::{parse, scan};
use pascal_tree::Tree;
use solo_base::{LineList, ProgResult};
use stack_machine::{Finish, Machine, Pause};
use std::alloc::Global;
use std::process::Abort;

/// The limit of ticks where no other is named.
pub const MANY: u32 = 1_000_000;

/// A program, and how it ends: with a result in a line, after so many ticks, and with what it
/// printed, each line ended by `/`. The cards of a program end with a line feed.
pub type Row = (&'static str, ProgResult, u32, u32, &'static str);

/// How a program ended, and what it printed, each line ended by `/`.
#[derive(Drop)]
struct End {
    result: ProgResult,
    line: u32,
    ticks: u32,
    printed: Vec<u8>,
}

/// Each program ends so with no card as its input.
pub fn each_ends(rt: &impl Abort, alloc: Global, rows: &[Row]) {
    for row in rows {
        ends_as(rt, alloc, row, "", MANY);
    }
}

/// Each program ends so with these cards as its input and under this limit of ticks.
pub fn each_ends_with(rt: &impl Abort, alloc: Global, rows: &[(&str, u32, Row)]) {
    for (input, limit, row) in rows {
        ends_as(rt, alloc, row, input, *limit);
    }
}

/// A program ends as its row says.
fn ends_as(rt: &impl Abort, alloc: Global, row: &Row, input: &str, limit: u32) {
    let other = ends(alloc, row, input, limit).unwrap_or(Some("it has no end"));
    assert!(rt; other.is_none(), "{other:?}: {}", row.0);
}

/// What is otherwise than a program's row says with these cards as its input and under a limit of ticks.
fn ends(alloc: Global, row: &Row, input: &str, limit: u32) -> Option<Option<&'static str>> {
    let cards = cards_of(alloc, row.0)?;
    let input = cards_of(alloc, input)?;
    let found = evaluated(alloc, &cards, &input, limit)?;
    let other = other_end(&found, row);
    if other.is_some() {
        return Some(other);
    }
    code_ends(alloc, &cards, &input, [limit, row.3])
}

/// What is otherwise at an end than its row says.
fn other_end(found: &End, row: &Row) -> Option<&'static str> {
    let (_, result, line, ticks, printed) = *row;
    if found.result != result {
        return Some("another result");
    }
    if found.line != line {
        return Some("another line");
    }
    if found.ticks != ticks {
        return Some("other ticks");
    }
    if found.printed.as_slice() != printed.as_bytes() {
        return Some("other lines");
    }
    None
}

/// Whether the code of a program ends otherwise than the program: under a limit, under the ticks that it
/// takes, and under one less and one more.
fn code_ends(
    alloc: Global,
    cards: &LineList,
    input: &LineList,
    [limit, ticks]: [u32; 2],
) -> Option<Option<&'static str>> {
    for near in [
        limit,
        ticks.saturating_sub(1),
        ticks,
        ticks.saturating_add(1),
    ] {
        if !ends_alike(alloc, cards, input, near)? {
            return Some(Some("its code ends otherwise"));
        }
    }
    Some(None)
}

/// Whether the code of a program ends as the program does.
fn ends_alike(alloc: Global, cards: &LineList, input: &LineList, limit: u32) -> Option<bool> {
    let wanted = evaluated(alloc, cards, input, limit)?;
    let found = ran(alloc, cards, input, limit)?;
    Some(is_same(&found, &wanted))
}

fn is_same(one: &End, other: &End) -> bool {
    one.result == other.result
        && one.line == other.line
        && one.ticks == other.ticks
        && one.printed.as_slice() == other.printed.as_slice()
}

/// The tree of a program.
fn tree_of(alloc: Global, cards: &LineList) -> Option<Tree> {
    let tokens = scan(alloc, cards).ok()?;
    parse(alloc, tokens).ok()
}

/// How a program ends where its tree is evaluated.
fn evaluated(alloc: Global, cards: &LineList, input: &LineList, limit: u32) -> Option<End> {
    match tree_of(alloc, cards) {
        Some(tree) => end_of_tree(alloc, &tree, input, limit),
        None => None,
    }
}

fn end_of_tree(alloc: Global, tree: &Tree, input: &LineList, limit: u32) -> Option<End> {
    let found = evaluate(&tree.program, input, limit).ok()?;
    let printed = joined(alloc, &found.output).ok()?;
    Some(End {
        result: found.result,
        line: found.line,
        ticks: found.ticks,
        printed,
    })
}

/// How a program ends where its code is run.
fn ran(alloc: Global, cards: &LineList, input: &LineList, limit: u32) -> Option<End> {
    let code = compile(alloc, cards).ok()?;
    match Machine::make(alloc, code, limit) {
        Ok(mut machine) => end_of_run(alloc, &mut machine, input, limit),
        Err(_) => None,
    }
}

fn end_of_run(alloc: Global, machine: &mut Machine, input: &LineList, limit: u32) -> Option<End> {
    let mut world = BatchWorld::of(alloc, input).ok()?;
    match finish_of(machine, &mut world, limit) {
        Some(finish) => end_of_world(alloc, finish, world),
        None => None,
    }
}

/// How the program of a machine finishes, if it does in as many calls as it may have ticks: each takes one.
fn finish_of(machine: &mut Machine, world: &mut BatchWorld, limit: u32) -> Option<Finish> {
    for _ in 0..limit.saturating_add(1) {
        match machine.go() {
            Pause::Call(call) => {
                let reply = world.answer(&call).ok()?;
                machine.answer(reply);
            }
            Pause::Finished(finish) => return Some(finish),
        }
    }
    None
}

fn end_of_world(alloc: Global, finish: Finish, world: BatchWorld) -> Option<End> {
    let output = world.finish().ok()?;
    let printed = joined(alloc, &output).ok()?;
    Some(End {
        result: finish.result,
        line: finish.line,
        ticks: finish.ticks,
        printed,
    })
}
