// A program is judged.

use crate::cards::parted;
use pascal_check::{CheckFault, check};
use pascal_read::{parse, scan};
use solo_base::LineList;
use std::alloc::Global;
use std::process::Abort;

/// The first broken rule of a program with its line, and 0 and 0 where none is.
pub fn judged(alloc: Global, program: &LineList) -> Option<(u8, u32)> {
    let tokens = scan(alloc, program).ok()?;
    match parse(alloc, tokens) {
        Ok(tree) => match check(tree) {
            Ok(_) => Some((0, 0)),
            Err(CheckFault::Semantic { line, rule }) => Some((rule, line)),
            Err(CheckFault::NoMemory) => None,
        },
        Err(_) => None,
    }
}

/// A row of a table: the rule, the line, and the program, whose cards are parted by `/`.
pub type Row = (u8, u32, &'static str);

/// Each row of a table.
pub fn judge_all(rt: &impl Abort, alloc: Global, table: &[Row]) {
    for (rule, line, text) in table {
        let program = parted(rt, alloc, text);
        let found = judged(alloc, &program);
        assert!(rt; found == Some((*rule, *line)), "{found:?}: {text}");
    }
}

/// Each row of a table, with each of these names in the place of `?`.
pub fn judge_each(rt: &impl Abort, alloc: Global, names: &[&str], table: &[Row]) {
    for name in names {
        for row in table {
            judge_named(rt, alloc, name, row);
        }
    }
}

fn judge_named(rt: &impl Abort, alloc: Global, name: &str, (rule, line, text): &Row) {
    let text = text.replace(alloc, '?', name).ok().expect(rt, "memory");
    let program = parted(rt, alloc, text.as_str());
    let found = judged(alloc, &program);
    assert!(rt; found == Some((*rule, *line)), "{found:?}: {text}");
}
