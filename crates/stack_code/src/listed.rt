ghost use Rattle.std.specs.Prelude.{◌≡◌, IfOk};
ghost use Rattle.stack_code.specs.Listing.{instr_line, listing_of};

use crate::{Code, Instr};
use solo_base::{Line, LineList, NoMemory};
use std::alloc::Global;

/// A line for each instruction: its name and both operands, in decimal and without a sign.
pub fn listing(alloc: Global, code: &Code) -> Result<LineList, NoMemory>
    ensures { IfOk result (λ lines. lines ≡ listing_of code.now) }
{
    let mut lines = LineList::new(alloc);
    for instr in code.instrs() {
        lines.push(&line_of(instr))?;
    }
    Ok(lines)
}

fn line_of(instr: &Instr) -> Line
    ensures { result ≡ instr_line instr.now }
{
    let mut line = Line::new();
    line.append(instr.op.name().as_bytes());
    line.push(b' ');
    line.append_number(u32::from(instr.a));
    line.push(b' ');
    line.append_number(u32::from(instr.b));
    line
}
