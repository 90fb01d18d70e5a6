// The lines that say how a program ended, or why there was none to run.
ghost use Rattle.std.specs.Prelude.{◌≡◌, ◌≤◌, ◌+◌, ◌++◌, length, IsTrue, IfOk};
ghost use Rattle.std.specs.List.{list_all};
ghost use Rattle.solo_base.specs.Line.{is_printable};
ghost use Rattle.solo_base.specs.Blanks.{trimmed};
ghost use Rattle.code_law.specs.Compiling.{Compiling};
ghost use Rattle.pascal_compile.specs.Faults.{Explains};
ghost use Rattle.program_lines.specs.Task.{source_of, Says};
ghost use Rattle.code_law.specs.Texts.{note, numbered_note, result_line, semantic_line};
ghost use Rattle.code_law.specs.Texts.{no_file_line, not_code_line, bad_code_line};

use pascal_compile::CompileFault;
use solo_base::{Ident, Line, NoMemory, ProgResult};

/// `SUM: OVERFLOW IN LINE 3`
pub fn result_line(name: &Ident, how: ProgResult, line: u32) -> Line
    ensures { result ≡ result_line name.now how line }
{
    match how {
        ProgResult::Terminated => note(name, b": TERMINATED"),
        ProgResult::Overflow => numbered_note(name, b": OVERFLOW IN LINE ", line),
        ProgResult::RangeError => numbered_note(name, b": RANGE ERROR IN LINE ", line),
        ProgResult::StackLimit => numbered_note(name, b": STACK LIMIT IN LINE ", line),
        ProgResult::CodeLimit => note(name, b": CODE LIMIT"),
        ProgResult::TimeLimit => numbered_note(name, b": TIME LIMIT IN LINE ", line),
        ProgResult::CallError => numbered_note(name, b": CALL ERROR IN LINE ", line),
    }
}

/// Why some cards have no code: `SUM: SYNTAX ERROR IN LINE 1`
pub fn compile_line(name: &Ident, fault: CompileFault) -> Result<Line, NoMemory>
    ensures { (c : Compiling) → Explains fault c
        → IfOk result (λ line. source_of name.now c ≡ Says line) }
{
    match fault {
        CompileFault::BadWord { line } => Ok(numbered_note(name, b": BAD WORD IN LINE ", line)),
        CompileFault::Syntax { line } => Ok(numbered_note(name, b": SYNTAX ERROR IN LINE ", line)),
        CompileFault::Semantic { line, rule } => Ok(semantic_line(name, line, rule)),
        CompileFault::CodeLimit => Ok(note(name, b": CODE LIMIT")),
        CompileFault::NoMemory => Err(NoMemory),
    }
}

/// `SUM: NO FILE`
pub fn no_file_line(name: &Ident) -> Line
    ensures { result ≡ no_file_line name.now }
{
    note(name, b": NO FILE")
}

/// `SUM: NOT CODE`
pub fn not_code_line(name: &Ident) -> Line
    ensures { result ≡ not_code_line name.now }
{
    note(name, b": NOT CODE")
}

/// `SUM: BAD CODE AT 12`, for the byte of the file.
pub fn bad_code_line(name: &Ident, at: u32) -> Line
    ensures { result ≡ bad_code_line name.now at }
{
    numbered_note(name, b": BAD CODE AT ", at)
}

/// `SUM: SEMANTIC ERROR 2 IN LINE 4`
fn semantic_line(name: &Ident, line: u32, rule: u8) -> Line
    ensures { result ≡ semantic_line name.now line rule }
{
    let mut text = numbered_note(name, b": SEMANTIC ERROR ", u32::from(rule));
    text.append(b" IN LINE ");
    text.append_number(line);
    text
}

/// The name with this text behind it.
pub fn note(name: &Ident, text: &[u8]) -> Line
    requires room { length text.now ≤ 40 }
    requires printable { IsTrue (list_all is_printable text.now) }
    ensures note { result ≡ note name.now text.now }
    ensures short { length result ≤ 12 + length text.now }
{
    let mut line = Line::new();
    line.append(name.name());
    line.append(text);
    line
}

/// The name with this text and a number behind it.
fn numbered_note(name: &Ident, text: &[u8], number: u32) -> Line
    requires room { length text.now ≤ 40 }
    requires printable { IsTrue (list_all is_printable text.now) }
    ensures note { result ≡ numbered_note name.now text.now number }
    ensures short { length result ≤ 22 + length text.now }
{
    let mut line = note(name, text);
    line.append_number(number);
    line
}
