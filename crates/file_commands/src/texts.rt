// Texts: of card files, and as the lines that are printed.
ghost use Rattle.std.specs.Prelude.{◌≡◌, ◌++◌, ◌∷◌, [], ◌+◌, ◌<◌, ◌≤◌, ℕ, List, length, take, drop, false, IsTrue, IfOk, OnOk};
ghost use Rattle.std.specs.List.{list_all};
ghost use Rattle.solo_base.specs.Line.{is_printable, IsLine};
ghost use Rattle.solo_base.specs.Text.{text, line_text};
ghost use Rattle.disk_contents.specs.Contents.{IsText, text_bytes};
ghost use Rattle.pascal_mean.specs.Batch.{shown, nothing_printed, with_characters, with_character, lines_in};
ghost use Rattle.batch_program.specs.Printing.{Prints};
ghost use Rattle.file_commands.specs.Texts.{IsAdded, AreAdded, ReadsOn, printed_so_far};

use solo_base::{LINE_LENGTH, Line, LineList, NoMemory, PAGE_LENGTH, first_place, is_printable};
use std::alloc::Global;
use std::mem;

/// The text of cards: each, followed by code 10.
pub fn text_of_cards(alloc: Global, cards: &LineList) -> Result<Vec<u8>, NoMemory>
    ensures text { IfOk result (λ bytes. bytes.items ≡ text cards.now) }
    ensures is_text { IfOk result (λ bytes. IsText bytes.items) }
{
    let mut bytes = Vec::new(alloc);
    for place in 0..cards.len() {
        add_card(&mut bytes, &cards.get(place))?;
    }
    Ok(bytes)
}

fn add_card(bytes: &mut Vec<u8>, card: &Line) -> Result<(), NoMemory>
    ensures added { OnOk result (bytes.new.items ≡ bytes.old.items ++ line_text card.now) }
    ensures line { IsLine card.now }
{
    bytes.extend_from_slice(card.bytes())?;
    bytes.push(b'\n')?;
    Ok(())
}

/// The byte that ends a text in its file.
const TEXT_END: u8 = 25;

/// The lines of a text that is read piece by piece, the line in hand, and whether the text has ended.
#[derive(Drop)]
pub struct Reading {
    lines: LineList,
    line: Line,
    ended: bool,
}

impl Reading {
    /// Of a text of which nothing was read.
    pub fn new(alloc: Global) -> Reading
        ensures nothing { printed_so_far result ≡ nothing_printed }
        ensures going { result.ended ≡ false }
    {
        Reading {
            lines: LineList::new(alloc),
            line: Line::new(),
            ended: false,
        }
    }

    /// Reads a piece, up to the byte that ends the text.
    pub fn read(&mut self, piece: &[u8]) -> Result<(), NoMemory>
        ensures { OnOk result (ReadsOn self.old piece.now self.new) }
    {
        if self.ended {
            return Ok(());
        }
        let end = first_place(piece, TEXT_END);
        self.ended = end < piece.len();
        add_text(&mut self.lines, &mut self.line, &piece[..end])
    }

    /// All lines, the one in hand too, where it isn't empty.
    pub fn finish(self) -> Result<LineList, NoMemory>
        ensures { IfOk result (λ all. all ≡ lines_in (printed_so_far self)) }
    {
        let Reading {
            lines,
            line,
            ended: _,
        } = self;
        add_last(lines, &line)
    }
}

/// The lines that the characters of a text make: code 10 ends one, and so does the 133rd character.
pub fn lines_of_text(alloc: Global, text: &[u8]) -> Result<LineList, NoMemory>
    ensures { IfOk result (λ lines. lines ≡ lines_in (with_characters nothing_printed text.now)) }
{
    let mut lines = LineList::new(alloc);
    let mut line = Line::new();
    add_text(&mut lines, &mut line, text)?;
    add_last(lines, &line)
}

// Adds the characters of a text to the line in hand, and the lines that they complete to those before.
fn add_text(lines: &mut LineList, line: &mut Line, text: &[u8]) -> Result<(), NoMemory>
    ensures { OnOk result (AreAdded lines.old line.old text.now lines.new line.new) }
{
    'printing: for code in text {
        add_character(lines, line, *code)?;
    }
    Ok(())
}

/// A text as its file has it: behind it the byte that ends it, and zeros up to the end of the page.
pub fn with_end(text: Vec<u8>) -> Result<Vec<u8>, NoMemory>
    ensures { IfOk result (λ bytes. bytes.items ≡ text_bytes text.items) }
{
    let mut bytes = text;
    bytes.push(TEXT_END)?;
    bytes.resize(bytes.len().next_multiple_of(PAGE_LENGTH), 0)?;
    Ok(bytes)
}

// Adds a character to the line in hand, and a line that it completes to those before.
fn add_character(lines: &mut LineList, line: &mut Line, code: u8) -> Result<(), NoMemory>
    ensures { OnOk result (IsAdded lines.old line.old code lines.new line.new) }
{
    match print(line, code) {
        Some(full) => lines.push(&full),
        None => Ok(()),
    }
}

// These lines, and behind them the one in hand, where it isn't empty.
fn add_last(lines: LineList, line: &Line) -> Result<LineList, NoMemory>
    ensures { IfOk result (λ all. all ≡ lines_in (record { lines = lines; line = line.now })) }
{
    let mut lines = lines;
    if line.is_empty() {
        return Ok(lines);
    }
    match lines.push(line) {
        Ok(()) => Ok(lines),
        Err(refused) => Err(refused),
    }
}

/// Prints a character behind the line in hand. A line that it completes is given.
pub fn print(line: &mut Line, code: u8) -> Option<Line>
    ensures { Prints line.old (code ∷ []) result line.new }
{
    if code == b'\n' {
        return Some(mem::replace(line, Line::new()));
    }
    if line.len() < LINE_LENGTH {
        line.push(shown(code));
        return None;
    }
    let full = mem::replace(line, Line::new());
    line.push(shown(code));
    Some(full)
}

// The character that is printed for a code.
fn shown(code: u8) -> u8
    ensures value { result ≡ shown code }
    ensures printable { IsTrue (is_printable result) }
{
    if is_printable(code) { code } else { b'?' }
}
