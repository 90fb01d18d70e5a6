// The lines of a text as the cards of a program, and the first of them that is none.
ghost use Rattle.std.specs.Prelude.{◌≡◌, ◌++◌, ◌+◌, ◌≤◌, ◌==◌, ℕ, List, [], ◌∷◌, drop, length, OnOk, IfOk, IfErr};
ghost use Rattle.pascal_read.specs.Scan.{words};
ghost use Rattle.code_law.specs.Compiling.{bad_word};
ghost use Rattle.pascal_compile.specs.Faults.{Explains};
ghost use Rattle.solo_task.specs.Compiles.{compiling_text, first_bad};
ghost use Rattle.session_work.specs.Cards.{NextCard, card_of, ReadSo, closing, IsCodeOfText};

use pascal_compile::{CompileFault, compile};
use pascal_read::{ScanFault, scan};
use solo_base::{Line, LineList, NoMemory, first_place};
use stack_code::Verified;
use std::alloc::Global;

/// The part of a text that is still to be read, and the number of its first line.
#[derive(Drop)]
pub struct TextLines<'a> {
    pub rest: &'a [u8],
    pub line: u32,
}

/// The next line of a text, or `None` where there is none, or where it is no card: too long, or with a
/// character that doesn't print.
fn next_card(text: &mut TextLines<'_>) -> Option<Line>
    ensures { NextCard text.old.rest.now text.old.line result text.new.rest.now text.new.line }
{
    let end = first_place(text.rest, b'\n');
    let Some(card) = card_before(text.rest, end) else {
        return None;
    };
    text.rest = behind(text.rest, end);
    text.line = text.line.saturating_add(1);
    Some(card)
}

// The card that ends at a place of a text.
fn card_before(text: &[u8], end: usize) -> Option<Line>
    requires { end ≤ length text.now }
    ensures { result ≡ card_of text.now end }
{
    if text.is_empty() {
        return None;
    }
    Line::of(&text[..end])
}

// What stands behind a line that ends at this place.
fn behind(text: &[u8], end: usize) -> &[u8]
    ensures { result.now ≡ drop (end + 1) text.now }
{
    if end < text.len() {
        &text[end + 1..]
    } else {
        &[]
    }
}

/// Reads lines behind the cards, up to the first that is no card.
pub fn read_cards(cards: &mut LineList, text: &mut TextLines<'_>) -> Result<(), NoMemory>
    requires none { cards.old ≡ [] }
    requires first { text.old.line ≡ 1 }
    ensures { OnOk result (ReadSo text.old.rest.now cards.new text.new.rest.now text.new.line) }
{
    'reading: while let Some(card) = next_card(text) {
        cards.push(&card)?;
    }
    Ok(())
}

/// The code of the program that a text is, or why it has none.
pub fn code_of_text(alloc: Global, text: &[u8]) -> Result<Verified, CompileFault>
    ensures code { IfOk result (IsCodeOfText text.now) }
    ensures fault { IfErr result (λ fault. Explains fault (compiling_text text.now)) }
{
    let mut cards = LineList::new(alloc);
    let mut left = TextLines {
        rest: text,
        line: 1,
    };
    match read_cards(&mut cards, &mut left) {
        Ok(()) => code_of_cards(alloc, &mut cards, &left),
        Err(_) => Err(CompileFault::NoMemory),
    }
}

// The same, once the cards up to the first line that is none are read.
fn code_of_cards(
    alloc: Global,
    cards: &mut LineList,
    left: &TextLines<'_>,
) -> Result<Verified, CompileFault>
    ensures code { (text : List ℕ) → ReadSo text cards.old left.now.rest.now left.now.line
        → IfOk result (IsCodeOfText text) }
    ensures fault { (text : List ℕ) → ReadSo text cards.old left.now.rest.now left.now.line
        → IfErr result (λ fault. Explains fault (compiling_text text)) }
{
    if left.rest.is_empty() {
        return compile(alloc, cards);
    }
    match close_comment(cards, left.rest) {
        Ok(()) => Err(first_bad_word(alloc, cards, left.line)),
        Err(_) => Err(CompileFault::NoMemory),
    }
}

// Puts a card behind the others that ends a comment, where the text behind them would end one.
fn close_comment(cards: &mut LineList, rest: &[u8]) -> Result<(), NoMemory>
    ensures { OnOk result (cards.new ≡ cards.old ++ closing rest.now) }
{
    if first_place(rest, b'"') == rest.len() {
        return Ok(());
    }
    let mut quote = Line::new();
    quote.push(b'"');
    cards.push(&quote)
}

// The bad word of cards, or of this line where none stands on an earlier one.
fn first_bad_word(alloc: Global, cards: &LineList, line: u32) -> CompileFault
    ensures { Explains result (bad_word (first_bad line (words cards.now))) }
{
    match scan(alloc, cards) {
        Ok(_) => CompileFault::BadWord { line },
        Err(ScanFault::BadWord { line: first }) => CompileFault::BadWord {
            line: first.min(line),
        },
        Err(ScanFault::NoMemory) => CompileFault::NoMemory,
    }
}
