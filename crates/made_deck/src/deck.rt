ghost use Rattle.std.specs.Prelude.{◌≡◌, ◌≤◌, ◌+◌, ◌++◌, length, IfOk, OnOk, IsTrue};
ghost use Rattle.std.specs.List.{list_all};
ghost use Rattle.std.specs.Fmt.{decimal};
ghost use Rattle.solo_base.specs.Line.{is_printable};
ghost use Rattle.solo_base.specs.Text.{line_text, text};
ghost use Rattle.made_deck.specs.MadeDeck.{made_deck, job_cards, list_cards, program_cards, loop_card};

use solo_base::{Line, LineList, NoMemory};
use std::alloc::Global;

/// The greatest number of a deck.
pub const LAST_NUMBER: u32 = 50_000;

/// The bytes of the deck of this number, which has a hundred jobs and so many more.
pub fn make_deck(alloc: Global, number: u32) -> Result<Vec<u8>, NoMemory>
    requires { number ≤ 50000 }
    ensures { IfOk result (λ deck. deck.items ≡ made_deck number) }
{
    let mut deck = Vec::new(alloc);
    for k in 0..100 + number {
        put_all(&mut deck, &job(alloc, k + 1)?)?;
    }
    Ok(deck)
}

/// Puts the cards behind the deck, each with a line feed.
fn put_all(deck: &mut Vec<u8>, cards: &LineList) -> Result<(), NoMemory>
    ensures { OnOk result (deck.new.items ≡ deck.old.items ++ text cards.now) }
{
    for place in 0..cards.len() {
        put(deck, &cards.get(place))?;
    }
    Ok(())
}

/// Puts one card behind the deck.
fn put(deck: &mut Vec<u8>, card: &Line) -> Result<(), NoMemory>
    ensures { OnOk result (deck.new.items ≡ deck.old.items ++ line_text card.now) }
{
    deck.extend_from_slice(card.bytes())?;
    deck.push(b'\n')?;
    Ok(())
}

/// The cards of job k.
fn job(alloc: Global, k: u32) -> Result<LineList, NoMemory>
    ensures { IfOk result (λ cards. cards ≡ job_cards k) }
{
    if k % 3 == 0 {
        list(alloc, k)
    } else {
        program(alloc, k)
    }
}

/// A list of k mod 7 cards.
fn list(alloc: Global, k: u32) -> Result<LineList, NoMemory>
    ensures { IfOk result (λ cards. cards ≡ list_cards k) }
{
    let mut cards = LineList::new(alloc);
    cards.push(&numbered(b"#LIST L", k))?;
    for i in 0..k % 7 {
        cards.push(&numbered(b"CARD ", i + 1))?;
    }
    cards.push(&card(b"#END"))?;
    Ok(cards)
}

/// A program that writes the numbers from 1 to k mod 10.
fn program(alloc: Global, k: u32) -> Result<LineList, NoMemory>
    ensures { IfOk result (λ cards. cards ≡ program_cards k) }
{
    let mut cards = LineList::new(alloc);
    cards.push(&numbered(b"#JOB P", k))?;
    cards.push(&card(b"VAR I: INTEGER;"))?;
    cards.push(&card(b"BEGIN"))?;
    cards.push(&loop_card(k % 10))?;
    cards.push(&card(b"END."))?;
    cards.push(&card(b"#END"))?;
    Ok(cards)
}

/// A card of these characters.
fn card(bytes: &[u8]) -> Line
    requires room { length bytes.now ≤ 100 }
    requires printable { IsTrue (list_all is_printable bytes.now) }
    ensures { result ≡ bytes.now }
{
    let mut card = Line::new();
    card.append(bytes);
    card
}

/// A word, and a number directly behind it.
fn numbered(word: &[u8], number: u32) -> Line
    requires room { length word.now ≤ 80 }
    requires printable { IsTrue (list_all is_printable word.now) }
    ensures card { result ≡ word.now ++ decimal number }
    ensures short { length result ≤ length word.now + 10 }
{
    let mut card = card(word);
    card.append_number(number);
    card
}

/// `FOR I := 1 TO 9 DO BEGIN WRITEINT(I); WRITE(NL) END`
fn loop_card(last: u32) -> Line
    ensures { result ≡ loop_card last }
{
    let mut card = numbered(b"FOR I := 1 TO ", last);
    card.append(b" DO BEGIN WRITEINT(I); WRITE(NL) END");
    card
}
