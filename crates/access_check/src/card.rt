ghost use Rattle.std.specs.Prelude.{◌≡◌, IfOk};
ghost use Rattle.solo_base.specs.Words.{words};
ghost use Rattle.access_check.specs.Cards.{card_meaning, names_of, of_word, declares_name, gives_rights, orders_monitors};
ghost use Rattle.access_check.specs.declared.card.Card.TheVariants.{Monitor, Process};

use crate::names::Names;
use solo_base::{Ident, Item, NoMemory, spells, split_word};
use std::alloc::Global;

/// What a card of a description says.
#[derive(Debug, Drop)]
pub enum Card {
    /// Nothing: it is blank.
    Blank,
    /// It is spoiled, or of no known form.
    Bad,
    /// A monitor of this name is declared.
    Monitor(Ident),
    /// A process of this name is declared.
    Process(Ident),
    /// The holder may call the monitors.
    Right { holder: Ident, monitors: Names },
    /// The monitors come next in the order.
    Order(Names),
}

/// What this card says.
pub fn card_meaning(alloc: Global, item: &Item) -> Result<Card, NoMemory>
    ensures { IfOk result (λ card. card ≡ card_meaning item.now) }
{
    let Item::Line(line) = item else {
        return Ok(Card::Bad);
    };
    let Some((word, rest)) = split_word(line.bytes()) else {
        return Ok(Card::Blank);
    };
    match names_of(alloc, rest)? {
        Some(names) => Ok(of_word(word, names)),
        None => Ok(Card::Bad),
    }
}

/// The names that the words of a text are, or `None` where one of them is no name.
fn names_of(alloc: Global, text: &[u8]) -> Result<Option<Names>, NoMemory>
    ensures { IfOk result (λ names. names ≡ names_of (words text.now)) }
{
    let mut names = Names::new(alloc);
    let mut rest = text;
    while let Some((word, behind)) = split_word(rest) {
        let Some(name) = Ident::of(word) else {
            return Ok(None);
        };
        names.push(name)?;
        rest = behind;
    }
    Ok(Some(names))
}

/// What a word says with these names behind it.
fn of_word(word: &[u8], names: Names) -> Card
    ensures { result ≡ of_word word.now names }
{
    if spells(word, b"MONITOR") {
        monitor(names.as_slice())
    } else if spells(word, b"PROCESS") {
        process(names.as_slice())
    } else if spells(word, b"RIGHT") {
        gives_rights(names)
    } else if spells(word, b"ORDER") {
        orders_monitors(names)
    } else {
        Card::Bad
    }
}

fn monitor(names: &[Ident]) -> Card
    ensures { result ≡ declares_name Monitor names.now }
{
    match names {
        [name] => Card::Monitor(*name),
        _ => Card::Bad,
    }
}

fn process(names: &[Ident]) -> Card
    ensures { result ≡ declares_name Process names.now }
{
    match names {
        [name] => Card::Process(*name),
        _ => Card::Bad,
    }
}

/// A holder, and one monitor or more.
fn gives_rights(mut names: Names) -> Card
    ensures { result ≡ gives_rights names }
{
    if names.as_slice().len() < 2 {
        return Card::Bad;
    }
    let holder = names.take_first();
    Card::Right {
        holder,
        monitors: names,
    }
}

/// One monitor or more.
fn orders_monitors(names: Names) -> Card
    ensures { result ≡ orders_monitors names }
{
    if names.as_slice().is_empty() {
        return Card::Bad;
    }
    Card::Order(names)
}
