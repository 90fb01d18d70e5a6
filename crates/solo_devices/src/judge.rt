ghost use Rattle.std.specs.Prelude.{◌≡◌};
ghost use Rattle.solo_base.specs.Card.{without_return, judged, card_of};

use solo_base::{CARD_LENGTH, Item, Line, all_printable, trim_end};

/// What a line of a text gives: the card, or that it is spoiled.
pub fn judge(line: &[u8]) -> Item
    ensures { result ≡ card_of line.now }
{
    let columns = without_return(line);
    if columns.len() > CARD_LENGTH || !all_printable(columns) {
        return Item::Spoiled;
    }
    let mut card = Line::new();
    card.append(trim_end(columns));
    Item::Line(card)
}

/// The line without one carriage return at its end.
fn without_return(line: &[u8]) -> &[u8]
    ensures { result.now ≡ without_return line.now }
{
    match line {
        [columns @ .., last] if *last == b'\r' => columns,
        _ => line,
    }
}
