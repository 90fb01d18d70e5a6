ghost use Rattle.std.specs.Prelude.{◌≡◌};
ghost use Rattle.solo_commands.specs.Commands.{file_name, is_cards, is_printer, is_taken, program_name, source, target};

use solo_base::{Ident, spells};

/// The name of a file, which is neither CARDS nor PRINTER.
pub fn file_name(word: &[u8]) -> Option<Ident>
    ensures { result ≡ file_name word.now }
{
    if spells(word, b"CARDS") || spells(word, b"PRINTER") {
        return None;
    }
    Ident::of(word)
}

/// Where a copy comes from: CARDS, or the name of a file.
pub fn source(word: &[u8]) -> Option<Ident>
    ensures { result ≡ source word.now }
{
    if spells(word, b"PRINTER") {
        return None;
    }
    Ident::of(word)
}

/// Where a copy goes to: PRINTER, or the name of a file.
pub fn target(word: &[u8]) -> Option<Ident>
    ensures { result ≡ target word.now }
{
    if spells(word, b"CARDS") {
        return None;
    }
    Ident::of(word)
}

/// The name of a program, which is none of the six words of the other commands.
pub fn program_name(word: &[u8]) -> Option<Ident>
    ensures { result ≡ program_name word.now }
{
    if is_taken(word) {
        return None;
    }
    file_name(word)
}

fn is_taken(word: &[u8]) -> bool
    ensures { result ≡ is_taken word.now }
{
    spells(word, b"COPY")
        || spells(word, b"COMPILE")
        || spells(word, b"LIST")
        || spells(word, b"DELETE")
        || spells(word, b"RENAME")
        || spells(word, b"PROTECT")
}

/// Whether a copy from this name comes from the cards.
pub fn is_cards(name: &Ident) -> bool
    ensures { result ≡ is_cards name.now }
{
    spells(name.name(), b"CARDS")
}

/// Whether a copy to this name goes to the printer.
pub fn is_printer(name: &Ident) -> bool
    ensures { result ≡ is_printer name.now }
{
    spells(name.name(), b"PRINTER")
}
