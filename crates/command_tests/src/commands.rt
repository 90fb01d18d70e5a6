use solo_base::{Arg, ArgList, Ident, Line, NoMemory};
use solo_commands::{BadCommand, Command, is_cards, is_printer, read_command};
use std::alloc::Global;

/// Typed lines, and what each asks for: nothing of a blank line, and `?` of one that is no command. Behind
/// the word of a command stand its names, and behind `=` and a program's name its arguments: `nil`, `t` and
/// `f`, numbers and names.
const COPIES: [(&str, &str); 31] = [
    ("", ""),
    (" ", ""),
    ("        ", ""),
    ("copy(cards,text)", "copy CARDS TEXT"),
    ("COPY(CARDS,TEXT)", "copy CARDS TEXT"),
    ("CoPy(cArDs,TeXt)", "copy CARDS TEXT"),
    ("  copy  (  cards  ,  text  )  ", "copy CARDS TEXT"),
    ("copy(cards, printer)", "copy CARDS PRINTER"),
    ("copy(text, printer)", "copy TEXT PRINTER"),
    ("copy(a, b2)", "copy A B2"),
    ("copy(list, copy)", "copy LIST COPY"),
    ("copy(printer, a)", "?"),
    ("copy(a, cards)", "?"),
    ("copy(printer, cards)", "?"),
    ("copy(a)", "?"),
    ("copy(a, b, c)", "?"),
    ("copy(a,)", "?"),
    ("copy(,b)", "?"),
    ("copy()", "?"),
    ("copy", "?"),
    ("copy(a b, c)", "?"),
    ("copy(a, b", "?"),
    ("copy a, b)", "?"),
    ("copy(a, b))", "?"),
    ("copy((a, b)", "?"),
    ("copy(a, b) c", "?"),
    ("copy(a, b)(c)", "?"),
    ("copy(1a, b)", "?"),
    ("copy(a, 12)", "?"),
    ("copy(abcdefghijkl, x)", "copy ABCDEFGHIJKL X"),
    ("copy(abcdefghijklm, x)", "?"),
];

const COMMANDS_OF_FILES: [(&str, &str); 37] = [
    ("compile(text, prog)", "compile TEXT PROG"),
    ("COMPILE ( TEXT , PROG )", "compile TEXT PROG"),
    ("compile(cards, prog)", "?"),
    ("compile(text, printer)", "?"),
    ("compile(text)", "?"),
    ("compile", "?"),
    ("list", "list"),
    ("LIST", "list"),
    ("   List   ", "list"),
    ("list()", "?"),
    ("list(a)", "?"),
    ("list(a, b)", "?"),
    ("l ist", "?"),
    ("delete(a)", "delete A"),
    ("DELETE ( A )", "delete A"),
    ("delete(cards)", "?"),
    ("delete(printer)", "?"),
    ("delete()", "?"),
    ("delete", "?"),
    ("delete(a, b)", "?"),
    ("delete(nil)", "delete NIL"),
    ("rename(a, b)", "rename A B"),
    ("ReName( a ,b )", "rename A B"),
    ("rename(a, a)", "rename A A"),
    ("rename(cards, b)", "?"),
    ("rename(a, printer)", "?"),
    ("rename(a)", "?"),
    ("rename", "?"),
    ("protect(a, on)", "protect A on"),
    ("PROTECT(A, OFF)", "protect A off"),
    ("protect( a , On )", "protect A on"),
    ("protect(a, maybe)", "?"),
    ("protect(a, o n)", "?"),
    ("protect(a)", "?"),
    ("protect(cards, on)", "?"),
    ("protect(on, off)", "protect ON off"),
    ("protect", "?"),
];

const PROGRAMS: [(&str, &str); 19] = [
    ("prog", "= PROG"),
    ("  prog  ", "= PROG"),
    ("Prog9", "= PROG9"),
    ("prog()", "?"),
    ("prog( )", "?"),
    ("prog(nil)", "= PROG nil"),
    ("prog(NIL, true, FALSE)", "= PROG nil t f"),
    ("prog ( 1 , two , -3 )", "= PROG 1 TWO -3"),
    ("prog(0)", "= PROG 0"),
    ("prog(-0)", "= PROG 0"),
    ("prog(00000)", "= PROG 0"),
    ("prog(00042)", "= PROG 42"),
    ("prog(000042)", "?"),
    ("prog(32767)", "= PROG 32767"),
    ("prog(32768)", "?"),
    ("prog(-32768)", "= PROG -32768"),
    ("prog(-32769)", "?"),
    ("prog(99999)", "?"),
    ("prog(100000)", "?"),
];

const PROGRAMS_AND_OTHERS: [(&str, &str); 31] = [
    ("prog(-)", "?"),
    ("prog(- 1)", "?"),
    ("prog(--1)", "?"),
    ("prog(+1)", "?"),
    ("prog(1 2)", "?"),
    ("prog(12a)", "?"),
    ("prog(a12)", "= PROG A12"),
    ("prog(cards)", "= PROG CARDS"),
    ("prog(printer, on)", "= PROG PRINTER ON"),
    ("prog(copy)", "= PROG COPY"),
    ("prog(a,)", "?"),
    ("prog(,)", "?"),
    ("prog(,a)", "?"),
    ("prog(a b)", "?"),
    ("prog(a;b)", "?"),
    ("prog(a.b)", "?"),
    ("prog(1,2,3,4,5,6,7,8,9,10)", "= PROG 1 2 3 4 5 6 7 8 9 10"),
    ("prog(1,2,3,4,5,6,7,8,9,10,11)", "?"),
    ("prog(1,2,3,4,5,6,7,8,9,10,)", "?"),
    ("prog(a,b,c,d,e,f,g,h,i,j,k)", "?"),
    ("prog(", "?"),
    ("prog)", "?"),
    ("(a)", "?"),
    ("()", "?"),
    ("cards", "?"),
    ("printer", "?"),
    ("cards(a)", "?"),
    ("nil", "= NIL"),
    ("12", "?"),
    ("abcdefghijkl(a)", "= ABCDEFGHIJKL A"),
    ("abcdefghijklm(a)", "?"),
];

/// Adds a blank and a word.
fn tell_word(told: &mut Vec<u8>, word: &[u8]) -> Result<(), NoMemory> {
    told.push(b' ')?;
    told.extend_from_slice(word)?;
    Ok(())
}

/// Adds a word and two names.
fn tell_two(told: &mut Vec<u8>, word: &[u8], first: &Ident, second: &[u8]) -> Result<(), NoMemory> {
    tell_one(told, word, first)?;
    tell_word(told, second)
}

/// Adds a word and a name.
fn tell_one(told: &mut Vec<u8>, word: &[u8], name: &Ident) -> Result<(), NoMemory> {
    told.extend_from_slice(word)?;
    tell_word(told, name.name())
}

/// The decimal digits of a number, and `-` before those of a negative one.
fn digits_of(number: i16) -> Line {
    let mut digits = Line::new();
    if number < 0 {
        digits.push(b'-');
        digits.append_number((0 - number as i32) as u32);
    } else {
        digits.append_number(number as u32);
    }
    digits
}

fn tell_argument(told: &mut Vec<u8>, arg: Arg) -> Result<(), NoMemory> {
    match arg {
        Arg::Nil => tell_word(told, b"nil"),
        Arg::Bool(true) => tell_word(told, b"t"),
        Arg::Bool(false) => tell_word(told, b"f"),
        Arg::Int(number) => tell_word(told, digits_of(number).bytes()),
        Arg::Id(name) => tell_word(told, name.name()),
    }
}

fn tell_arguments(told: &mut Vec<u8>, args: &ArgList) -> Result<(), NoMemory> {
    for place in 0..args.len() {
        tell_argument(told, args.get(place))?;
    }
    Ok(())
}

fn tell_program(told: &mut Vec<u8>, name: &Ident, args: &ArgList) -> Result<(), NoMemory> {
    told.push(b'=')?;
    tell_word(told, name.name())?;
    tell_arguments(told, args)
}

fn tell_command(told: &mut Vec<u8>, command: &Command) -> Result<(), NoMemory> {
    match command {
        Command::Copy { from, to } => tell_two(told, b"copy", from, to.name()),
        Command::Compile { from, to } => tell_two(told, b"compile", from, to.name()),
        Command::List => told.extend_from_slice(b"list").map_err(|_| NoMemory),
        Command::Delete(name) => tell_one(told, b"delete", name),
        Command::Rename { old, new } => tell_two(told, b"rename", old, new.name()),
        Command::Protect { name, on: true } => tell_two(told, b"protect", name, b"on"),
        Command::Protect { name, on: false } => tell_two(told, b"protect", name, b"off"),
        Command::Program { name, args } => tell_program(told, name, args),
    }
}

/// What a line asks for.
fn asked(alloc: Global, line: &[u8]) -> Result<Vec<u8>, NoMemory> {
    let mut told = Vec::new(alloc);
    let Some(line) = Line::of(line) else {
        return Ok(told);
    };
    match read_command(&line) {
        Ok(None) => Ok(told),
        Ok(Some(command)) => {
            tell_command(&mut told, &command)?;
            Ok(told)
        }
        Err(BadCommand) => {
            told.push(b'?')?;
            Ok(told)
        }
    }
}

/// Whether the line asks for this.
fn asks_for(alloc: Global, line: &str, wanted: &str) -> bool {
    match asked(alloc, line.as_bytes()) {
        Ok(told) => told.as_slice() == wanted.as_bytes(),
        Err(NoMemory) => false,
    }
}

#[test]
fn copies_ask_for_what_the_table_says(rt: HostRuntime) {
    for (line, wanted) in COPIES {
        assert!(rt; asks_for(rt.alloc(), line, wanted), "{line}");
    }
}

#[test]
fn commands_of_files_ask_for_what_the_table_says(rt: HostRuntime) {
    for (line, wanted) in COMMANDS_OF_FILES {
        assert!(rt; asks_for(rt.alloc(), line, wanted), "{line}");
    }
}

#[test]
fn programs_ask_for_what_the_table_says(rt: HostRuntime) {
    for (line, wanted) in PROGRAMS {
        assert!(rt; asks_for(rt.alloc(), line, wanted), "{line}");
    }
}

#[test]
fn other_lines_ask_for_what_the_table_says(rt: HostRuntime) {
    for (line, wanted) in PROGRAMS_AND_OTHERS {
        assert!(rt; asks_for(rt.alloc(), line, wanted), "{line}");
    }
}

/// Whether these letters are the name of the cards, and that of the printer.
fn devices_named(letters: &[u8]) -> Option<(bool, bool)> {
    let name = Ident::of(letters)?;
    Some((is_cards(&name), is_printer(&name)))
}

#[test]
fn cards_and_printer_are_known_by_their_names(rt: HostRuntime) {
    assert!(rt; devices_named(b"cards") == Some((true, false)));
    assert!(rt; devices_named(b"Printer") == Some((false, true)));
    assert!(rt; devices_named(b"CARD") == Some((false, false)));
}
