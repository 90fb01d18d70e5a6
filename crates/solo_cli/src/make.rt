//! The command that makes the deck of a number, runs it in memory and prints the numbers of both.
ghost use Rattle.std.specs.Prelude.{◌≡◌, ◌≤◌, ◌∷◌, ◌==◌, ℕ, List, false, Some, None, IfSome, IfOk, length, count_by};
ghost use Rattle.std.specs.List.{AllByRecursion};
ghost use Rattle.solo_base.specs.Text.{text};
ghost use Rattle.solo_base.specs.Card.{cards};
ghost use Rattle.solo_base.specs.Line.{IsLine};
ghost use Rattle.solo_devices.specs.CardUnit.{byte_limit};
ghost use Rattle.solo_devices.specs.Count.{Rose};
ghost use Rattle.deck_format.specs.Jobs.{jobs};
ghost use Rattle.made_deck.specs.MadeDeck.{made_deck};
ghost use Rattle.run_report.specs.Told.{sink_told};
ghost use Rattle.solo_cli.specs.Causes.{EndsBy, make_statuses, print_statuses};
ghost use Rattle.solo_cli.specs.DeckNumbers.{five_lines, characters_of};
ghost use Rattle.solo_cli.specs.DeckRan.{RanDeck};
ghost use Rattle.solo_cli.specs.Devices.{deck_kit};
ghost use Rattle.solo_cli.specs.MakesDeck.{MakesDeck};
ghost use Rattle.solo_cli.specs.Printing.{PrintsBytes};
ghost use Rattle.solo_cli.specs.Ready.{MayRunDeck};

use crate::core_run::run_numbered;
use crate::deck_numbers::{DeckNumbers, PIECE, numbers_of};
use crate::ending::Ended;
use crate::printing::print_all;
use crate::refusal::Refusal;
use disk_files::FileArea;
use made_deck::make_deck;
use network_run::Counts;
use run_report::{counts_line, number_line};
use solo_base::{Cause, Line, NoMemory};
use solo_devices::{Area, Sink, Source, SureSink, SureSource};
use std::alloc::Global;

/// Mounts the files, makes the deck of a number, runs it on the core under the schedule of this number, to
/// a paper in memory, and prints how many jobs, cards, lines and characters there were, and what the run
/// counted. Where the run met a fault nothing is printed. The other deck is given back as it came.
#[inline(never)]
pub fn make<S: Source, K: Sink, F: Area + Drop, I: Area, O: Area>(
    alloc: Global,
    number: u32,
    deck: S,
    paper: K,
    files: F,
    input: I,
    output: O,
) -> Ended<S, K, F, I, O>
    requires number { number ≤ 50000 }
    requires ready { MayRunDeck
        (deck_kit S.Source K.Sink F.Area I.Area O.Area deck paper files input output) }
    ensures { RanDeck (MakesDeck number) false (7 ∷ make_statuses)
        (deck_kit S.Source K.Sink F.Area I.Area O.Area deck paper files input output)
        (deck_kit S.Source K.Sink F.Area I.Area O.Area result.1 result.2 result.3 result.4 result.5)
        result.0 }
{
    match FileArea::mount(alloc, files) {
        Ok(files) => match deck_of(alloc, number) {
            Ok((made, numbers)) => {
                let source = SureSource::new(made, PIECE);
                let sink = SureSink::new(alloc);
                let (ran, counts) = run_numbered(alloc, number, source, sink, files, input, output);
                let (cause, _, printed, files, input, output) = ran;
                let (cause, paper) = print_numbers(paper, cause, numbers, &printed, counts);
                (cause, deck, paper, files, input, output)
            }
            Err(NoMemory) => {
                let cause = Refusal::Fault(Cause::NoMemory);
                (Some(cause), deck, paper, files.into_inner(), input, output)
            }
        },
        Err((files, fault)) => (
            Some(Refusal::of_mount(fault)),
            deck,
            paper,
            files,
            input,
            output,
        ),
    }
}

// The deck of a number, with its own numbers.
fn deck_of(alloc: Global, number: u32) -> Result<(Vec<u8>, DeckNumbers), NoMemory>
    requires { number ≤ 50000 }
    ensures deck { IfOk result (λ made. made.0.items ≡ made_deck number) }
    ensures short { IfOk result (λ made. length made.0.items ≤ byte_limit) }
    ensures jobs { IfOk result (λ made. made.1.jobs ≡ length (jobs (cards made.0.items))) }
    ensures cards { IfOk result (λ made. made.1.cards ≡ length (cards made.0.items)) }
{
    let deck = make_deck(alloc, number)?;
    let numbers = numbers_of(alloc, deck.as_slice())?;
    Ok((deck, numbers))
}

// Prints the numbers of a deck and of its run, unless the run met a fault.
fn print_numbers<K: Sink>(
    paper: K,
    cause: Option<Refusal>,
    numbers: DeckNumbers,
    printed: &SureSink,
    counts: Counts,
) -> (Option<Refusal>, K)
    ensures fault { IfSome cause (λ why. (result.0 ≡ Some why)
        × (sink_told K.Sink result.1 ≡ sink_told K.Sink paper)) }
    ensures prints { cause ≡ None → (lines : List (List ℕ)) → AllByRecursion IsLine lines →
        ⟦<SureSink as Sink>⟧.given printed.now ≡ Some (text lines) →
        PrintsBytes (sink_told K.Sink paper) (sink_told K.Sink result.1)
        (text (five_lines numbers.jobs numbers.cards (length lines) (characters_of lines) counts)) result.0 }
    ensures known { cause ≡ None → IfSome result.0 (EndsBy print_statuses) }
    ensures failed { cause ≡ None → result.0 ≡ Some (Refusal.Fault Cause.PrintFault) →
        Rose (K.faults paper) (K.faults result.1) }
{
    match cause {
        Some(cause) => (Some(cause), paper),
        None => {
            let lines = lines_of(numbers, printed.bytes(), counts);
            print_all(paper, &lines)
        }
    }
}

// The lines that tell the numbers of a deck, of the text that was printed of it and of its run.
fn lines_of(deck: DeckNumbers, printed: &[u8], counts: Counts) -> [Line; 5]
    ensures { (lines : List (List ℕ)) → AllByRecursion IsLine lines → printed.now ≡ text lines →
        result ≡ five_lines deck.jobs deck.cards (length lines) (characters_of lines) counts }
{
    let lines = line_count(printed);
    [
        number_line(b"JOBS ", deck.jobs),
        number_line(b"CARDS ", deck.cards),
        number_line(b"LINES ", lines as u64),
        number_line(b"CHARACTERS ", (printed.len() - lines) as u64),
        counts_line(counts),
    ]
}

// How many lines end in a text.
fn line_count(text: &[u8]) -> usize
    ensures { result ≡ count_by (λ code. code == 10) text.now }
{
    text.iter().filter(|byte| **byte == b'\n').count()
}
