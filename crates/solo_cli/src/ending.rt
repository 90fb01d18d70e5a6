//! The devices of a run of the five processes, and how it ends a command.
ghost use Rattle.std.specs.Prelude.{◌≡◌};
ghost use Rattle.solo_devices.specs.CardUnit.{fresh_unit};
ghost use Rattle.solo_devices.specs.PrinterUnit.{fresh_printer};
ghost use Rattle.run_report.specs.Decides.{decides};
ghost use Rattle.solo_cli.specs.Decides.{list_of};
ghost use Rattle.solo_cli.specs.Refusals.{as_refusal};

use crate::refusal::Refusal;
use batch_ends::{Outcomes, Ran, Units};
use deck_work::DeckFiles;
use disk_files::FileArea;
use run_report::decides;
use solo_base::{Cause, Outcome};
use solo_devices::{Area, CardUnit, PrinterUnit, Sink, Source};

/// How a command that runs a deck ended, and its devices: the deck, the paper, the files, and the areas of
/// the spools.
pub type Ended<S, K, F, I, O> = (Option<Refusal>, S, K, F, I, O);

/// What a run of the deck runs on, with its files mounted.
pub fn units_of<S: Source, K: Sink, F: Area + Drop, I: Area, O: Area>(
    deck: S,
    paper: K,
    files: FileArea<F>,
    input: I,
    output: O,
) -> Units<S, K, DeckFiles<F>, I, O>
    requires { S.taken deck ≡ 0 }
    ensures { result ≡ record {
      deck = fresh_unit deck;
      paper = fresh_printer paper;
      files = record { files = files };
      input = input;
      output = output;
    } }
{
    Units {
        deck: CardUnit::new(deck),
        paper: PrinterUnit::new(paper),
        files: DeckFiles { files },
        input,
        output,
    }
}

/// What a run of the five processes came to.
#[inline(never)]
pub fn came_to<S: Source, K: Sink, F: Area + Drop, I: Area, O: Area>(
    ran: Ran<S, K, DeckFiles<F>, I, O>,
) -> Ended<S, K, F, I, O>
    ensures ended { result ≡ (
      as_refusal (decides (list_of ran.outcomes)),
      ran.units.deck.source,
      ran.units.paper.sink,
      ran.units.files.files.area,
      ran.units.input,
      ran.units.output,
    ) }
    ensures size { F.size ran.units.files.files.area ≡ 4288 }
{
    let Ran {
        outcomes,
        stopped_by: _,
        units,
    } = ran;
    given_back(decides(&list_of(outcomes)), units)
}

/// The devices behind a run with this cause.
#[inline(never)]
pub fn given_back<S: Source, K: Sink, F: Area + Drop, I: Area, O: Area>(
    cause: Option<Cause>,
    units: Units<S, K, DeckFiles<F>, I, O>,
) -> Ended<S, K, F, I, O>
    ensures ended { result ≡ (
      as_refusal cause,
      units.deck.source,
      units.paper.sink,
      units.files.files.area,
      units.input,
      units.output,
    ) }
    ensures size { F.size units.files.files.area ≡ 4288 }
{
    let Units {
        deck,
        paper,
        files,
        input,
        output,
    } = units;
    let DeckFiles { files } = files;
    (
        Refusal::of_run(cause),
        deck.into_inner(),
        paper.into_inner(),
        files.into_inner(),
        input,
        output,
    )
}

// The outcomes of the five, in order.
fn list_of(outcomes: Outcomes) -> [Outcome; 5]
    ensures { result ≡ list_of outcomes }
{
    [
        outcomes.card,
        outcomes.input,
        outcomes.job,
        outcomes.output,
        outcomes.printer,
    ]
}
