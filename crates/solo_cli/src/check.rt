//! The command that judges a description of access rights.
ghost use Rattle.std.specs.Prelude.{◌≡◌, ◌≤◌, ◌<◌, ◌++◌, ◌∷◌, ℕ, List, [], true, false, Some, None, Ok, Err, IfOk, IfErr, OnOk};
ghost use Rattle.solo_base.specs.Card.{cards};
ghost use Rattle.solo_base.specs.Text.{line_text};
ghost use Rattle.solo_devices.specs.Count.{Rose};
ghost use Rattle.solo_devices.specs.CardUnit.{IsAllTaken, StandsFor, bytes_total, byte_limit, work_ahead};
ghost use Rattle.access_check.specs.Judgement.{judge};
ghost use Rattle.solo_cli.specs.AccessLines.{judgement_line};
ghost use Rattle.run_report.specs.Told.{sink_told, source_told};
ghost use Rattle.solo_cli.specs.Causes.{FaultBy, read_statuses};
ghost use Rattle.solo_cli.specs.Judges.{Judges};
ghost use Rattle.solo_cli.specs.Printing.{PrintsBytes};

use crate::access_lines::judgement_line;
use crate::printing::print_line;
use crate::refusal::Refusal;
use solo_base::{Cause, Item};
use solo_devices::{CardRead, CardUnit, Sink, Source};
use std::alloc::Global;

/// Judges the deck, and prints the line of its judgement.
#[inline(never)]
pub fn check<S: Source, K: Sink>(alloc: Global, deck: S, paper: K) -> (Option<Refusal>, S, K)
    requires { S.taken deck ≡ 0 }
    ensures { Judges (source_told S.Source deck) (source_told S.Source result.1) (sink_told K.Sink paper)
        (sink_told K.Sink result.2) result.0 }
{
    let (items, deck) = read_deck(alloc, deck);
    let (cause, paper) = print_judgement(alloc, items, paper);
    (cause, deck, paper)
}

// The items of a deck, or why they weren't all read.
fn read_deck<S: Source>(alloc: Global, deck: S) -> (Result<Vec<Item>, Cause>, S)
    requires { S.taken deck ≡ 0 }
    ensures items { IfOk result.0 (λ items. (bytes : List ℕ) → S.left deck ≡ Some bytes →
        cards bytes ≡ items.items) }
    ensures all_taken { OnOk result.0 (IsAllTaken (S.left result.1)) }
    ensures failed { result.0 ≡ Err Cause.ReadFault → Rose (S.faults deck) (S.faults result.1) }
    ensures limit { result.0 ≡ Err Cause.DeckLimit → byte_limit < S.taken result.1 }
    ensures beyond { byte_limit < S.taken result.1 → result.0 ≡ Err Cause.DeckLimit }
    ensures total { bytes_total (S.taken result.1) (S.left result.1)
        ≡ bytes_total (S.taken deck) (S.left deck) }
    ensures known { IfErr result.0 (FaultBy read_statuses) }
{
    let mut unit = CardUnit::new(deck);
    let read = read_items(alloc, &mut unit);
    (read, unit.into_inner())
}

// The items of a deck.
fn read_items<S: Source>(alloc: Global, unit: &mut CardUnit<S>) -> Result<Vec<Item>, Cause>
    requires live { unit.old.live ≡ true }
    requires within { S.taken unit.old.source ≤ byte_limit }
    ensures items { IfOk result (λ items. (text : List ℕ) →
        StandsFor (S.left unit.old.source) unit.old.pending text [] → cards text ≡ items.items) }
    ensures all_taken { OnOk result (IsAllTaken (S.left unit.new.source)) }
    ensures failed { result ≡ Err Cause.ReadFault →
        Rose (S.faults unit.old.source) (S.faults unit.new.source) }
    ensures limit { result ≡ Err Cause.DeckLimit → byte_limit < S.taken unit.new.source }
    ensures beyond { byte_limit < S.taken unit.new.source → result ≡ Err Cause.DeckLimit }
    ensures total { bytes_total (S.taken unit.new.source) (S.left unit.new.source)
        ≡ bytes_total (S.taken unit.old.source) (S.left unit.old.source) }
    ensures known { IfErr result (FaultBy read_statuses) }
{
    let mut items = Vec::new(alloc);
    while read_item(unit, &mut items)? {}
    Ok(items)
}

// Adds the next item of a deck. Whether there is one.
fn read_item<S: Source>(unit: &mut CardUnit<S>, items: &mut Vec<Item>) -> Result<bool, Cause>
    requires { unit.old.live ≡ true }
    ensures stands { OnOk result ((text : List ℕ) →
        StandsFor (S.left unit.old.source) unit.old.pending text items.old.items →
        StandsFor (S.left unit.new.source) unit.new.pending text items.new.items) }
    ensures whole { result ≡ Ok false → (text : List ℕ) →
        StandsFor (S.left unit.old.source) unit.old.pending text items.old.items →
        cards text ≡ items.new.items }
    ensures all_taken { result ≡ Ok false → IsAllTaken (S.left unit.new.source) }
    ensures live { OnOk result (unit.new.live ≡ true) }
    ensures failed { result ≡ Err Cause.ReadFault →
        Rose (S.faults unit.old.source) (S.faults unit.new.source) }
    ensures counts { S.faults unit.old.source ≤ S.faults unit.new.source }
    ensures limit { result ≡ Err Cause.DeckLimit → byte_limit < S.taken unit.new.source }
    ensures beyond { byte_limit < S.taken unit.new.source → result ≡ Err Cause.DeckLimit }
    ensures total { bytes_total (S.taken unit.new.source) (S.left unit.new.source)
        ≡ bytes_total (S.taken unit.old.source) (S.left unit.old.source) }
    ensures falls { result ≡ Ok true → work_ahead (S.taken unit.new.source) unit.new.pending unit.new.ended
        < work_ahead (S.taken unit.old.source) unit.old.pending unit.old.ended }
    ensures known { IfErr result (FaultBy read_statuses) }
{
    match unit.read() {
        CardRead::Card(line) => keep(items, Item::Line(line)),
        CardRead::Spoiled => keep(items, Item::Spoiled),
        CardRead::End => Ok(false),
        CardRead::Failed => Err(Cause::ReadFault),
        CardRead::Limit => Err(Cause::DeckLimit),
    }
}

// Adds an item, behind which more may come.
fn keep(items: &mut Vec<Item>, item: Item) -> Result<bool, Cause>
    ensures kept { IfOk result (λ more. (more ≡ true) × (items.new.items ≡ items.old.items ++ item ∷ [])) }
    ensures err { IfErr result (λ cause. cause ≡ Cause.NoMemory) }
{
    match items.push(item) {
        Ok(()) => Ok(true),
        Err(_) => Err(Cause::NoMemory),
    }
}

// Prints the judgement of these cards, unless they weren't all read.
#[tactic(auto, using(crate::proofs::Printings::lacks_print))]
fn print_judgement<K: Sink>(
    alloc: Global,
    read: Result<Vec<Item>, Cause>,
    paper: K,
) -> (Option<Refusal>, K)
    ensures judged { IfOk read (λ items. PrintsBytes (sink_told K.Sink paper) (sink_told K.Sink result.1)
        (line_text (judgement_line (judge items.items))) result.0) }
    ensures refused { IfErr read (λ cause. (result.0 ≡ Some (Refusal.Fault cause)) × (result.1 ≡ paper)) }
{
    match read {
        Ok(items) => match judgement_line(access_check::check(alloc, items.as_slice())) {
            Some(line) => print_line(paper, &line),
            None => (Some(Refusal::Fault(Cause::NoMemory)), paper),
        },
        Err(cause) => (Some(Refusal::Fault(cause)), paper),
    }
}
