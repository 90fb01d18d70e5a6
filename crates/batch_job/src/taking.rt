// What an item does to the part of the deck that it comes to.
ghost use Rattle.std.specs.Prelude.{◌≡◌, ◌+◌, ◌++◌, ◌∷◌, ℕ, List, [], Some, Ok, Err, IfOk, IfErr, OnOk, if◌then◌else◌};
ghost use Rattle.solo_base.specs.declared.item.Item.{Item as ItemOf};
ghost use Rattle.deck_format.specs.JobReader.{control_in};
ghost use Rattle.deck_format.specs.Jobs.{card_count, counts, data_in, is_some, opener_of};
ghost use Rattle.disk_contents.specs.declared.loading.Loaded.{Loaded as LoadedOf};
ghost use Rattle.batch_job.specs.Loads.{load_for};
ghost use Rattle.batch_job.specs.LinesAhead.{Where, name_of, opened, closed_lines, card_or_fault};
ghost use Rattle.batch_job.specs.Places.{IsPart, IsSpentPart, StillGives};
ghost use Rattle.batch_job.specs.Places.{HasLoad, LeavesLoads, IsLoadOf, Leads, Opens, Ends, Adds};
ghost use Rattle.batch_job.specs.declared.part.Part.TheVariants as PartOf;
ghost use Rattle.program_lines.specs.declared.program_lines.ProgramLines.{ProgramLines as ProgramLinesOf};

use crate::Part;
use crate::item_lines::ItemLines;
use crate::page_loads::PageLoads;
use crate::report::{fault_line, heading, listed_line, skipped_line, start_loaded};
use deck_format::{
    CardFault, CardFaultKind, Control, Opener, control_in, counts, ends_in, opener_in,
};
use disk_system::Loaded;
use program_lines::ProgramLines;
use solo_base::{Ident, Item, Line, LineList, NoMemory};
use std::alloc::Global;
use std::mem;

/// The lines of the next item, which leads to another part, in the place of those that waited. All lines of
/// the items before were given, and what its file was loaded as, if it opens a job of a file.
pub fn take_item(
    alloc: Global,
    part: &mut Part,
    loads: &mut PageLoads,
    item: &Item,
    waiting: &mut ItemLines,
) -> Result<(), NoMemory>
    requires { IsSpentPart part.old }
    ensures leads { OnOk result ((place : Where) → IsPart part.old place
        → HasLoad (opener_of item.now) loads.old.given
        → Leads place item.now loads.old.given loads.new.given waiting.new part.new) }
    ensures wanted { loads.new.wanted ≡ loads.old.wanted }
    ensures left { OnOk result (HasLoad (opener_of item.now) loads.old.given
        → LeavesLoads (opener_of item.now) loads.old.given loads.new.given) }
{
    let control = control_in(item);
    if let Some(opener) = opener_in(&control) {
        return take_opener(alloc, part, loads, opener, waiting);
    }
    if ends_in(&control) && part.is_in_group() {
        return take_end(alloc, part, waiting);
    }
    add(alloc, part, item, &control, waiting)
}

/// The lines of a part behind which no more comes.
pub fn end_part(alloc: Global, part: &mut Part) -> Result<ProgramLines, NoMemory>
    ensures lines { IfOk result (λ ending. (place : Where) → IsPart part.old place
        → StillGives ending (closed_lines place)) }
    ensures part { OnOk result (part.new ≡ PartOf.Stretch 0) }
{
    match mem::replace(part, Part::Stretch { count: 0 }) {
        Part::Stretch { count } => {
            if count == 0 {
                Ok(ProgramLines::Over)
            } else {
                Ok(ProgramLines::Last(skipped_line(count)))
            }
        }
        Part::List { name, count } => Ok(ProgramLines::Last(listed_line(&name, count))),
        Part::Program {
            name,
            limit,
            number: _,
            cards,
        } => {
            let mut lines = ProgramLines::start(alloc, name, limit, &cards)?;
            lines.close();
            Ok(lines)
        }
        Part::Input {
            name: _,
            number: _,
            mut lines,
        } => {
            lines.close();
            Ok(lines)
        }
        Part::Dropped => Ok(ProgramLines::Over),
    }
}

/// The lines of the end of a group.
#[inline(never)]
fn take_end(alloc: Global, part: &mut Part, waiting: &mut ItemLines) -> Result<(), NoMemory>
    ensures { OnOk result ((place : Where) → IsPart part.old place → Ends place waiting.new part.new) }
{
    let ending = end_part(alloc, part)?;
    *waiting = ItemLines::ending_with(ending);
    Ok(())
}

/// The lines of an opener.
#[inline(never)]
fn take_opener(
    alloc: Global,
    part: &mut Part,
    loads: &mut PageLoads,
    opener: Opener,
    waiting: &mut ItemLines,
) -> Result<(), NoMemory>
    ensures opens { OnOk result ((place : Where) (load : LoadedOf) (left : List LoadedOf)
        → IsPart part.old place → load_for opener loads.old.given ≡ Some (load, left)
        → Opens place opener loads.old.given left waiting.new part.new) }
    ensures left { (load : LoadedOf) (left : List LoadedOf)
        → load_for opener loads.old.given ≡ Some (load, left) → loads.new.given ≡ left }
    ensures wanted { loads.new.wanted ≡ loads.old.wanted }
{
    let load = loads.take_for(&opener);
    let ending = end_part(alloc, part)?;
    let (name, then) = opened(alloc, opener, load)?;
    *part = then;
    *waiting = ItemLines {
        ending,
        own: Some(heading(&name)),
        note: None,
    };
    Ok(())
}

/// The name of the group behind an opener, and the part that it is, whose file was loaded so if it is one of
/// a file.
fn opened(alloc: Global, opener: Opener, load: Loaded) -> Result<(Ident, Part), NoMemory>
    ensures name { IfOk result (λ then_is. then_is.0 ≡ name_of opener) }
    ensures part { IfOk result (λ then_is. IsLoadOf opener load → IsPart then_is.1 (opened load opener)) }
{
    match opener {
        Opener::List(name) => Ok((name, Part::List { name, count: 0 })),
        Opener::Job { name, limit } => Ok((name, program_from(alloc, name, limit))),
        Opener::Run { name, file: _ } => {
            let lines = start_loaded(alloc, name, load)?;
            Ok((name, input_from(name, 1, lines)))
        }
    }
}

/// A program without cards yet.
fn program_from(alloc: Global, name: Ident, limit: u32) -> Part
    ensures { result ≡ PartOf.Program name limit 1 [] }
{
    Part::Program {
        name,
        limit,
        number: 1,
        cards: LineList::new(alloc),
    }
}

/// The lines of an item that neither opens nor ends a group, which leads to the part behind it.
fn add(
    alloc: Global,
    part: &mut Part,
    item: &Item,
    control: &Option<Control>,
    waiting: &mut ItemLines,
) -> Result<(), NoMemory>
    requires spent { IsSpentPart part.old }
    requires control { control.now ≡ control_in item.now }
    ensures { OnOk result ((place : Where) → IsPart part.old place
        → Adds place item.now waiting.new part.new) }
{
    match part {
        Part::Stretch { count } => {
            *count = counted(*count, item);
            waiting.clear();
            Ok(())
        }
        Part::List { .. } => {
            add_to_list(part, item, control, waiting);
            Ok(())
        }
        Part::Program { .. } => add_to_program(alloc, part, item, control, waiting),
        Part::Input { .. } => {
            add_to_input(part, item, control, waiting);
            Ok(())
        }
        Part::Dropped => {
            waiting.clear();
            Ok(())
        }
    }
}

/// Adds an item to a list: a card of it, or its fault.
fn add_to_list(part: &mut Part, item: &Item, control: &Option<Control>, waiting: &mut ItemLines)
    requires list { (name : List ℕ) × (count : ℕ) × (part.old ≡ PartOf.List name count) }
    requires control { control.now ≡ control_in item.now }
    ensures { (place : Where) → IsPart part.old place → Adds place item.now waiting.new part.new }
{
    let Part::List { name, count } = part else {
        unreachable!()
    };
    let number = count.saturating_add(1);
    match card_of(item, control, number, false) {
        Ok(card) => {
            *count = number;
            waiting.hold(card);
        }
        Err(fault) => {
            waiting.hold(&fault_line(name, fault));
            *part = Part::Dropped;
        }
    }
}

/// How many cards count behind the item, outside groups.
fn counted(count: u32, item: &Item) -> u32
    ensures { result ≡ (if counts item.now then card_count (count + 1) else count) }
{
    if counts(item) {
        return count.saturating_add(1);
    }
    count
}

/// Adds an item to a program before its input: a card of it, `#DATA`, or its fault.
fn add_to_program(
    alloc: Global,
    part: &mut Part,
    item: &Item,
    control: &Option<Control>,
    waiting: &mut ItemLines,
) -> Result<(), NoMemory>
    requires program { (name : List ℕ) × (limit : ℕ) × (number : ℕ) × (cards : List (List ℕ))
        × (part.old ≡ PartOf.Program name limit number cards) }
    requires control { control.now ≡ control_in item.now }
    ensures { OnOk result ((place : Where) → IsPart part.old place
        → Adds place item.now waiting.new part.new) }
{
    let Part::Program {
        name,
        limit,
        number,
        cards,
    } = part
    else {
        unreachable!()
    };
    let next = number.saturating_add(1);
    match card_of(item, control, *number, false) {
        Ok(card) => {
            cards.push(card)?;
            *number = next;
            waiting.clear();
            Ok(())
        }
        Err(fault) => {
            if !data_in(control) {
                waiting.hold(&fault_line(name, fault));
                *part = Part::Dropped;
                return Ok(());
            }
            let lines = ProgramLines::start(alloc, *name, *limit, cards)?;
            *part = input_from(*name, next, lines);
            waiting.clear();
            Ok(())
        }
    }
}

/// The input of a program, whose next card has this number.
fn input_from(name: Ident, number: u32, lines: ProgramLines) -> Part
    ensures { result ≡ PartOf.Input name number lines }
{
    Part::Input {
        name,
        number,
        lines,
    }
}

/// Adds an item to the input of a program: a card of it, or its fault, behind which no further card comes.
fn add_to_input(part: &mut Part, item: &Item, control: &Option<Control>, waiting: &mut ItemLines)
    requires input { (name : List ℕ) × (number : ℕ) × (lines : ProgramLinesOf)
        × (part.old ≡ PartOf.Input name number lines) }
    requires spent { IsSpentPart part.old }
    requires control { control.now ≡ control_in item.now }
    ensures { (place : Where) → IsPart part.old place → Adds place item.now waiting.new part.new }
{
    let Part::Input {
        name,
        number,
        lines,
    } = part
    else {
        unreachable!()
    };
    match card_of(item, control, *number, true) {
        Ok(card) => {
            lines.feed(card);
            *number = number.saturating_add(1);
            waiting.clear();
        }
        Err(fault) => {
            lines.close();
            let ending = mem::replace(lines, ProgramLines::Over);
            let note = Some(fault_line(name, fault));
            *part = Part::Dropped;
            *waiting = ItemLines {
                ending,
                own: None,
                note,
            };
        }
    }
}

/// Whether the control card parts a program from its input.
fn data_in(control: &Option<Control>) -> bool
    ensures { result ≡ data_in control.now }
{
    matches!(control, Some(Control::Data))
}

/// The card of a group that an item of this number is, or the fault that it is there.
fn card_of<'a>(
    item: &'a Item,
    control: &Option<Control>,
    number: u32,
    in_input: bool,
) -> Result<&'a Line, CardFault>
    requires { control.now ≡ control_in item.now }
    ensures ok { IfOk result (λ card.
        card_or_fault in_input item.now (is_some control.now) number ≡ Ok card.now) }
    ensures err { IfErr result (λ fault.
        card_or_fault in_input item.now (is_some control.now) number ≡ Err fault) }
{
    let kind = match item {
        Item::Spoiled => CardFaultKind::Spoiled,
        Item::Line(_) if control.is_some() => CardFaultKind::Control,
        Item::Line(card) => return Ok(card),
    };
    Err(CardFault {
        kind,
        card: number,
        in_input,
    })
}
