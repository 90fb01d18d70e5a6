ghost use Rattle.std.specs.Prelude.{◌≡◌, ◌∷◌, ◌++◌, List, IfOk, OnOk, OnErr};
ghost use Rattle.solo_base.specs.declared.item.Item.{Item as ItemOf};
ghost use Rattle.deck_format.specs.Jobs.{counts, opener_in, ends_in};

use crate::group::Group;
use crate::{Control, Job, Opener, control_of};
use solo_base::{Item, NoMemory};
use std::alloc::Global;
use std::mem;

/// Where a reader of jobs stands in its deck.
#[derive(Debug, Drop)]
pub enum Place {
    /// Outside groups, behind so many cards that count.
    Outside { count: u32 },
    InGroup(Group),
}

impl Place {
    ghost use Rattle.deck_format.specs.JobReader.{closed, is_in_group, given};

    /// The job in hand, where nothing more comes to it.
    pub fn into_job(self) -> Option<Job>
        ensures { given result ≡ closed self }
    {
        match self {
            Place::Outside { count } => {
                if count == 0 {
                    None
                } else {
                    Some(Job::Skipped { count })
                }
            }
            Place::InGroup(group) => Some(group.into_job()),
        }
    }

    fn is_in_group(&self) -> bool
        ensures { result ≡ is_in_group self.now }
    {
        matches!(self, Place::InGroup(_))
    }
}

ghost use Rattle.deck_format.specs.JobReader.{jobs_from, given, closed, behind, control_in};

/// Takes the next item, and gives the job that it completes. A refusal leaves the place as it was.
pub fn step(place: &mut Place, alloc: Global, item: &Item) -> Result<Option<Job>, NoMemory>
    ensures next { IfOk result (λ job. (more : List ItemOf) →
        jobs_from place.old (item.now ∷ more) ≡ given job ++ jobs_from place.new more) }
    ensures err { OnErr result (place.new ≡ place.old) }
{
    let control = control_in(item);
    if let Some(opener) = opener_in(&control) {
        return Ok(lead(place, Place::InGroup(Group::open(alloc, opener))));
    }
    if ends_in(&control) && place.is_in_group() {
        return Ok(lead(place, Place::Outside { count: 0 }));
    }
    add(place, item, &control)?;
    Ok(None)
}

/// The opener that a control card is.
pub fn opener_in(control: &Option<Control>) -> Option<Opener>
    ensures { result ≡ opener_in control.now }
{
    match control {
        Some(Control::Opens(opener)) => Some(*opener),
        _ => None,
    }
}

/// Whether a control card ends its group.
pub fn ends_in(control: &Option<Control>) -> bool
    ensures { result ≡ ends_in control.now }
{
    matches!(control, Some(Control::End))
}

/// The control card that the item is.
pub fn control_in(item: &Item) -> Option<Control>
    ensures { result ≡ control_in item.now }
{
    match item {
        Item::Line(card) => control_of(card.bytes()),
        Item::Spoiled => None,
    }
}

/// Goes to the next place, and gives the job in hand.
fn lead(place: &mut Place, next: Place) -> Option<Job>
    ensures job { given result ≡ closed place.old }
    ensures place { place.new ≡ next }
{
    mem::replace(place, next).into_job()
}

/// Adds an item that neither opens nor ends a group.
fn add(place: &mut Place, item: &Item, control: &Option<Control>) -> Result<(), NoMemory>
    ensures ok { OnOk result (place.new ≡ behind place.old item.now control.now) }
    ensures err { OnErr result (place.new ≡ place.old) }
{
    match place {
        Place::Outside { count } => {
            if counts(item) {
                *count = count.saturating_add(1);
            }
            Ok(())
        }
        Place::InGroup(group) => group.add(item, control),
    }
}

/// Whether the item counts where it stands outside groups: a blank card doesn't.
pub fn counts(item: &Item) -> bool
    ensures { result ≡ counts item.now }
{
    match item {
        Item::Line(card) => !card.is_empty(),
        Item::Spoiled => true,
    }
}
