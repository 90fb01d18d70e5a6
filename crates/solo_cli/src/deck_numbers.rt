//! How many jobs and cards a deck has.
ghost use Rattle.std.specs.Prelude.{◌≡◌, ◌≤◌, ◌<◌, ◌+◌, ◌^◌, ℕ, List, [], ◌∷◌, Some, IsSome, IfSome, IfOk, length, true};
ghost use Rattle.std.specs.Option.{is_some};
ghost use Rattle.solo_base.specs.Card.{cards};
ghost use Rattle.solo_base.specs.declared.item.Item.{Item as ItemOf};
ghost use Rattle.solo_base.specs.declared.item.Item.TheVariants.{Line};
ghost use Rattle.solo_devices.specs.CardUnit.{byte_limit, bytes_total, items_ahead, work_ahead};
ghost use Rattle.deck_format.specs.Jobs.{jobs, opener_in};
ghost use Rattle.solo_cli.specs.Tallies.{CountsOn, IsNextOf, jobs_begun, role_of};

use deck_format::{Control, control_of, ends_in};
use solo_base::NoMemory;
use solo_devices::{CardRead, CardUnit, Source, SureSource};
use std::alloc::Global;

/// How many bytes a deck in memory gives at once.
pub const PIECE: usize = 512;

/// How many jobs and cards a deck has, control cards included.
#[derive(Clone, Copy, Debug, PartialEq, Eq)]
pub struct DeckNumbers {
    pub jobs: u64,
    pub cards: u64,
}

/// The numbers of a deck in memory.
pub fn numbers_of(alloc: Global, deck: &[u8]) -> Result<DeckNumbers, NoMemory>
    requires { length deck.now ≤ byte_limit }
    ensures jobs { IfOk result (λ numbers. numbers.jobs ≡ length (jobs (cards deck.now))) }
    ensures cards { IfOk result (λ numbers. numbers.cards ≡ length (cards deck.now)) }
{
    let mut unit = CardUnit::new(SureSource::new(deck.to_vec(alloc)?, PIECE));
    let mut tally = Tally::new();
    while let Some(role) = next_role(&mut unit) {
        tally.add(role);
    }
    Ok(tally.numbers)
}

/// What a card is to the jobs of its deck.
#[derive(Clone, Copy)]
enum Role {
    /// It opens a group.
    Opens,
    /// It ends a group; outside groups it counts.
    Ends,
    /// It counts, where it stands outside groups.
    Counts,
    /// It is blank.
    Blank,
}

// What the next card of a deck in memory is.
fn next_role(unit: &mut CardUnit<SureSource>) -> Option<Role>
    requires live { unit.old.live ≡ true }
    requires within { IfSome (bytes_total (⟦<SureSource as Source>⟧.taken unit.old.source)
        (⟦<SureSource as Source>⟧.left unit.old.source)) (λ total. total ≤ byte_limit) }
    ensures next { (items : List ItemOf) →
        items_ahead (⟦<SureSource as Source>⟧.left unit.old.source) unit.old.pending ≡ Some items →
        IsNextOf result items (items_ahead (⟦<SureSource as Source>⟧.left unit.new.source) unit.new.pending) }
    ensures live { IsSome result → unit.new.live ≡ true }
    ensures total { bytes_total (⟦<SureSource as Source>⟧.taken unit.new.source)
        (⟦<SureSource as Source>⟧.left unit.new.source)
        ≡ bytes_total (⟦<SureSource as Source>⟧.taken unit.old.source)
        (⟦<SureSource as Source>⟧.left unit.old.source) }
    ensures falls { IsSome result →
        work_ahead (⟦<SureSource as Source>⟧.taken unit.new.source) unit.new.pending unit.new.ended
        < work_ahead (⟦<SureSource as Source>⟧.taken unit.old.source) unit.old.pending unit.old.ended }
{
    let read = unit.read();
    match &read {
        CardRead::Card(card) => Some(role_of(card.bytes())),
        CardRead::Spoiled => Some(Role::Counts),
        CardRead::End => None,
        CardRead::Failed | CardRead::Limit => unreachable!(),
    }
}

// What a card of these characters is.
fn role_of(card: &[u8]) -> Role
    ensures { result ≡ role_of (Line card.now) }
{
    let control = control_of(card);
    if opens(&control) {
        return Role::Opens;
    }
    if ends_in(&control) {
        return Role::Ends;
    }
    if card.is_empty() {
        return Role::Blank;
    }
    Role::Counts
}

// Whether a control card opens a group.
fn opens(control: &Option<Control>) -> bool
    ensures { result ≡ is_some (opener_in control.now) }
{
    matches!(control, Some(Control::Opens(_)))
}

/// Where a tally stands in its deck.
#[derive(Clone, Copy)]
enum Spot {
    /// Outside groups, where no card that counts stands before it.
    Fresh,
    /// Outside groups, behind cards that count: they are one job.
    Skipping,
    /// In a group, whose job is counted.
    InGroup,
}

impl Spot {
    // Where a card leads, and how many jobs it begins.
    fn behind(self, role: Role) -> (Spot, u64)
        ensures one { result.1 ≤ 1 }
        ensures begins { (item : ItemOf) (rest : List ItemOf) → role ≡ role_of item →
            length (jobs_begun self (item ∷ rest)) ≡ result.1 + length (jobs_begun result.0 rest) }
    {
        match role {
            Role::Opens => (Spot::InGroup, 1),
            Role::Ends => match self {
                Spot::Fresh => (Spot::Skipping, 1),
                Spot::Skipping => (Spot::Skipping, 0),
                Spot::InGroup => (Spot::Fresh, 0),
            },
            Role::Counts => match self {
                Spot::Fresh => (Spot::Skipping, 1),
                Spot::Skipping => (Spot::Skipping, 0),
                Spot::InGroup => (Spot::InGroup, 0),
            },
            Role::Blank => (self, 0),
        }
    }
}

/// The cards that were counted so far, and the jobs that they began.
#[derive(Clone, Copy)]
struct Tally {
    spot: Spot,
    numbers: DeckNumbers,
}

impl Tally {
    // Before the first card.
    fn new() -> Tally
        ensures { (items : List ItemOf) → CountsOn items items result }
    {
        Tally {
            spot: Spot::Fresh,
            numbers: DeckNumbers { jobs: 0, cards: 0 },
        }
    }

    // Counts one more card, and the job that it begins.
    fn add(&mut self, role: Role)
        requires few { self.old.numbers.cards < 2 ^ 32 }
        requires jobs { self.old.numbers.jobs ≤ self.old.numbers.cards }
        ensures { (items rest : List ItemOf) (item : ItemOf) → role ≡ role_of item →
            CountsOn items (item ∷ rest) self.old → CountsOn items rest self.new }
    {
        let (spot, jobs) = self.spot.behind(role);
        self.spot = spot;
        self.numbers.jobs += jobs;
        self.numbers.cards += 1;
    }
}
