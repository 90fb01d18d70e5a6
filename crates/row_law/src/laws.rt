// The law is in a contract.

ghost use Rattle.std.specs.Prelude.{◌≡◌, ◌≤◌, ℕ, List, length, true};
ghost use Rattle.network_run.specs.Law.{AreEnabled, IsReached, run};
ghost use Rattle.network_run.specs.Sound.{IsSoundLaw};
ghost use Rattle.network_law.specs.Processes.{IsLawful};
ghost use Rattle.network_law.specs.Network.{State, Event, IsOne};
ghost use Rattle.network_law.specs.Stepping.{Openings, law_of};
ghost use Rattle.place_law.specs.Process.{Entry};
ghost use Rattle.row_law.specs.Row.{Row, network_of, IsRow, HasCauses};
ghost use Rattle.row_law.specs.Waits.{Ranks, NoneMissed};
ghost use Rattle.row_law.specs.Ending.{EndsByCause, FirstIsAFault};
ghost use Rattle.row_law.specs.Determined.{AreDetermined, AnswerAlike, PassAlike, WorksAlone, HeardAlone, PassesAsAlone};
ghost use Rattle.row_law.specs.Counted.{total, events_of, LacksRightly};

/// A row: its processes by their places, and what each meets.
pub trait RowOf {
    /// What the devices hold, what a process does, what it is answered, and what goes through the buffers.
    type Devices;

    type Action;

    type Reply;

    type Parcel;

    /// What each process does, and between which of them each buffer stands.
    ghost the_row: { Row Self.Devices Self.Action Self.Reply Self.Parcel };

    /// From what it opens.
    ghost openings: { Openings Self.Devices (Entry Self.Action Self.Reply) };

    /// How many processes it has.
    fn size() -> u8
        ensures { result ≡ the_row.size };

    /// Each process meets what is asked of it.
    ghost is_row: { IsRow the_row };

    ghost causes: { HasCauses the_row };

    ghost few: { the_row.size ≤ 16 };

    /// Each buffer has room for one.
    ghost some_room: { (o : openings.Opening) (b : ℕ) → 1 ≤ openings.sizes o b };

    /// Who waits has a rank.
    ghost ranks: { (o : openings.Opening) → Ranks the_row (openings.sizes o) };
}

/// A row is a lawful network, and no state that it can reach is stuck. Nothing is done here: the contract is
/// the law.
pub fn law_of_a_row<R: RowOf>()
    ensures lawful { IsLawful (network_of R.the_row) }
    ensures sound { IsSoundLaw (law_of (network_of R.the_row) R.openings) }
    ensures ends { (o : R.openings.Opening) (s : State R.Devices (Entry R.Action R.Reply) R.Parcel)
        → IsReached (law_of (network_of R.the_row) R.openings)
        ((law_of (network_of R.the_row) R.openings).opened o) s
        → EndsByCause R.the_row s }
    ensures faults { (o : R.openings.Opening) (s : State R.Devices (Entry R.Action R.Reply) R.Parcel)
        → IsReached (law_of (network_of R.the_row) R.openings)
        ((law_of (network_of R.the_row) R.openings).opened o) s
        → NoneMissed R.the_row → FirstIsAFault R.the_row s }
    ensures determined { (o u : R.openings.Opening) (s z : State R.Devices (Entry R.Action R.Reply) R.Parcel)
        → AreDetermined R.the_row → ((b : ℕ) → R.openings.told o b ≡ true) → ((b : ℕ)
        → R.openings.told u b ≡ true)
        → IsReached (law_of (network_of R.the_row) R.openings)
        ((law_of (network_of R.the_row) R.openings).opened o) s
        → IsReached (law_of (network_of R.the_row) R.openings)
        ((law_of (network_of R.the_row) R.openings).opened u) z
        → AnswerAlike R.the_row s z → PassAlike R.the_row s z }
    ensures as_alone { (gives : ℕ → List R.Parcel) (alone : (p : ℕ) → IsOne (network_of R.the_row) p
        → WorksAlone R.the_row gives p)
        (o : R.openings.Opening) (s : State R.Devices (Entry R.Action R.Reply) R.Parcel)
        → AreDetermined R.the_row → ((b : ℕ) → R.openings.told o b ≡ true)
        → IsReached (law_of (network_of R.the_row) R.openings)
        ((law_of (network_of R.the_row) R.openings).opened o) s
        → HeardAlone R.the_row gives alone s → PassesAsAlone R.the_row gives s }
    ensures few_events { (o : R.openings.Opening) (events : List (Event (Entry R.Action R.Reply)))
        → ((p : ℕ) → IsOne (network_of R.the_row) p → LacksRightly R.the_row.view (R.the_row.process p))
        → AreEnabled (law_of (network_of R.the_row) R.openings)
        ((law_of (network_of R.the_row) R.openings).opened o) events
        → length events ≤ total R.the_row.size (λ p. events_of R.the_row
        (run (law_of (network_of R.the_row) R.openings)
        ((law_of (network_of R.the_row) R.openings).opened o) events) p) }
{}
