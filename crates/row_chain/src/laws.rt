// The law is in a contract.

ghost use Rattle.std.specs.Prelude.{◌≡◌, ◌≤◌, ℕ, List, length, true};
ghost use Rattle.network_run.specs.Law.{AreEnabled, IsReached, NoneGoes, AllEnded, run};
ghost use Rattle.network_law.specs.Processes.{IsLawful};
ghost use Rattle.network_law.specs.Network.{State, Event};
ghost use Rattle.network_law.specs.Stepping.{Openings, law_of};
ghost use Rattle.place_law.specs.Process.{Entry};
ghost use Rattle.row_law.specs.Row.{network_of};
ghost use Rattle.row_law.specs.Ending.{EndsByCause};
ghost use Rattle.row_law.specs.Determined.{AnswerAlike, PassAlike};
ghost use Rattle.row_law.specs.Counted.{total, events_of};
ghost use Rattle.row_chain.specs.Chain.{Chain, Action, Reply, row_of};

/// A chain of stages, each told by its places and what it aims at there. Whoever builds one proves nothing
/// of its
/// stages: only that each buffer has room for one.
pub trait ChainOf {
    /// What the devices hold, which calls they have, what they answer, and what goes through the buffers.
    type Devices;

    type Device;

    type Answer;

    type Parcel;

    /// Its stages.
    ghost chain: { Chain Self.Devices Self.Device Self.Answer Self.Parcel };

    /// From what it opens.
    ghost openings: { Openings Self.Devices (Entry (Action Self.Device Self.Parcel)
        (Reply Self.Answer Self.Parcel)) };

    /// How many stages it has.
    fn size() -> u8
        ensures { result ≡ chain.size };

    /// Each buffer has room for one.
    ghost some_room: { (o : openings.Opening) (b : ℕ) → 1 ≤ openings.sizes o b };
}

/// Whatever the stages of a chain do, and however many they are: it is a lawful network, no state that it
/// can reach is
/// stuck, and each stage ends as its cause says. Nothing is done here: the contract is the law.
pub fn law_of_a_chain<C: ChainOf>()
    ensures lawful { IsLawful (network_of (row_of C.chain)) }
    ensures never_stuck { (o : C.openings.Opening)
        (s : State C.Devices (Entry (Action C.Device C.Parcel) (Reply C.Answer C.Parcel)) C.Parcel)
        → IsReached (law_of (network_of (row_of C.chain)) C.openings)
        ((law_of (network_of (row_of C.chain)) C.openings).opened o) s
        → NoneGoes (law_of (network_of (row_of C.chain)) C.openings) s
        → AllEnded (law_of (network_of (row_of C.chain)) C.openings) s }
    ensures ends { (o : C.openings.Opening)
        (s : State C.Devices (Entry (Action C.Device C.Parcel) (Reply C.Answer C.Parcel)) C.Parcel)
        → IsReached (law_of (network_of (row_of C.chain)) C.openings)
        ((law_of (network_of (row_of C.chain)) C.openings).opened o) s
        → EndsByCause (row_of C.chain) s }
    ensures determined { (o u : C.openings.Opening)
        (s z : State C.Devices (Entry (Action C.Device C.Parcel) (Reply C.Answer C.Parcel)) C.Parcel)
        → ((b : ℕ) → C.openings.told o b ≡ true) → ((b : ℕ) → C.openings.told u b ≡ true)
        → IsReached (law_of (network_of (row_of C.chain)) C.openings)
        ((law_of (network_of (row_of C.chain)) C.openings).opened o) s
        → IsReached (law_of (network_of (row_of C.chain)) C.openings)
        ((law_of (network_of (row_of C.chain)) C.openings).opened u) z
        → AnswerAlike (row_of C.chain) s z → PassAlike (row_of C.chain) s z }
    ensures few_events { (o : C.openings.Opening)
        (events : List (Event (Entry (Action C.Device C.Parcel) (Reply C.Answer C.Parcel))))
        → AreEnabled (law_of (network_of (row_of C.chain)) C.openings)
        ((law_of (network_of (row_of C.chain)) C.openings).opened o) events
        → length events ≤ total C.chain.size (λ p. events_of (row_of C.chain)
        (run (law_of (network_of (row_of C.chain)) C.openings)
        ((law_of (network_of (row_of C.chain)) C.openings).opened o) events) p) }
{}
