//! What a monitor is to its gate.

use solo_base::ProcNo;

/// A pure monitor, with its queue variables and its turn, as a gate sees it.
///
/// The relations speak of plain data. `opening` is the state that the gate was made with, and `lists` has, for the number
/// of each process, the entries that this process has completed, oldest first.
pub trait MonitorKind {
    ghost use Rattle.std.specs.Prelude.{◌≡◌, ℕ, Bool, List, Option};
    ghost use Rattle.monitor_gate.specs.Kind.{with_entry, Completes, Suspends};

    type State: Send;
    /// A call with its arguments and its answer.
    type Entry: Send + Drop;

    // The process to which the turn of a state is handed.
    ghost handed_to: { Self.State → Option ℕ };

    // The state fits the lists of all processes, and has what the opening state fixes for good.
    ghost ties: { Self.State → Self.State → (ℕ → List Self.Entry) → Type 0 };

    // The process is in a queue variable of the state.
    ghost waits: { ℕ → Self.State → Bool };

    // The turn is handed to the process, and what the process may rely on when it resumes.
    ghost wakes: { ℕ → Self.State → Type 0 };

    // An entry of the process, with this call and answer, leads from the one state to the other.
    ghost moves: { ℕ → Self.State → Self.Entry → Self.State → Type 0 };

    // An entry of the process leads from the one state to the other, and ends in a delay.
    ghost rests: { ℕ → Self.State → Self.State → Type 0 };

    /// The process to which the turn is handed.
    fn handed(state: &Self::State) -> Option<ProcNo>
        ensures { result ≡ handed_to state.now };

    /// The process that would only be delayed if it entered now, where there is one. It looks from outside
    /// for a while before it enters. No promise of a gate rests on it.
    fn would_wait(_state: &Self::State) -> Option<ProcNo> {
        None
    }

    // The first law: a completed entry keeps the tie, once it stands on the list of its process.
    ghost completes: { (opening before after : Self.State) (lists : ℕ → List Self.Entry) (p : ℕ) (entry : Self.Entry) → ties opening before lists → moves p before entry after → ties opening after (with_entry lists p entry) × Completes handed_to waits wakes p before after };

    // The second law: an entry that ends in a delay keeps the tie to the same lists.
    ghost suspends: { (opening before after : Self.State) (lists : ℕ → List Self.Entry) (p : ℕ) → ties opening before lists → rests p before after → ties opening after lists × Suspends handed_to waits p before after };
}
