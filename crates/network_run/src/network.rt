ghost use Rattle.std.specs.Prelude.{◌↔◌, ◌≡◌, ℕ, IsTrue};
ghost use Rattle.network_run.specs.Law.{Law, IsOne, Placed, AllEnded, MayStep, Steps};
ghost use Rattle.network_run.specs.Sound.{IsSoundLaw};
ghost use Rattle.network_run.specs.Runs.{RunsAlong};

use crate::Stepped;
use solo_base::ProcNo;

/// A network of processes, which is stepped one event at a time.
pub trait Network {
    /// Its law: the states, the events, and which of them may happen.
    ghost law: { Law };

    /// It stands for a state.
    ghost Stands: { Self → law.State → Type 0 };

    /// What an event changes of the value, beside the state that it stands for.
    ghost Moves: { Self → law.Event → Self → Type 0 };

    /// What every run keeps, from a value before it to the value behind it.
    ghost Keeps: { Self → Self → Type 0 };

    /// How many events may still happen, at most: told of a network that is `Falling`.
    ghost left: { Self → law.State → ℕ };

    /// How many processes there are.
    fn size(&self) -> ProcNo
        ensures { result ≡ law.size };

    /// Whether a process has ended.
    fn has_ended(&self, p: ProcNo) -> bool
        requires one { IsOne law p }
        ensures { (at : Placed law (Stands self.now)) → IsTrue result ↔ law.HasEnded at.state p };

    /// Whether a process may go on: it has not ended, and is at its turn. No other number is enabled.
    fn enabled(&self, p: ProcNo) -> bool
        ensures { (at : Placed law (Stands self.now)) → IsTrue result ↔ law.MayGo at.state p };

    /// Lets the next action of a process happen.
    fn step(&mut self, p: ProcNo) -> Stepped
        requires may { MayStep law (Stands self.old) p }
        ensures steps { (at : Placed law (Stands self.old)) → law.MayGo at.state p
            → Steps law Stands Moves self.old self.new at.state p result };

    /// Whether all have ended.
    final fn ended(&self) -> bool
        ensures { (at : Placed law (Stands self.now)) → IsTrue result ↔ AllEnded law at.state }
    {
        let size = self.size();
        'asking: for p in 1..=size {
            if !self.has_ended(p) {
                return false;
            }
        }
        true
    }

    /// Lets the processes of a schedule take their turns, one after the other, up to one that is not enabled.
    /// Answers how many events it took.
    final fn run(&mut self, schedule: &[ProcNo]) -> usize
        requires before { Placed law (Stands self.old) }
        ensures runs { (at : Placed law (Stands self.old))
            → RunsAlong law (Stands self.new) schedule.now at.state result }
        ensures after { Placed law (Stands self.new) }
        ensures keeps { Keeps self.old self.new }
    {
        let mut taken = 0;
        'taking: while taken < schedule.len() {
            let p = schedule[taken];
            if !self.enabled(p) {
                return taken;
            }
            self.step(p);
            taken += 1;
        }
        taken
    }

    /// No reached state of its law is stuck.
    ghost sound: { IsSoundLaw law };

    /// A run without a step keeps it,
    ghost keeps_itself: { (net : Self) → Keeps net net };

    /// and one with a step more.
    ghost keeps_on: { (first old new : Self) (at : Placed law (Stands old)) (event : law.Event)
        → law.IsEnabled at.state event → Stands new (law.happens at.state event) → Moves old event new
        → Keeps first old → Keeps first new };
}
