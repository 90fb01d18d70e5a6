ghost use Rattle.std.specs.Prelude.{◌≡◌, ◌≤◌, ◌<◌, take, None, IfSome};
ghost use Rattle.network_run.specs.declared.rules.Rule.TheVariants as rule;
ghost use Rattle.network_run.specs.Law.{Placed, AllEnded, MayStep};
ghost use Rattle.network_run.specs.Rules.{behind};
ghost use Rattle.network_run.specs.Runs.{AreGoers, IsPicked, WholeRun, TurnTaken, most_events};

use crate::{Counts, Network, Rule};
use solo_base::ProcNo;

/// A network of which every run comes to its end.
pub trait Falling: Network {
    /// The process that has what is requested and granted.
    fn holder(&self) -> Option<ProcNo>
        ensures { (at : Placed Self.law (Self.Stands self.now)) → result ≡ Self.law.holder at.state };

    /// Lets the process that a rule picks take its turn, over and over, until all have ended. Every run comes
    /// to its end. Answers what it counted.
    final fn run_by(&mut self, rule: Rule) -> Counts
        requires before { Placed Self.law (Self.Stands self.old) }
        ensures { WholeRun Self.law Self.Stands Self.Keeps Self.left rule self.old self.new result }
    {
        let mut now = rule;
        let mut counts = Counts::none();

        // All the events, which the counts may not hold: each leaves fewer, so the run ends.
        let mut taken: u128 = 0;
        'running: while let Some(p) = next_by(self, &mut now) {
            take_turn(self, p, &mut counts);
            taken += 1;
        }
        counts
    }

    /// The run of the schedule of a number, to its end.
    final fn run_numbered(&mut self, number: u32) -> Counts
        requires before { Placed Self.law (Self.Stands self.old) }
        ensures { WholeRun Self.law Self.Stands Self.Keeps Self.left (rule.Numbered number)
            self.old self.new result }
    {
        self.run_by(Rule::Numbered { number })
    }

    /// Each event leaves fewer,
    ghost falls: { (old new : Self) (at : Placed Self.law (Self.Stands old)) (event : Self.law.Event)
        → Self.law.IsEnabled at.state event → Self.Stands new (Self.law.happens at.state event)
        → Self.Moves old event new
        → Self.left new (Self.law.happens at.state event) < Self.left old at.state };

    /// and there are not too many to count them all.
    ghost few: { (net : Self) (at : Placed Self.law (Self.Stands net))
        → Self.left net at.state ≤ most_events };
}

/// How many processes a network has at most.
const MOST_PROCESSES: usize = 16;

// Writes those that may go on to the front, in order of their numbers, and says how many there are.
// Each is written: what is written of one that may not is overwritten by the next.
fn find_goers<N: Network>(net: &N, goers: &mut [ProcNo; MOST_PROCESSES]) -> usize
    ensures few { result ≤ 16 }
    ensures are { (at : Placed N.law (N.Stands net.now)) → AreGoers N.law at.state (take result goers.new) }
{
    let size = net.size();
    let mut found = 0;
    'asking: for before in 0..size {
        let p = before + 1;
        goers[found] = p;
        found += usize::from(net.enabled(p));
    }
    found
}

/// The process that a rule picks. None: all have ended, since no network is stuck.
pub fn next_by<N: Network>(net: &N, rule: &mut Rule) -> Option<ProcNo>
    requires some { Placed N.law (N.Stands net.now) }
    ensures picks { (at : Placed N.law (N.Stands net.now))
        → IfSome result (λ p. IsPicked N.law rule.old at.state p × N.law.MayGo at.state p) }
    ensures goes_on { rule.new ≡ behind rule.old result }
    ensures ended { (at : Placed N.law (N.Stands net.now)) → result ≡ None → AllEnded N.law at.state }
{
    let mut goers = [0; MOST_PROCESSES];
    let found = find_goers(net, &mut goers);
    rule.pick(&goers[..found])
}

// Lets a process take its turn, and counts it.
fn take_turn<N: Falling>(net: &mut N, p: ProcNo, counts: &mut Counts)
    requires may { MayStep N.law (N.Stands net.old) p }
    ensures turn { (at : Placed N.law (N.Stands net.old)) → N.law.MayGo at.state p
        → TurnTaken N.law N.Stands N.left net.old net.new at.state p counts.old counts.new }
    ensures keeps { (first : N) → N.Keeps first net.old → N.Keeps first net.new }
{
    let before = net.holder();
    let stepped = net.step(p);
    let after = net.holder();
    *counts = counts.with(stepped, before, after);
}
