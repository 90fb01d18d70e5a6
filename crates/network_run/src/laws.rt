// Each law is in a contract.

ghost use Rattle.std.specs.Prelude.{◌≡◌, List};
ghost use Rattle.std.specs.List.{AllByRecursion};
ghost use Rattle.network_run.specs.declared.counts.Counts.{Counts};
ghost use Rattle.network_run.specs.declared.rules.Rule.{Rule};
ghost use Rattle.network_run.specs.Law.{IsReached, AllEnded, run};
ghost use Rattle.network_run.specs.Runs.{RunsBy};
ghost use Rattle.network_run.specs.OneRun.{IsUndisturbed, TheRun, AreItsCounts};
ghost use Rattle.network_run.specs.Sound.{IsSureLaw};

use crate::Network;

/// A network of which a told opening leaves nothing open but who steps next.
pub trait Sure: Network {
    /// Its law is so.
    ghost sure: { IsSureLaw Self.law };
}

/// Over told devices there is, under each rule, one run to the end in which no device fails and no memory is
/// refused: some run, and no other. A run that went so has its counts. Nothing is done here: the contract is
/// the law.
pub fn one_run<N: Sure>()
    ensures some { (opening : N.law.Opening) (s : N.law.State) (rule : Rule)
        → IsReached N.law (N.law.opened opening) s → N.law.IsTold opening → TheRun N.law rule s }
    ensures only { (opening : N.law.Opening) (s : N.law.State) (rule : Rule)
        (events others : List N.law.Event) → IsReached N.law (N.law.opened opening) s → N.law.IsTold opening
        → IsUndisturbed N.law rule s events → IsUndisturbed N.law rule s others → others ≡ events }
    ensures ran { (net : N) (opening : N.law.Opening) (s : N.law.State) (rule : Rule) (counts : Counts)
        (ran : RunsBy N.law (N.Stands net) rule s counts)
        → IsReached N.law (N.law.opened opening) s → N.law.IsTold opening
        → AllByRecursion N.law.IsSmooth ran.events → AllEnded N.law (run N.law s ran.events)
        → AreItsCounts N.law rule s counts }
    ensures counts { (s : N.law.State) (rule : Rule) (some others : Counts)
        → AreItsCounts N.law rule s some → AreItsCounts N.law rule s others → others ≡ some }
{}
