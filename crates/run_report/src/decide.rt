ghost use Rattle.std.specs.Prelude.{◌≡◌, ◌≤◌, None, Some};
ghost use Rattle.run_report.specs.Decides.{IsIn, decides, lower};
ghost use Rattle.run_report.specs.Status.{number_of};

use crate::status::number_of;
use solo_base::{Cause, Outcome};

/// The cause that decides how a run ended whose processes ended so.
pub fn decides(outcomes: &[Outcome]) -> Option<Cause>
    ensures value { result ≡ decides outcomes.now }

    // It is the fault of some process, none has a lower number, and there is none where no process has a
    // fault.
    ensures fault { (why : Cause) → result ≡ Some why → IsIn (Outcome.Fault why) outcomes.now }
    ensures least { (why : Cause) → result ≡ Some why → (other : Cause)
        → IsIn (Outcome.Fault other) outcomes.now → number_of why ≤ number_of other }
    ensures none { result ≡ None → (other : Cause) → IsIn (Outcome.Fault other) outcomes.now → ⊥ }
{
    lowest_of(outcomes)
}

// Of the faults of all processes, the one with the lowest number.
fn lowest_of(outcomes: &[Outcome]) -> Option<Cause>
    ensures { result ≡ decides outcomes.now }
{
    match outcomes {
        [] => None,
        [Outcome::Fault(cause), others @ ..] => Some(lower(*cause, lowest_of(others))),
        [Outcome::Done | Outcome::Stopped, others @ ..] => lowest_of(others),
    }
}

// The cause with the lower number; of two with one number, the first.
fn lower(first: Cause, second: Option<Cause>) -> Cause
    ensures { result ≡ lower first second }
{
    match second {
        Some(second) if number_of(second) < number_of(first) => second,
        _ => first,
    }
}
