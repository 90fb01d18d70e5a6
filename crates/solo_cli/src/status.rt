ghost use Rattle.std.specs.Prelude.{◌≡◌};
ghost use Rattle.solo_cli.specs.Status.{status_of};

use crate::refusal::Refusal;
use run_report::number_of;

/// The status with which a command ends: 0 where it did its whole work, else the number of its cause.
pub fn status_of(cause: Option<Refusal>) -> u8
    ensures { result ≡ status_of cause }
{
    match cause {
        None => 0,
        Some(Refusal::Fault(cause)) => number_of(cause),
        Some(Refusal::NoRoom { needed: _, free: _ }) => 10,
    }
}
