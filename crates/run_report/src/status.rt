ghost use Rattle.std.specs.Prelude.{◌≡◌};
ghost use Rattle.run_report.specs.Status.{number_of, status_of};

use solo_base::Cause;

/// The status with which a program ends: 0 where the whole work was done, else the number of the cause.
pub fn status_of(cause: Option<Cause>) -> u8
    ensures { result ≡ status_of cause }
{
    match cause {
        None => 0,
        Some(cause) => number_of(cause),
    }
}

/// The number of a cause.
pub fn number_of(cause: Cause) -> u8
    ensures { result ≡ number_of cause }
{
    match cause {
        Cause::Usage => 1,
        Cause::ReadFault => 2,
        Cause::DiskFault => 3,
        Cause::PrintFault => 4,
        Cause::ConsoleFault => 5,
        Cause::DeckLimit => 6,
        Cause::NotSolo { page: _ } => 7,
        Cause::Damaged {
            expected: _,
            found: _,
            at: _,
        } => 8,
        Cause::NoMemory => 9,
    }
}
