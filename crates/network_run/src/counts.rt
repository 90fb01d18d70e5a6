ghost use Rattle.std.specs.Prelude.{◌≡◌};
ghost use Rattle.network_run.specs.Counting.{counted_by, delays_by, grants_by, no_counts};

use crate::Stepped;
use solo_base::ProcNo;

/// What a run counts. A count stands still at its last value.
#[derive(Clone, Copy, Debug, PartialEq, Eq)]
pub struct Counts {
    /// All its events.
    pub events: u64,
    /// Those that ended in a delay.
    pub delays: u64,
    /// The requests that were granted, at once or by a release.
    pub grants: u64,
}

impl Counts {
    /// Before the first event.
    pub(crate) fn none() -> Counts
        ensures { result ≡ no_counts }
    {
        Counts {
            events: 0,
            delays: 0,
            grants: 0,
        }
    }

    /// With one event more: how it went, and who had what is granted before it and behind it.
    pub(crate) fn with(
        self,
        stepped: Stepped,
        before: Option<ProcNo>,
        after: Option<ProcNo>,
    ) -> Counts
        ensures { result ≡ counted_by self (delays_by stepped) (grants_by before after) }
    {
        Counts {
            events: self.events.saturating_add(1),
            delays: self.delays.saturating_add(delays(stepped)),
            grants: self.grants.saturating_add(grants(before, after)),
        }
    }
}

// A delay, or none.
fn delays(stepped: Stepped) -> u64
    ensures { result ≡ delays_by stepped }
{
    match stepped {
        Stepped::Delayed => 1,
        Stepped::Acted | Stepped::Resumed | Stepped::Ended => 0,
    }
}

// A grant, or none.
fn grants(before: Option<ProcNo>, after: Option<ProcNo>) -> u64
    ensures { result ≡ grants_by before after }
{
    match (before, after) {
        (_, None) => 0,
        (None, Some(_)) => 1,
        (Some(old), Some(new)) => u64::from(old != new),
    }
}
