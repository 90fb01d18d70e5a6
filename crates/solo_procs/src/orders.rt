ghost use Rattle.std.specs.Prelude.{◌≡◌};
ghost use Rattle.exchange_law.specs.Parcels.{is_nil};
ghost use Rattle.solo_law.specs.JobPlaces.{cards_order, printer_order};
ghost use Rattle.solo_procs.specs.Job.{says_true};

use solo_base::{Arg, Ident};

/// Whether an order dismisses who serves.
pub fn is_nil(order: &Arg) -> bool
    ensures { result ≡ is_nil order.now }
{
    matches!(order, Arg::Nil)
}

/// Whether a report says TRUE.
pub fn says_true(report: &Arg) -> bool
    ensures { result ≡ says_true report.now }
{
    match report {
        Arg::Bool(said) => *said,
        _ => false,
    }
}

/// The order of a card file.
pub fn cards_order() -> Arg
    ensures { result ≡ cards_order }
{
    match Ident::of(b"CARDS") {
        Some(name) => Arg::Id(name),
        None => unreachable!(),
    }
}

/// The order of printing.
pub fn printer_order() -> Arg
    ensures { result ≡ printer_order }
{
    match Ident::of(b"PRINTER") {
        Some(name) => Arg::Id(name),
        None => unreachable!(),
    }
}
