//! The gates of the buffers between the job process and another, and their ends: made before the processes
//! begin, and ended once all have.
ghost use Rattle.std.specs.Prelude.{◌≡◌, [], IfOk};
ghost use Rattle.solo_run.specs.Gates.{AreEndsOf, AreFresh, GatesMeet, IsFresh};

use slot_buffer::{RecvEnd, SendEnd, SlotGate, meet};
use solo_base::{Arg, NoMemory, Page, Side};
use std::alloc::Global;

/// A running buffer with its two ends.
type Running<T> = (SlotGate<T>, SendEnd<T>, RecvEnd<T>);

/// The gates of the three buffers of an exchange: orders and pages, and reports of what was done.
pub(crate) struct Gates {
    pub orders: SlotGate<Arg>,
    pub pages: SlotGate<Page>,
    pub reports: SlotGate<Arg>,
}

/// The sender's and the receiver's end at each of them.
#[derive(Drop)]
pub(crate) struct Ends {
    pub orders: (SendEnd<Arg>, RecvEnd<Arg>),
    pub pages: (SendEnd<Page>, RecvEnd<Page>),
    pub reports: (SendEnd<Arg>, RecvEnd<Arg>),
}

impl Gates {
    /// Three buffers that nobody has used.
    pub(crate) fn make(alloc: Global) -> Result<(Gates, Ends), NoMemory>
        ensures { IfOk result (λ made. AreFresh made.0 made.1) }
    {
        let (orders, sender, receiver) = SlotGate::make(alloc)?;
        match make_others(alloc) {
            Ok((pages, reports)) => Ok(joined((orders, sender, receiver), pages, reports)),
            Err(refused) => {
                let _met = meet(orders, sender, receiver);
                Err(refused)
            }
        }
    }

    /// Ends the three, once the ends of each have met: who stopped each first.
    pub(crate) fn meet(self, ends: Ends) -> (Option<Side>, Option<Side>, Option<Side>)
        requires { AreEndsOf self ends }
        ensures { GatesMeet ends result }
    {
        let Gates {
            orders,
            pages,
            reports,
        } = self;
        let orders = meet(orders, ends.orders.0, ends.orders.1);
        let pages = meet(pages, ends.pages.0, ends.pages.1);
        let reports = meet(reports, ends.reports.0, ends.reports.1);
        (orders.stopped_by, pages.stopped_by, reports.stopped_by)
    }
}

// The buffers of pages and of reports.
fn make_others(alloc: Global) -> Result<(Running<Page>, Running<Arg>), NoMemory>
    ensures pages { IfOk result (λ made. IsFresh made.0) }
    ensures reports { IfOk result (λ made. IsFresh made.1) }
{
    let (pages, sender, receiver) = SlotGate::make(alloc)?;
    match SlotGate::make(alloc) {
        Ok(reports) => Ok(((pages, sender, receiver), reports)),
        Err(refused) => {
            let _met = meet(pages, sender, receiver);
            Err(refused)
        }
    }
}

// All gates, and all ends.
fn joined(orders: Running<Arg>, pages: Running<Page>, reports: Running<Arg>) -> (Gates, Ends)
    ensures gates { result.0 ≡ record { orders = orders.0; pages = pages.0; reports = reports.0 } }
    ensures ends { result.1 ≡ record {
      orders = (orders.1, orders.2);
      pages = (pages.1, pages.2);
      reports = (reports.1, reports.2);
    } }
{
    let gates = Gates {
        orders: orders.0,
        pages: pages.0,
        reports: reports.0,
    };
    let ends = Ends {
        orders: (orders.1, orders.2),
        pages: (pages.1, pages.2),
        reports: (reports.1, reports.2),
    };
    (gates, ends)
}
