ghost use Rattle.std.specs.Prelude.{◌≡◌, ◌&&◌, not, length, None, IfOk};
ghost use Rattle.std.specs.List.{list_all};
ghost use Rattle.access_check.specs.Places.{has};
ghost use Rattle.access_check.specs.Description.{rights_to, rights_in};
ghost use Rattle.access_check.specs.Judgement.{declaration_fault, right_fault, order_fault, card_fault, is_declared};
ghost use Rattle.access_check.specs.Judgement.{missing, missing_fault, is_later, backward, backward_fault, is_backward};
ghost use Rattle.access_check.specs.Judgement.{accepted};
ghost use Rattle.access_check.specs.Adding.{behind, nothing, HasFewNames};
ghost use Rattle.access_check.specs.declared.card.Card.TheVariants.{Monitor, Process, Order};

use crate::card::Card;
use crate::fault::{Accepted, AccessFault};
use crate::name_list::NameList;
use solo_base::{Ident, NoMemory};
use std::alloc::Global;

/// How many names may be declared.
const MOST_NAMES: usize = 255;

/// What the cards so far declare, and how they order the monitors.
#[derive(Drop)]
pub struct Description {
    pub monitors: NameList,
    pub processes: NameList,
    pub order: NameList,
}

impl Description {
    pub fn new(alloc: Global) -> Description
        ensures { result ≡ nothing }
    {
        Description {
            monitors: NameList::new(alloc),
            processes: NameList::new(alloc),
            order: NameList::new(alloc),
        }
    }

    /// Takes a card of this number, or answers its least fault.
    pub fn take(&mut self, card: Card, number: u32) -> Result<Option<AccessFault>, NoMemory>
        requires { HasFewNames self.old }
        ensures fault { IfOk result (λ fault. fault ≡ card_fault self.old number card) }
        ensures taken { IfOk result (λ fault. fault ≡ None → self.new ≡ behind self.old card) }
        ensures small { IfOk result (λ fault. fault ≡ None → HasFewNames self.new) }
    {
        match card {
            Card::Blank => Ok(None),
            Card::Bad => Ok(Some(AccessFault::BadLine { card: number })),
            Card::Monitor(name) => self.take_monitor(name, number),
            Card::Process(name) => self.take_process(name, number),
            Card::Right { holder, monitors } => {
                Ok(self.right_fault(&holder, monitors.as_slice(), number))
            }
            Card::Order(monitors) => self.take_order(monitors.as_slice(), number),
        }
    }

    fn take_monitor(&mut self, name: Ident, number: u32) -> Result<Option<AccessFault>, NoMemory>
        requires { HasFewNames self.old }
        ensures fault { IfOk result (λ fault. fault ≡ declaration_fault self.old number name) }
        ensures taken { IfOk result (λ fault. fault ≡ None → self.new ≡ behind self.old (Monitor name)) }
        ensures small { IfOk result (λ fault. fault ≡ None → HasFewNames self.new) }
    {
        let fault = self.declaration_fault(&name, number);
        if fault.is_some() {
            return Ok(fault);
        }
        self.monitors.push(name)?;
        Ok(None)
    }

    fn take_process(&mut self, name: Ident, number: u32) -> Result<Option<AccessFault>, NoMemory>
        requires { HasFewNames self.old }
        ensures fault { IfOk result (λ fault. fault ≡ declaration_fault self.old number name) }
        ensures taken { IfOk result (λ fault. fault ≡ None → self.new ≡ behind self.old (Process name)) }
        ensures small { IfOk result (λ fault. fault ≡ None → HasFewNames self.new) }
    {
        let fault = self.declaration_fault(&name, number);
        if fault.is_some() {
            return Ok(fault);
        }
        self.processes.push(name)?;
        Ok(None)
    }

    fn take_order(
        &mut self,
        monitors: &[Ident],
        number: u32,
    ) -> Result<Option<AccessFault>, NoMemory>
        requires { HasFewNames self.old }
        ensures fault { IfOk result (λ fault. fault ≡ order_fault self.old number monitors.now) }
        ensures taken { IfOk result (λ fault. fault ≡ None →
            self.new ≡ behind self.old (Order monitors.now)) }
        ensures small { HasFewNames self.new }
    {
        if !self.monitors.has_all(monitors) {
            return Ok(Some(AccessFault::Unknown { card: number }));
        }
        if !self.order.append(monitors)? {
            return Ok(Some(AccessFault::Again { card: number }));
        }
        Ok(None)
    }

    fn declaration_fault(&self, name: &Ident, number: u32) -> Option<AccessFault>
        requires { HasFewNames self.now }
        ensures { result ≡ declaration_fault self.now number name.now }
    {
        if self.is_declared(name) {
            return Some(AccessFault::Twice { card: number });
        }
        if self.monitors.as_slice().len() + self.processes.as_slice().len() == MOST_NAMES {
            return Some(AccessFault::TooMany { card: number });
        }
        None
    }

    fn right_fault(&self, holder: &Ident, monitors: &[Ident], number: u32) -> Option<AccessFault>
        ensures { result ≡ right_fault self.now number holder.now monitors.now }
    {
        if self.is_declared(holder) && self.monitors.has_all(monitors) {
            None
        } else {
            Some(AccessFault::Unknown { card: number })
        }
    }

    fn is_declared(&self, name: &Ident) -> bool
        ensures { result ≡ is_declared self.now name.now }
    {
        self.monitors.has(name) || self.processes.has(name)
    }

    /// The first declared monitor that isn't in the order.
    pub fn missing(&self) -> Option<AccessFault>
        ensures { result ≡ missing_fault (missing self.now) }
    {
        match self.order.first_outside(self.monitors.as_slice()) {
            Some(monitor) => Some(AccessFault::Missing { monitor }),
            None => None,
        }
    }

    /// The first right of this card that goes backward.
    pub fn backward_on(&self, card: &Card) -> Option<AccessFault>
        ensures { result ≡ backward_fault (backward self.now (rights_in card.now)) }
    {
        match card {
            Card::Right { holder, monitors } => self.backward(holder, monitors.as_slice()),
            _ => None,
        }
    }

    fn backward(&self, holder: &Ident, monitors: &[Ident]) -> Option<AccessFault>
        ensures { result ≡ backward_fault (backward self.now (rights_to holder.now monitors.now)) }
    {
        let [monitor, more @ ..] = monitors else {
            return None;
        };
        if self.is_backward(holder, monitor) {
            return Some(AccessFault::Backward {
                holder: *holder,
                monitor: *monitor,
            });
        }
        self.backward(holder, more)
    }

    /// Whether the holder is a monitor, and the other monitor isn't later in the order.
    fn is_backward(&self, holder: &Ident, monitor: &Ident) -> bool
        ensures { result ≡ is_backward self.now (record { holder = holder.now; monitor = monitor.now }) }
    {
        self.monitors.has(holder) && !is_later(self.order.place(holder), self.order.place(monitor))
    }

    pub fn accepted(&self) -> Accepted
        requires { HasFewNames self.now }
        ensures { result ≡ accepted self.now }
    {
        Accepted {
            monitors: self.monitors.as_slice().len() as u16,
            processes: self.processes.as_slice().len() as u16,
        }
    }
}

/// Whether the second place is behind the first.
fn is_later(here: Option<usize>, there: Option<usize>) -> bool
    ensures { result ≡ is_later here there }
{
    match (here, there) {
        (Some(here), Some(there)) => here < there,
        _ => false,
    }
}
