ghost use Rattle.std.specs.Prelude.{◌≡◌, ◌≢◌, [], None, Err, IfOk, OnOk};
ghost use Rattle.access_check.specs.Description.{description, rights};
ghost use Rattle.access_check.specs.Judgement.{judge, first_card_fault, backward, backward_fault};
ghost use Rattle.access_check.specs.Adding.{nothing, HasFewNames};
ghost use Rattle.access_check.specs.Runs.{HasNoCycle};
ghost use Rattle.access_check.specs.declared.fault.AccessFault.TheVariants as why;

use crate::card::card_meaning;
use crate::description::Description;
use crate::fault::{Accepted, AccessFault};
use solo_base::{Item, NoMemory};
use std::alloc::Global;

/// Judges a description. Where it is accepted, no run of its processes leads to a cycle of monitors.
pub fn check(alloc: Global, items: &[Item]) -> Result<Accepted, AccessFault>
    ensures judged { result ≢ Err why.NoMemory → result ≡ judge items.now }
    ensures no_cycle { OnOk result (HasNoCycle items.now) }
{
    match judged(alloc, items) {
        Ok(answer) => answer,
        Err(_) => Err(AccessFault::NoMemory),
    }
}

fn judged(alloc: Global, items: &[Item]) -> Result<Result<Accepted, AccessFault>, NoMemory>
    ensures { IfOk result (λ answer. answer ≡ judge items.now) }
{
    let mut description = Description::new(alloc);
    if let Some(fault) = read(alloc, &mut description, items)? {
        return Ok(Err(fault));
    }
    if let Some(fault) = description.missing() {
        return Ok(Err(fault));
    }
    match backward(alloc, &description, items)? {
        Some(fault) => Ok(Err(fault)),
        None => Ok(Ok(description.accepted())),
    }
}

/// Takes all cards, or answers the fault of the first that has one.
fn read(
    alloc: Global,
    so_far: &mut Description,
    items: &[Item],
) -> Result<Option<AccessFault>, NoMemory>
    requires { so_far.old ≡ nothing }
    ensures fault { IfOk result (λ fault. fault ≡ first_card_fault [] items.now) }
    ensures taken { IfOk result (λ fault. fault ≡ None → so_far.new ≡ description items.now) }
    ensures small { IfOk result (λ fault. fault ≡ None → HasFewNames so_far.new) }
{
    let mut number = 0u32;
    for item in items {
        number = number.saturating_add(1);
        let card = card_meaning(alloc, item)?;
        if let Some(fault) = so_far.take(card, number)? {
            return Ok(Some(fault));
        }
    }
    Ok(None)
}

/// The first right that goes backward.
fn backward(
    alloc: Global,
    description: &Description,
    items: &[Item],
) -> Result<Option<AccessFault>, NoMemory>
    ensures { IfOk result (λ fault. fault ≡ backward_fault (backward description.now (rights items.now))) }
{
    for item in items {
        let card = card_meaning(alloc, item)?;
        let found = description.backward_on(&card);
        if found.is_some() {
            return Ok(found);
        }
    }
    Ok(None)
}
