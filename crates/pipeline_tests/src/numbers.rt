ghost use Rattle.std.specs.Prelude.{◌+◌, ◌%◌, ◌^◌, [], ◌∷◌};

use pipeline::*;
use solo_base::NoMemory;
use std::alloc::Global;

/// Gives the number and one more than it.
#[derive(Drop)]
struct Doubled;

impl Function for Doubled {
    type In = u64;

    type Out = u64;

    ghost of = { λ stage number. number ∷ (number + 1) % 2 ^ 64 ∷ [] };

    fn call(&self, number: u64, outs: &mut Outs<u64>) -> Result<(), NoMemory> {
        outs.give(number)?;
        outs.give(number.wrapping_add(1))
    }
}

/// Keeps the numbers that three divides.
#[derive(Drop)]
struct ByThree;

impl Test for ByThree {
    ghost use Rattle.std.specs.Prelude.{◌%◌, ◌==◌};

    type Item = u64;

    ghost passes = { λ stage number. number % 3 == 0 };

    fn test(&self, number: &u64) -> bool {
        *number % 3 == 0
    }
}

pub fn numbers(alloc: Global, count: u64) -> Result<Vec<u64>, NoMemory> {
    let mut numbers = Vec::new(alloc);
    for number in 0..count {
        numbers.push(number)?;
    }
    Ok(numbers)
}

#[test]
fn seven_stages_pass_numbers_on_by_four_threads(rt: HostRuntime) -> Result<(), NoMemory> {
    let alloc: Global = rt.alloc();
    let again = Then::new(alloc, Each(Doubled), Keep(ByThree));
    let once_more = Then::new(alloc, Each(Doubled), Keep(ByThree));
    let came = run_four(
        &rt,
        alloc,
        numbers(alloc, 10_000)?,
        Each(Doubled),
        Keep(ByThree),
        Then::new(alloc, again, once_more),
        Blocks::<u64, 4>::new(7),
    );
    assert!(rt; came.ended.is_ok());
    // Of each three numbers two pass the first test, once each, and what passes it passes the others.
    assert!(rt; came.items.len() == 1667);
    assert!(rt; came.items[0] == [0, 3, 3, 6]);
    assert!(rt; came.items[1666] == [9996, 9999, 9999, 7]);
    Ok(())
}

#[test]
fn no_number_is_passed_on(rt: HostRuntime) -> Result<(), NoMemory> {
    let alloc: Global = rt.alloc();
    let came = run_one(&rt, alloc, Vec::new(alloc), Blocks::<u64, 4>::new(7));
    assert!(rt; came.ended.is_ok());
    assert!(rt; came.items.len() == 0);
    Ok(())
}
