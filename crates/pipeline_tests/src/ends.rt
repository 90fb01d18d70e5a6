ghost use Rattle.std.specs.Prelude.{◌≡◌, None, [], ◌∷◌, Some, Ok};

use crate::numbers::numbers;
use pipeline::*;
use solo_base::NoMemory;
use std::alloc::Global;

/// Gives what is left, and then fails.
#[derive(Drop)]
struct Breaks {
    given: Vec<u64>,
    left: u64,
}

impl Source for Breaks {
    type Item = u64;

    ghost gave = { λ source. source.given.items };

    ghost tells = { λ source. None };

    ghost failed = { λ source. source.left ≡ 0 };

    fn next(&mut self) -> Result<Option<u64>, Failed> {
        if self.left == 0 {
            return Err(Failed);
        }
        if self.given.push(self.left).is_err() {
            self.left = 0;
            return Err(Failed);
        }
        let number = self.left;
        self.left -= 1;
        Ok(Some(number))
    }
}

/// Takes so many numbers, and fails at the next.
#[derive(Drop)]
struct Full {
    taken: Vec<u64>,
    room: u64,
}

impl Sink for Full {
    type Item = u64;

    ghost took = { λ sink. sink.taken.items };

    ghost failed = { λ sink. sink.room ≡ 0 };

    fn put(&mut self, number: u64) -> Result<(), Failed> {
        if self.room == 0 {
            return Err(Failed);
        }
        if self.taken.push(number).is_err() {
            self.room = 0;
            return Err(Failed);
        }
        self.room -= 1;
        Ok(())
    }
}

/// Gives each number as it is.
#[derive(Drop)]
struct Same;

impl Function for Same {
    type In = u64;

    type Out = u64;

    ghost of = { λ stage number. number ∷ [] };

    fn call(&self, number: u64, outs: &mut Outs<u64>) -> Result<(), NoMemory> {
        outs.give(number)
    }
}

#[test]
fn a_source_that_fails_is_told(rt: HostRuntime) {
    let alloc: Global = rt.alloc();
    let source = Breaks {
        given: Vec::new(alloc),
        left: 1000,
    };
    let ran = run_two_between(
        &rt,
        alloc,
        source,
        Each(Same),
        Each(Same),
        Collect::new(alloc),
    );
    assert!(rt; ran.ended == Err(Cause::Source));
    assert!(rt; ran.sink.items.len() == 1000);
}

#[test]
fn a_sink_that_fails_is_told(rt: HostRuntime) -> Result<(), NoMemory> {
    let alloc: Global = rt.alloc();
    let sink = Full {
        taken: Vec::new(alloc),
        room: 7,
    };
    let ran = run_two_between(
        &rt,
        alloc,
        Items::of(numbers(alloc, 1000)?),
        Each(Same),
        Each(Same),
        sink,
    );
    assert!(rt; ran.ended == Err(Cause::Sink));
    assert!(rt; ran.sink.taken.len() == 7);
    Ok(())
}
