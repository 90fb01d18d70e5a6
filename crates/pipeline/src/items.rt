// Items that are there.
ghost use Rattle.std.specs.Prelude.{◌≡◌, ◌-◌, ◌≤◌, length, drop, Some};

use crate::{Failed, Source};
use std::collections::VecDeque;
use std::snapshot::Snapshot;

/// Gives these items, one after the other. It never fails.
#[derive(Drop)]
pub struct Items<T> {
    all: Snapshot<Vec<T>>,
    left: VecDeque<T>,
    ghost fewer: { length left.items ≤ length all.value.items },
    ghost last: { drop (length all.value.items - length left.items) all.value.items ≡ left.items },
}

impl<T> Items<T> {
    pub fn of(items: Vec<T>) -> Items<T>
        ensures all { result.all.value ≡ items }
        ensures begins { result.left.items ≡ items.items }
    {
        let all = Snapshot::of(&items);
        Items {
            all,
            left: VecDeque::from(items),
        }
    }
}

impl<T: Drop> Source for Items<T> {
    ghost use Rattle.std.specs.Prelude.{Some, ◌-◌, take, length};

    type Item = T;

    ghost gave = { λ s. take (length s.all.value.items - length s.left.items) s.all.value.items };

    ghost tells = { λ s. Some s.all.value.items };

    ghost failed = { λ s. ⊥ };

    fn next(&mut self) -> Result<Option<T>, Failed> {
        Ok(self.left.pop_front())
    }
}
