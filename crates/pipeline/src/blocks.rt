// Items are put together in blocks.
ghost use Rattle.std.specs.Prelude.{◌≡◌, ◌-◌, ◌<◌, ◌≤◌, ◌++◌, length, replicate, take};
ghost use Rattle.pipeline.specs.Blocks.{blocks_behind};

use crate::{Outs, Stage};
use solo_base::NoMemory;

/// Gives blocks of so many items. The last is filled up.
#[derive(Drop)]
pub struct Blocks<T: Copy, const N: usize> {
    items: [T; N],
    filled: usize,
    filler: T,
    ghost part: { (length items ≡ N) × (filled < N) },
}

impl<T: Copy, const N: usize> Blocks<T, N> {
    /// Nothing was taken yet. The last block will be filled up with this.
    pub fn new(filler: T) -> Blocks<T, N>
        requires { 0 < N }
        ensures { (result.filled ≡ 0) × (result.filler ≡ filler) }
    {
        Blocks {
            items: [filler; N],
            filled: 0,
            filler,
        }
    }
}

impl<T: Copy + Drop, const N: usize> Stage for Blocks<T, N> {
    type In = T;

    type Out = [T; N];

    ghost gives = { λ blocks taken. blocks_behind N blocks.filler (take blocks.filled blocks.items) taken };

    fn step(&mut self, item: T, outs: &mut Outs<[T; N]>) -> Result<(), NoMemory> {
        self.items[self.filled] = item;
        if self.filled < N - 1 {
            self.filled += 1;
            return Ok(());
        }
        self.filled = 0;
        outs.give(self.items)
    }

    fn last(&mut self, outs: &mut Outs<[T; N]>) -> Result<(), NoMemory> {
        if self.filled == 0 {
            return Ok(());
        }
        fill_up(&mut self.items[..], self.filled, self.filler);
        outs.give(self.items)
    }
}

// Fills up what is behind so many items.
fn fill_up<T: Copy>(items: &mut [T], filled: usize, filler: T)
    requires { filled ≤ length items.old }
    ensures { items.new ≡ take filled items.old ++ replicate (length items.old - filled) filler }
{
    for place in filled..items.len() {
        items[place] = filler;
    }
}
