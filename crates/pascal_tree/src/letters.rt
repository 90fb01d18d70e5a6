// The letters of a name.

ghost use Rattle.std.specs.Prelude.{◌≡◌, IfOk};

use solo_base::NoMemory;
use std::alloc::Global;
use std::marker::Model;
use std::mem::size_of;

// So many letters stand in the value itself.
const FEW: usize = 14;

#[derive(Drop)]
enum Held {
    Few(u8, [u8; FEW]),
    Many(Box<Vec<u8>>),
}

/// The letters and digits of a name, in as much memory as they need: up to fourteen in the value itself.
///
/// Contracts see the bytes.
pub struct Letters {
    held: Held,
}

const _: () = prove!(size_of::<Letters>() == 16);

// Written out, so that who drops a name needn't know how it is held.
impl Drop for Letters {
    fn drop(self) {
        let Self { held: _ } = self;
    }
}

impl Model for Letters {
    ghost use Rattle.std.specs.Prelude.{List, ℕ};
    ghost use Rattle.pascal_tree.specs.Held.{letters_held, AreHeld};

    ghost Value = { List ℕ };

    ghost view = { λ l. letters_held l.held };

    ghost invariant = { λ l. AreHeld l.held };
}

impl Letters {
    /// A copy of these bytes.
    pub fn of(alloc: Global, bytes: &[u8]) -> Result<Letters, NoMemory>
        ensures { IfOk result (λ letters. letters ≡ bytes.now) }
    {
        let count = bytes.len();
        let held = if count <= FEW {
            let mut few = [0; FEW];
            few[..count].copy_from_slice(bytes);
            Held::Few(count as u8, few)
        } else {
            Held::Many(Box::new(alloc, Vec::from_slice(alloc, bytes)?)?)
        };
        Ok(Letters { held })
    }

    /// The letters, as bytes.
    pub fn bytes(&self) -> &[u8]
        ensures { result.now ≡ self.now }
    {
        match &self.held {
            Held::Few(count, few) => &few[..usize::from(*count)],
            Held::Many(many) => many.as_slice(),
        }
    }

    /// The same letters once more.
    pub fn copy(&self) -> Result<Letters, NoMemory>
        ensures { IfOk result (λ letters. letters ≡ self.now) }
    {
        match &self.held {
            Held::Few(count, few) => Ok(Letters {
                held: Held::Few(*count, *few),
            }),
            Held::Many(many) => Letters::of(*many.allocator(), many.as_slice()),
        }
    }
}
