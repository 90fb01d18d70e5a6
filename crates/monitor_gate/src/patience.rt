//! How long a process looks at a gate before it sleeps on it.
ghost use Rattle.std.specs.Prelude.{◌≡◌, ◌+◌, ◌-◌, ◌<◌, true, false, min};

// How often a process looks at the word of a gate in a short wait, and in a long one, which takes about as
// long as a sleep and a wake.
const FEW_LOOKS: u32 = 50;

const MANY_LOOKS: u32 = 500;

// So many waits are short at most behind a long one.
const MOST_SHORT: u8 = 15;

/// How long a process looks at a gate before it sleeps on it, by how its waits went.
///
/// A long wait saves a sleep where whoever is to hand the gate on has a processor, and is lost where not.
/// Behind one in which the turn didn't come some waits are short: one more than behind the last such wait, and
/// one less for each long wait in which it came.
#[derive(Clone, Copy, Debug)]
pub(crate) struct Patience {
    // So many of the waits that come are short.
    short: u8,
    // So many were short behind the last long one in which the turn didn't come, less one for each in which
    // it came since.
    doubt: u8,
}

impl Patience {
    /// Before the first wait, which is long.
    pub(crate) fn new() -> Patience
        ensures { (result.short ≡ 0) × (result.doubt ≡ 0) }
    {
        Patience { short: 0, doubt: 0 }
    }

    /// How often a process looks at most in the wait that comes.
    pub(crate) fn looks(&self) -> u32
        ensures few { 0 < self.now.short → result ≡ 50 }
        ensures many { self.now.short ≡ 0 → result ≡ 500 }
    {
        if self.short > 0 {
            FEW_LOOKS
        } else {
            MANY_LOOKS
        }
    }

    /// A wait is over: whether the turn came in it.
    pub(crate) fn learn(&mut self, came: bool)
        ensures short { 0 < self.old.short
            → (self.new.short + 1 ≡ self.old.short) × (self.new.doubt ≡ self.old.doubt) }
        ensures came { self.old.short ≡ 0 → came ≡ true
            → (self.new.short ≡ 0) × (self.new.doubt ≡ self.old.doubt - 1) }
        ensures vain { self.old.short ≡ 0 → came ≡ false
            → (self.new.short ≡ min (self.old.doubt + 1) 15) × (self.new.doubt ≡ self.new.short) }
    {
        if self.short > 0 {
            self.short -= 1;
        } else if came {
            self.doubt = self.doubt.saturating_sub(1);
        } else {
            self.doubt = self.doubt.saturating_add(1).min(MOST_SHORT);
            self.short = self.doubt;
        }
    }
}
