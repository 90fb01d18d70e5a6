// Who stopped.
ghost use Rattle.std.specs.Prelude.{◌≡◌};
ghost use Rattle.queue_var.specs.Sides.{first_of, with_stop};

use solo_base::Side;

/// Which sides of a buffer have stopped, and which of them first.
#[derive(Clone, Copy, Debug, PartialEq, Eq)]
pub enum Stops {
    Neither,
    /// This side alone.
    One(Side),
    /// Both, and this side first.
    Both(Side),
}

impl Stops {
    /// The side that stopped first.
    pub fn first(self) -> Option<Side>
        ensures { result ≡ first_of self }
    {
        match self {
            Stops::Neither => None,
            Stops::One(side) | Stops::Both(side) => Some(side),
        }
    }

    /// The same after a side has stopped. A second stop of one side changes nothing.
    pub fn with(self, side: Side) -> Stops
        ensures { result ≡ with_stop self side }
    {
        match self {
            Stops::Neither => Stops::One(side),
            Stops::One(first) if first != side => Stops::Both(first),
            stops => stops,
        }
    }
}
