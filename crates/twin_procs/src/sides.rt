// The two sides, each with a job process between two spools.
ghost use Rattle.std.specs.Prelude.{◌≡◌};
ghost use Rattle.twin_law.specs.Sides.{Twin, A, B, other, to_job, from_job};
ghost use Rattle.twin_procs.specs.Said.{twin};

use solo_base::BufferNo;

/// One of the two sides.
#[derive(Clone, Copy)]
pub enum TwinSide {
    A,
    B,
}

impl TwinSide {
    /// The other side.
    pub fn other(self) -> TwinSide
        ensures { twin result ≡ other (twin self) }
    {
        match self {
            TwinSide::A => TwinSide::B,
            TwinSide::B => TwinSide::A,
        }
    }

    /// The spool to the job process of the side.
    pub fn to_job(self) -> BufferNo
        ensures { result ≡ to_job (twin self) }
    {
        match self {
            TwinSide::A => 2,
            TwinSide::B => 3,
        }
    }

    /// The spool from it.
    pub fn from_job(self) -> BufferNo
        ensures { result ≡ from_job (twin self) }
    {
        match self {
            TwinSide::A => 4,
            TwinSide::B => 5,
        }
    }
}

/// A type that names a side, so that one machine serves both.
pub trait OnSide {
    ghost side: { Twin };

    fn side() -> TwinSide
        ensures { twin result ≡ side };
}

/// The first side.
pub struct SideA;

/// The second side.
pub struct SideB;

impl OnSide for SideA {
    ghost use Rattle.twin_law.specs.Sides.{A};

    ghost side = { A };

    fn side() -> TwinSide {
        TwinSide::A
    }
}

impl OnSide for SideB {
    ghost use Rattle.twin_law.specs.Sides.{B};

    ghost side = { B };

    fn side() -> TwinSide {
        TwinSide::B
    }
}
