use solo_base::Ident;

/// How many names a description declares that has no fault.
#[derive(Clone, Copy, Debug)]
pub struct Accepted {
    pub monitors: u16,
    pub processes: u16,
}

/// Why a description isn't accepted: the first card with a fault and its least fault, in the order in
/// which they stand here, then a monitor that isn't in the order, then a right that goes backward in it.
#[derive(Clone, Copy, Debug)]
pub enum AccessFault {
    /// The card is spoiled, or of no known form.
    BadLine { card: u32 },
    /// The card declares a name that is declared.
    Twice { card: u32 },
    /// The card is the 256th declaration.
    TooMany { card: u32 },
    /// The card has a holder that isn't declared before it, or another name that is no monitor declared
    /// before it.
    Unknown { card: u32 },
    /// The card orders a monitor that stands earlier in the order.
    Again { card: u32 },
    /// This is the first declared monitor that isn't in the order.
    Missing { monitor: Ident },
    /// This is the first right of a monitor to one that isn't later in the order.
    Backward { holder: Ident, monitor: Ident },
    /// Memory was refused.
    NoMemory,
}
