use solo_procs::Need;
use solo_work::Printing;

/// How far a program went on.
#[derive(Drop)]
pub enum Progress {
    /// It needs this. It is never an end.
    Needs(Need),
    /// It has ended: what is still to be printed, and the lines that answer then.
    Ends(Printing),
}
