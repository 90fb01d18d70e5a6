//! What is supposed of a drive as it is opened.
ghost use Rattle.std.specs.Prelude.{ℕ, List, []};

/// The first pages of a drive, and what each write that failed left in its page, by the number of calls
/// before it. A function over `S: Start` is proved for all of them, and no code can read them.
pub trait Start: Drop {
    ghost pages: { List (List ℕ) };

    ghost torn: { ℕ → List ℕ };
}

/// For `main` to name.
#[derive(Drop)]
pub struct Unknown;

impl Start for Unknown {
    ghost pages = { [] };

    ghost torn = { λ _. [] };
}
