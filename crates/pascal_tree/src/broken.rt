// A broken rule.

/// The number of a broken rule, from 1 to 15, and the line of the word that is named.
#[derive(Clone, Copy, Debug, PartialEq, Eq)]
pub struct Broken {
    pub rule: u8,
    pub line: u32,
}
