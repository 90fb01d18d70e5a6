//! What a command of Solo needs, and what its work is handed for it: cards and typed lines. The crate has
//! definitions alone.
#![tactic(auto)]
