// Where statements stand.

use crate::scope::Scope;
use crate::table::Declared;

/// Where statements stand: the program's routines, the characters of the input, the limit of ticks,
/// what names mean there, and the number of the activation.
#[derive(Clone, Copy)]
pub struct Setting<'a> {
    pub routines: &'a [Declared<'a>],
    pub text: &'a [u8],
    pub limit: u32,
    pub scope: Scope<'a>,
    pub number: usize,
}
