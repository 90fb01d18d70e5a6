ghost use Rattle.std.specs.Prelude.{◌≡◌, ◌≢◌, ℕ, None, Some, Err, IfOk};
ghost use Rattle.stack_code.specs.declared.fault.CodeFault.TheVariants.{NoMemory, BadCode};
ghost use Rattle.stack_code.specs.Rules.{broken_record};

use crate::broken::broken_record;
use crate::{Code, CodeFault};
use std::marker::Model;

/// Code that breaks no rule, so that it is safe to run. Only `verify` makes it.
#[derive(Debug, Drop)]
pub struct Verified {
    code: Code,
}

impl Model for Verified {
    ghost use Rattle.stack_code.specs.CodeLists.{CodeLists};
    ghost use Rattle.stack_code.specs.Rules.{IsGood};

    ghost Value = { CodeLists };

    ghost view = { λ verified. verified.code };

    ghost invariant = { λ verified. IsGood verified.code };
}

impl Verified {
    ghost use Rattle.stack_code.specs.Rules.{IsGood};

    /// The code.
    pub fn code(&self) -> &Code
        ensures code { result.now ≡ self.now }
        ensures good { IsGood self.now }
    {
        &self.code
    }
}

/// The same code, where no rule is broken; else the place in its code file of the first record that
/// breaks one, routines before instructions. It takes no memory.
pub fn verify(code: Code) -> Result<Verified, CodeFault>
    ensures same { IfOk result (λ verified. verified ≡ code) }
    ensures good { IfOk result (λ _. broken_record code ≡ None) }
    ensures broken { (at : ℕ) → result ≡ Err (BadCode at) → broken_record code ≡ Some at }
    ensures needs_no_memory { result ≢ Err NoMemory }
{
    if let Some(at) = broken_record(&code) {
        return Err(CodeFault::BadCode { at });
    }
    Ok(Verified { code })
}
