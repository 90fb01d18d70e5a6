ghost use Rattle.std.specs.Prelude.{◌≡◌, ◌<◌, ◌≤◌, List, [], ◌∷◌, ◌++◌, length, slice_get, Some};

use crate::Arg;
use arrayvec::ArrayVec;
use std::marker::Model;

/// How many arguments a list holds at most.
pub const ARG_LIMIT: usize = 10;

/// The arguments of a program or of a command: at most 10, in fixed room.
#[derive(Debug, Drop)]
pub struct ArgList {
    args: ArrayVec<Arg, ARG_LIMIT>,
}

impl Model for ArgList {
    ghost use Rattle.std.specs.Prelude.{◌≤◌, List, length};
    ghost use Rattle.solo_base.specs.declared.arg_list.TheConstants.{ARG_LIMIT};
    ghost use Rattle.solo_base.specs.declared.system_call.Arg.{Arg};

    ghost Value = { List Arg };

    ghost view = { λ list. list.args.items };

    ghost invariant = { λ list. length list.args.items ≤ ARG_LIMIT };
}

impl ArgList {
    /// The list of no arguments.
    pub fn new() -> ArgList
        ensures { result ≡ [] }
    {
        ArgList {
            args: ArrayVec::new(),
        }
    }

    /// Adds an argument at the end.
    pub fn push(&mut self, arg: Arg)
        requires { length self.old < ARG_LIMIT }
        ensures { self.new ≡ self.old ++ arg ∷ [] }
    {
        self.args.push(arg);
    }

    /// How many arguments there are.
    pub fn len(&self) -> usize
        ensures count { result ≡ length self.now }
        ensures most { length self.now ≤ ARG_LIMIT }
    {
        self.args.len()
    }

    /// The argument at a place, counted from 0.
    pub fn get(&self, i: usize) -> Arg
        requires { i < length self.now }
        ensures { slice_get self.now i ≡ Some result }
    {
        self.args.as_slice()[i]
    }
}
