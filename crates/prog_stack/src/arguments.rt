// Arguments as a program reads and writes them.

ghost use Rattle.std.specs.Prelude.{◌≡◌, ◌<◌, pos};
ghost use Rattle.std.specs.List.{All};
ghost use Rattle.solo_base.specs.Fits.{Fits};
ghost use Rattle.solo_base.specs.declared.system_call.SysCall.TheVariants as calls;
ghost use Rattle.solo_base.specs.declared.system_call.SysReply.TheVariants as replies;
ghost use Rattle.program_task.specs.Arguments.{argument, argument_of};

use solo_base::{Arg, IDENT_LENGTH, Ident, SysReply};

/// The reply that gives an argument.
pub fn argument(arg: Arg) -> SysReply
    ensures value { result ≡ argument arg }
    ensures fits { Fits calls.ReadArg result }
{
    let name = [b' '; IDENT_LENGTH];
    match arg {
        Arg::Nil => SysReply::Argument {
            tag: 0,
            number: 0,
            name,
        },
        Arg::Bool(value) => SysReply::Argument {
            tag: 1,
            number: i16::from(value),
            name,
        },
        Arg::Int(number) => SysReply::Argument {
            tag: 2,
            number,
            name,
        },
        Arg::Id(ident) => named(ident.bytes()),
    }
}

// The reply that gives a name.
fn named(name: [u8; IDENT_LENGTH]) -> SysReply
    ensures value { result ≡ replies.Argument (pos 3) (pos 0) name }
    ensures fits { Fits calls.ReadArg result }
{
    are_bytes(&name);
    SysReply::Argument {
        tag: 3,
        number: 0,
        name,
    }
}

/// Each byte is below 256. Nothing is done here.
pub fn are_bytes(bytes: &[u8])
    ensures { All (λ byte. byte < 256) bytes.now }
{}

/// The argument with this tag, number and name.
pub fn argument_of(tag: i16, number: i16, name: &[i16; IDENT_LENGTH]) -> Option<Arg>
    ensures { result ≡ argument_of tag number name.now }
{
    match tag {
        0 => Some(Arg::Nil),
        1 => boolean_of(number),
        2 => Some(Arg::Int(number)),
        3 => match Ident::of_words(name) {
            Some(name) => Some(Arg::Id(name)),
            None => None,
        },
        _ => None,
    }
}

ghost use Rattle.program_task.specs.Arguments.{boolean_of};

fn boolean_of(number: i16) -> Option<Arg>
    ensures { result ≡ boolean_of number }
{
    match number {
        0 => Some(Arg::Bool(false)),
        1 => Some(Arg::Bool(true)),
        _ => None,
    }
}
