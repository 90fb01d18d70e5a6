ghost use Rattle.std.specs.Prelude.{◌≡◌, ◌≤◌, take_while, IsTrue, SomeIff};
ghost use Rattle.std.specs.List.{list_all};
ghost use Rattle.solo_base.specs.Ident.{is_digit};
ghost use Rattle.pascal_read.specs.Piece.{value_from};

/// The digits with which the bytes begin.
pub fn front_digits(bytes: &[u8]) -> &[u8]
    ensures front { result.now ≡ take_while is_digit bytes.now }
    ensures digits { IsTrue (list_all is_digit result.now) }
{
    let count = bytes
        .iter()
        .take_while(|byte| byte.is_ascii_digit())
        .count();
    &bytes[..count]
}

/// The number that the digits stand for behind a first part that stands for `start`. `None` where it
/// is above `most`.
#[tactic(auto, using(crate::proofs::Digits::value_from_grows))]
pub fn value_within(start: u16, digits: &[u8], most: u16) -> Option<u16>
    requires start { start ≤ most }
    requires digits { IsTrue (list_all is_digit digits.now) }
    ensures { SomeIff result (value_from start digits.now ≤ most) (value_from start digits.now) }
{
    match digits {
        [] => Some(start),
        [digit, others @ ..] => {
            let number = u32::from(start) * 10 + u32::from(digit - b'0');
            if number > u32::from(most) {
                return None;
            }
            value_within(number as u16, others, most)
        }
    }
}
