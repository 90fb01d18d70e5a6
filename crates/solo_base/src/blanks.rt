ghost use Rattle.std.specs.Prelude.{◌≡◌};
ghost use Rattle.solo_base.specs.Blanks.{trimmed};

/// The bytes without the blanks at their end.
pub fn trim_end(bytes: &[u8]) -> &[u8]
    ensures { result.now ≡ trimmed bytes.now }
{
    let mut front = bytes;
    while let [rest @ .., last] = front {
        if *last != b' ' {
            break;
        }
        front = rest;
    }
    front
}
