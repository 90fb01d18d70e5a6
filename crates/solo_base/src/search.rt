ghost use Rattle.std.specs.Prelude.{◌≡◌, ◌==◌};
ghost use Rattle.std.specs.List.{position_or_len};

/// Where the byte stands first, or how many bytes there are where it stands nowhere.
pub fn first_place(bytes: &[u8], byte: u8) -> usize
    ensures { result ≡ position_or_len (λ other. other == byte) bytes.now }
{
    bytes
        .iter()
        .position(|other| *other == byte)
        .unwrap_or(bytes.len())
}
