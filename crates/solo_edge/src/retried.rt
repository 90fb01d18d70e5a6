//! Reads and writes that are made again where they were interrupted.
ghost use Rattle.std.specs.Prelude.{◌≡◌, ◌≤◌, ◌<◌, IfOk, OnErr, length, take};
ghost use Rattle.std.specs.Io.KnownBytes.{Keeps, Appends, Consumes, IsAtEnd};

use std::io::{self, ErrorKind, Read, Write};

/// Reads once.
pub fn read_piece<R: Read>(reader: &mut R, piece: &mut [u8]) -> io::Result<usize>
    ensures fits { IfOk result (λ count. count ≤ length piece.new) }
    ensures ok { IfOk result (λ count. Consumes (R.remaining reader.old) (R.remaining reader.new)
        (take count piece.new)) }
    ensures end { IfOk result (λ count. count ≡ 0 → 0 < length piece.new
        → IsAtEnd (R.remaining reader.new)) }
    ensures err { OnErr result (Keeps (R.remaining reader.old) (R.remaining reader.new)) }
{
    for _ in 0..u64::MAX {
        match reader.read(piece) {
            Err(error) if error.kind() == ErrorKind::Interrupted => {}
            Err(error) => return Err(error),
            Ok(count) => return Ok(count),
        }
    }
    Err(io::Error::from(ErrorKind::Interrupted))
}

/// Writes once.
pub fn write_piece<W: Write>(writer: &mut W, piece: &[u8]) -> io::Result<usize>
    ensures fits { IfOk result (λ count. count ≤ length piece.now) }
    ensures ok { IfOk result (λ count. Appends (W.contents writer.old) (W.contents writer.new)
        (take count piece.now)) }
    ensures err { OnErr result (Keeps (W.contents writer.old) (W.contents writer.new)) }
{
    for _ in 0..u64::MAX {
        match writer.write(piece) {
            Err(error) if error.kind() == ErrorKind::Interrupted => {}
            Err(error) => return Err(error),
            Ok(count) => return Ok(count),
        }
    }
    Err(io::Error::from(ErrorKind::Interrupted))
}
