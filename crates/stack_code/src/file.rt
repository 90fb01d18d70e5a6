ghost use Rattle.std.specs.Prelude.{◌≡◌, ◌<◌, ◌≤◌, ◌+◌, ◌^◌, slice_index};
ghost use Rattle.solo_base.specs.PageBytes.{number_at};
ghost use Rattle.stack_code.specs.CodeFile.{routines_end, instrs_end, file_end, count_may_stand, routine_byte_may_stand, instr_byte_may_stand, may_stand, is_wrong, wrong_byte, padding, uses_a, uses_b};

use crate::Op;
use solo_base::PAGE_LENGTH;

/// The letters at the front of a code file.
pub(crate) const LETTERS: &[u8; 8] = b"SEQCODE1";

/// The least place at which the bytes differ from every code file, or `None` where they are one.
pub(crate) fn wrong_byte(bytes: &[u8]) -> Option<u32>
    ensures { result ≡ wrong_byte bytes.now }
{
    for place in 0..file_end(bytes) + 1 {
        if is_wrong(bytes, place) {
            return Some(place as u32);
        }
    }
    None
}

fn is_wrong(bytes: &[u8], place: usize) -> bool
    ensures { result ≡ is_wrong bytes.now place }
{
    if place < file_end(bytes) {
        !(place < bytes.len() && may_stand(bytes, place))
    } else {
        place < bytes.len()
    }
}

fn may_stand(bytes: &[u8], place: usize) -> bool
    ensures { result ≡ may_stand bytes.now place }
{
    let byte = byte_at(bytes, place);
    if place < 8 {
        return byte == LETTERS[place];
    }
    match place {
        8 => return count_may_stand(bytes, 8, 255),
        10 => return count_may_stand(bytes, 10, 8192),
        9 | 11 => return true,
        _ => {}
    }
    if place < routines_end(bytes) {
        return routine_byte_may_stand((place - 12) % 8, byte);
    }
    if place < instrs_end(bytes) {
        let at = (place - routines_end(bytes)) % 5;
        return instr_byte_may_stand(byte_at(bytes, place - at), at, byte);
    }
    byte == 0
}

fn count_may_stand(bytes: &[u8], place: usize, limit: usize) -> bool
    requires { place < 2 ^ 20 }
    ensures { result ≡ count_may_stand bytes.now place limit }
{
    let count = count_at(bytes, place);
    bytes.len() <= place + 1 || (1 <= count && count <= limit)
}

fn routine_byte_may_stand(at: usize, byte: u8) -> bool
    ensures { result ≡ routine_byte_may_stand at byte }
{
    at != 3 || byte <= 1
}

fn instr_byte_may_stand(number: u8, at: usize, byte: u8) -> bool
    ensures { result ≡ instr_byte_may_stand number at byte }
{
    match at {
        0 => Op::at(byte).is_some(),
        1 | 2 => uses_a(number) || byte == 0,
        _ => uses_b(number) || byte == 0,
    }
}

fn uses_a(number: u8) -> bool
    ensures { result ≡ uses_a number }
{
    Op::at(number).map_or(false, |op| op.row().uses_a)
}

fn uses_b(number: u8) -> bool
    ensures { result ≡ uses_b number }
{
    Op::at(number).map_or(false, |op| op.row().uses_b)
}

/// Where the routines end, by the count that the bytes give.
pub(crate) fn routines_end(bytes: &[u8]) -> usize
    ensures place { result ≡ routines_end bytes.now }
    ensures front { 12 ≤ result }
    ensures bound { result < 2 ^ 20 }
{
    12 + 8 * count_at(bytes, 8)
}

fn instrs_end(bytes: &[u8]) -> usize
    ensures place { result ≡ instrs_end bytes.now }
    ensures bound { result < 2 ^ 21 }
{
    routines_end(bytes) + 5 * count_at(bytes, 10)
}

fn file_end(bytes: &[u8]) -> usize
    ensures place { result ≡ file_end bytes.now }
    ensures bound { result < 2 ^ 22 }
{
    let end = instrs_end(bytes);
    end + (PAGE_LENGTH - end % PAGE_LENGTH) % PAGE_LENGTH
}

/// The number in the bytes at a place and the next, as far as they are there.
pub(crate) fn count_at(bytes: &[u8], place: usize) -> usize
    requires { place < 2 ^ 21 }
    ensures count { result ≡ number_at bytes.now place }
    ensures bound { result < 2 ^ 16 }
{
    byte_at(bytes, place) as usize * 256 + byte_at(bytes, place + 1) as usize
}

/// The byte at a place, or 0 where there is none.
pub(crate) fn byte_at(bytes: &[u8], place: usize) -> u8
    ensures { result ≡ slice_index bytes.now place }
{
    bytes.get(place).copied().unwrap_or(0)
}
