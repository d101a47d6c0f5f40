//! Whether a text means itself in JSON: no byte of it is escaped.

ghost use Rattle.std.specs.Prelude.{◌≡◌, ◌+◌, ◌<◌, ◌≤◌, length};
ghost use Rattle.std.specs.Bool.{OnTrue};
ghost use Rattle.json.specs.Print.{escape};
ghost use Rattle.json.specs.Written.{PlainBetween};

use std::simd::prelude::*;

/// Whether each of `N` bytes from a place on means itself. They are looked at together.
fn are_plain<const N: usize>(bytes: &[u8], at: usize) -> bool
    requires within { at + N ≤ length bytes.now }
    requires lanes { N ≤ 64 }
    ensures { OnTrue result (PlainBetween bytes.now at (at + N)) }
{
    let lanes = Simd::<u8, N>::from_slice(&bytes[at..]);
    (lanes.simd_eq(Simd::splat(b'"'))
        | lanes.simd_eq(Simd::splat(b'\\'))
        | lanes.simd_lt(Simd::splat(b' '))).to_bitmask()
        == 0
}

/// Whether each of a few bytes means itself.
fn are_few_plain(bytes: &[u8]) -> bool
    ensures { OnTrue result (PlainBetween bytes.now 0 (length bytes.now)) }
{
    for &byte in bytes {
        if byte == b'"' || byte == b'\\' || byte < b' ' {
            return false;
        }
    }
    true
}

/// Whether each of up to 16 bytes means itself. Those in the middle are looked at twice.
fn are_short_plain(bytes: &[u8]) -> bool
    requires { length bytes.now ≤ 16 }
    ensures { OnTrue result (PlainBetween bytes.now 0 (length bytes.now)) }
{
    let len = bytes.len();
    if len >= 8 {
        are_plain::<8>(bytes, 0) && are_plain::<8>(bytes, len - 8)
    } else if len >= 4 {
        are_plain::<4>(bytes, 0) && are_plain::<4>(bytes, len - 4)
    } else {
        are_few_plain(bytes)
    }
}

/// Whether each of 16 bytes or more means itself. The last 16 are looked at together, whatever of them was seen before.
fn are_long_plain(bytes: &[u8]) -> bool
    requires { 16 ≤ length bytes.now }
    ensures { OnTrue result (PlainBetween bytes.now 0 (length bytes.now)) }
{
    let mut at = 0;
    while bytes.len() - at > 16 {
        if !are_plain::<16>(bytes, at) {
            return false;
        }
        at += 16;
    }
    are_plain::<16>(bytes, bytes.len() - 16)
}

/// Whether each byte of a text means itself.
pub(crate) fn is_plain(text: &str) -> bool
    ensures { OnTrue result (escape text.now ≡ text.now) }
{
    let bytes = text.as_bytes();
    if bytes.len() < 16 {
        are_short_plain(bytes)
    } else {
        are_long_plain(bytes)
    }
}
