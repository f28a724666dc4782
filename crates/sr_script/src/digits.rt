//! Hexadecimal digits, 32 at a time.

ghost use Rattle.std.specs.Prelude.{◌≡◌, ◌*◌, ◌↔◌, IsTrue, IsErr, Ok, MatchBool, length};
ghost use Rattle.hex.specs.Hex.{decode_of};
ghost use Rattle.sr_script.specs.Digits.{AreValuesOf, AreDigits, AreOctetsOf};

use std::simd::prelude::*;

/// How many octets a block of 32 digits writes.
const OCTETS: usize = 16;

/// The values of the digits in a block. A byte that is no digit comes out as 16 or more.
#[inline(always)]
fn values_of(bytes: u8x32) -> u8x32
    ensures { AreValuesOf 32 bytes result }
{
    // Sums and differences wrap. `0` to `9` give 246 to 255 and so 0 to 9, and each other byte
    // gives 6 to 245 and so 16 or more.
    let decimal = (bytes - u8x32::splat(b'9' + 1)).simd_max(u8x32::splat(6)) + u8x32::splat(10);
    // `a` to `f` give 0 to 5 and so 10 to 15, and each other byte again 16 or more.
    let lower_case = bytes | u8x32::splat(0x20);
    let letter = (lower_case - u8x32::splat(b'a')).simd_min(u8x32::splat(245)) + u8x32::splat(10);
    decimal.simd_min(letter)
}

/// Whether all these values are digits'.
#[inline(always)]
fn are_digits(values: u8x32) -> bool
    ensures { IsTrue result ↔ AreDigits 32 values }
{
    !values.simd_ge(u8x32::splat(16)).any()
}

/// The octets that pairs of digits with these values write.
#[inline(always)]
fn octets_of(values: u8x32) -> u8x16
    requires { AreDigits 32 values }
    ensures { AreOctetsOf 16 values result }
{
    // A pair is a number of 16 bits, whose low byte is the first digit.
    let pairs = u16x16::from_le_bytes(values);
    let sums = (pairs << u16x16::splat(4)) + (pairs >> u16x16::splat(8));
    (sums & u16x16::splat(0xff)).cast::<u8>()
}

/// Writes the octets of a text that is no whole block, by the decoder that reads digit by digit.
fn write_few(text: &[u8], octets: &mut [u8]) -> bool
    requires { length text.now ≡ 2 * length octets.old }
    ensures { MatchBool result (decode_of text.now ≡ Ok octets.new) (IsErr (decode_of text.now)) }
{
    hex::decode_to_slice(text, octets).is_ok()
}

/// Writes the octets of the text, two digits each, or says that some byte is no digit. Then some of
/// them may be written.
pub(crate) fn write_pairs(text: &[u8], octets: &mut [u8]) -> bool
    requires { length text.now ≡ 2 * length octets.old }
    ensures { MatchBool result (decode_of text.now ≡ Ok octets.new) (IsErr (decode_of text.now)) }
{
    let blocks = octets.len() / OCTETS;
    for block in 0..blocks {
        let at = OCTETS * block;
        let values = values_of(u8x32::from_slice(&text[2 * at..]));
        if !are_digits(values) {
            return false;
        }
        octets_of(values).copy_to_slice(&mut octets[at..]);
    }
    let done = OCTETS * blocks;
    write_few(&text[2 * done..], &mut octets[done..])
}
