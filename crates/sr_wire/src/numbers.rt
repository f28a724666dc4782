//! Lists of numbers of four octets each.

ghost use Rattle.std.specs.Prelude.{◌≡◌, ◌-◌, ◌%◌, ◌<◌, ◌≤◌, ◌^◌, ◌++◌, length, drop, All, IfOk, OnErr, OnOk};
ghost use Rattle.sr_wire.specs.Octets.{Continues};
ghost use Rattle.sr_wire.specs.Numbers.{AreNumbers, FitsFourOctets, numbers_text};

use crate::octets::u32_at;
use byteorder::{BigEndian, ByteOrder};
use sr_seq::Few;
use std::alloc::{AllocError, Global};

/// How many octets a number has.
const NUMBER: usize = 4;

/// The numbers that stand from a place to the end.
pub fn read_numbers(alloc: Global, value: &[u8], from: usize) -> Result<Few<u32>, AllocError>
    requires within { from ≤ length value.now }
    requires whole { (length value.now - from) % 4 ≡ 0 }
    ensures { IfOk result (λ numbers. AreNumbers (drop from value.now) numbers) }
{
    let mut numbers = Few::with_room(alloc, (value.len() - from) / NUMBER)?;
    let mut at = from;
    while at < value.len() {
        numbers.push(u32_at(value, at))?;
        at += NUMBER;
    }
    Ok(numbers)
}

/// How many octets the numbers have.
pub fn numbers_length(numbers: &[u32]) -> u128
    ensures is { result ≡ length (numbers_text numbers.now) }
    ensures small { result < 2 ^ 68 }
{
    NUMBER as u128 * numbers.len() as u128
}

/// Appends the octets of the numbers. After an error what was there still stands, and other octets may follow it.
pub fn write_numbers(numbers: &[u32], out: &mut Vec<u8>) -> Result<(), AllocError>
    ensures ok { OnOk result (out.new.items ≡ out.old.items ++ numbers_text numbers.now) }
    ensures err { OnErr result (Continues out.old.items out.new.items) }
{
    for &number in numbers {
        let mut octets = [0; 4];
        BigEndian::write_u32(&mut octets, number);
        out.extend_from_slice(&octets)?;
    }
    Ok(())
}

/// Each number fits its octets, as every number in memory does.
pub fn numbers_widths(numbers: &[u32])
    ensures { All FitsFourOctets numbers.now }
{
    for &number in numbers {
        let _number = number;
    }
}
