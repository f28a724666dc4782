//! System ids as text: three groups of four hexadecimal digits joined by dots, as in `0000.0000.00ff` for 255.
ghost use Rattle.std.specs.Prelude.{◌≡◌, ◌+◌, ◌<◌, ◌≤◌, ◌^◌, ◌%◌, ◌++◌, Some, length, IfSome, OnOk, OnErr};
ghost use Rattle.std.specs.Char.{digit_value, digit_char};
ghost use Rattle.std.specs.Option.{SomeIff};
ghost use Rattle.sr_model.specs.SystemText.{group_read, system_text, system_read};

use crate::name::SystemId;
use std::alloc::AllocError;

/// The value of a hexadecimal digit in upper or lower case.
fn digit(byte: u8) -> Option<u64>
    ensures { SomeIff result (digit_value byte < 16) (digit_value byte) }
{
    let digit = (byte as char).to_digit(16)?;
    Some(digit as u64)
}

/// The number that the four characters from this place on write, if they are hexadecimal digits.
#[tactic(auto, unfolding(crate::specs::SystemText::group_read))]
fn group(text: &[u8], at: usize) -> Option<u64>
    requires { at + 4 ≤ length text.now }
    ensures value { result ≡ group_read text.now at }
    ensures small { IfSome result (λ n. n < 2 ^ 16) }
{
    let first = digit(text[at])?;
    let second = digit(text[at + 1])?;
    let third = digit(text[at + 2])?;
    let last = digit(text[at + 3])?;
    Some(((first * 16 + second) * 16 + third) * 16 + last)
}

/// The character, in lower case, of the lowest hexadecimal digit.
fn character(value: u64) -> u8
    ensures { result ≡ digit_char (value % 16) }
{
    let digit = (value % 16) as u8;
    if digit < 10 {
        b'0' + digit
    } else {
        b'a' + (digit - 10)
    }
}

impl SystemId {
    /// The system id that the text writes. None exactly where it isn't three groups of four hexadecimal digits joined by
    /// dots. Digits in upper and in lower case are taken.
    pub fn read(text: &[u8]) -> Option<SystemId>
        ensures { result ≡ system_read text.now }
    {
        if text.len() != 14 || text[4] != b'.' || text[9] != b'.' {
            return None;
        }
        let high = group(text, 0)?;
        let middle = group(text, 5)?;
        let low = group(text, 10)?;
        SystemId::new(high * (1 << 32) + middle * (1 << 16) + low)
    }

    /// The id as text, with digits in lower case.
    #[tactic(auto, using(crate::proofs::SystemTextLemmas::written_is_read))]
    fn text(self) -> [u8; 14]
        ensures text { result ≡ system_text self }
        ensures read_again { system_read (system_text self) ≡ Some self }
    {
        let value = self.value();
        [
            character(value >> 44),
            character(value >> 40),
            character(value >> 36),
            character(value >> 32),
            b'.',
            character(value >> 28),
            character(value >> 24),
            character(value >> 20),
            character(value >> 16),
            b'.',
            character(value >> 12),
            character(value >> 8),
            character(value >> 4),
            character(value),
        ]
    }

    /// Appends the id as text, with digits in lower case. This text is read as the same id.
    pub fn put(self, out: &mut Vec<u8>) -> Result<(), AllocError>
        ensures ok { OnOk result (out.new.items ≡ out.old.items ++ system_text self) }
        ensures err { OnErr result (out.new.items ≡ out.old.items) }
        ensures read_again { system_read (system_text self) ≡ Some self }
    {
        let text = self.text();
        out.extend_from_slice(&text)
    }
}
