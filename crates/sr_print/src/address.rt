//! Addresses and octets inside a line.
ghost use Rattle.std.specs.Prelude.{◌≡◌, ◌%◌, ◌++◌, codes, decimal, OnOk, OnErr};
ghost use Rattle.std.specs.Char.{digit_char};
ghost use Rattle.sr_print.specs.Account.{address_text, address_word, neighbour_text, octet_text};
ghost use Rattle.sr_print.specs.Printed.{BeginsWith};

use crate::number::put_number;
use sr_model::SystemId;
use std::alloc::AllocError;

/// Appends a dot and the lowest eight bits as a decimal number. After an error a part of it may stand there;
/// what stood before stays.
fn put_dotted(value: u32, out: &mut Vec<u8>) -> Result<(), AllocError>
    ensures line { OnOk result (out.new.items ≡ out.old.items ++ codes "." ++ decimal (value % 256)) }
    ensures err { OnErr result (BeginsWith out.old.items out.new.items) }
{
    out.push(b'.')?;
    put_number(u64::from(value % 256), out)
}

/// Appends an IPv4 address, as `192.0.2.1`. After an error a part of it may stand there; what stood before stays.
#[tactic(auto, unfolding(crate::specs::Account::address_text))]
pub(crate) fn put_address(address: u32, out: &mut Vec<u8>) -> Result<(), AllocError>
    ensures line { OnOk result (out.new.items ≡ out.old.items ++ address_text address) }
    ensures err { OnErr result (BeginsWith out.old.items out.new.items) }
{
    put_number(u64::from(address >> 24), out)?;
    put_dotted(address >> 16, out)?;
    put_dotted(address >> 8, out)?;
    put_dotted(address, out)
}

/// Appends an IPv4 address as one more word. After an error a part of it may stand there; what stood before stays.
pub(crate) fn put_address_word(address: u32, out: &mut Vec<u8>) -> Result<(), AllocError>
    ensures line { OnOk result (out.new.items ≡ out.old.items ++ address_word address) }
    ensures err { OnErr result (BeginsWith out.old.items out.new.items) }
{
    out.push(b' ')?;
    put_address(address, out)
}

/// The character, in lower case, of the lowest hexadecimal digit.
fn character(value: u8) -> u8
    ensures { result ≡ digit_char (value % 16) }
{
    let digit = value % 16;
    if digit < 10 {
        b'0' + digit
    } else {
        b'a' + (digit - 10)
    }
}

/// Appends an octet as two hexadecimal digits. After an error what stood before stays.
pub(crate) fn put_octet(octet: u8, out: &mut Vec<u8>) -> Result<(), AllocError>
    ensures line { OnOk result (out.new.items ≡ out.old.items ++ octet_text octet) }
    ensures err { OnErr result (BeginsWith out.old.items out.new.items) }
{
    let digits = [character(octet >> 4), character(octet)];
    out.extend_from_slice(&digits)
}

/// Appends a system id, a dot, and the number of a pseudonode.
/// After an error a part of it may stand there; what stood before stays.
#[tactic(auto, unfolding(crate::specs::Account::neighbour_text))]
pub(crate) fn put_neighbour(
    system: SystemId,
    pseudonode: u8,
    out: &mut Vec<u8>,
) -> Result<(), AllocError>
    ensures line { OnOk result (out.new.items ≡ out.old.items ++ neighbour_text system pseudonode) }
    ensures err { OnErr result (BeginsWith out.old.items out.new.items) }
{
    system.put(out)?;
    out.push(b'.')?;
    put_octet(pseudonode, out)
}
