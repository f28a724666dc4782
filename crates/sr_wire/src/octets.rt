//! Numbers in octets, the highest octet first.

ghost use Rattle.std.specs.Prelude.{◌≡◌, ◌+◌, ◌≤◌, length};
ghost use Rattle.sr_wire.specs.Octets.{number};

use byteorder::{BigEndian, ByteOrder};

/// The 16 bits at a place.
pub fn u16_at(octets: &[u8], at: usize) -> u16
    requires { at + 2 ≤ length octets.now }
    ensures { result ≡ number octets.now at 2 }
{
    BigEndian::read_u16(&octets[at..])
}

/// The 24 bits at a place.
pub fn u24_at(octets: &[u8], at: usize) -> u32
    requires { at + 3 ≤ length octets.now }
    ensures { result ≡ number octets.now at 3 }
{
    BigEndian::read_u24(&octets[at..])
}

/// The 32 bits at a place.
pub fn u32_at(octets: &[u8], at: usize) -> u32
    requires { at + 4 ≤ length octets.now }
    ensures { result ≡ number octets.now at 4 }
{
    BigEndian::read_u32(&octets[at..])
}

/// The 48 bits at a place.
pub fn u48_at(octets: &[u8], at: usize) -> u64
    requires { at + 6 ≤ length octets.now }
    ensures { result ≡ number octets.now at 6 }
{
    BigEndian::read_u48(&octets[at..])
}
