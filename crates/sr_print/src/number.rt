//! Numbers and names inside a line.
ghost use Rattle.std.specs.Prelude.{◌≡◌, ◌++◌, decimal, OnOk, OnErr};
ghost use Rattle.sr_print.specs.Printed.{BeginsWith, node_word, word};

use itoa::Buffer;
use sr_model::SystemId;
use std::alloc::AllocError;

/// Appends a number in decimal digits. After an error what stood before stays.
// An audit prints up to two million numbers, which take less time without a call for each.
#[inline(always)]
pub fn put_number(number: u64, out: &mut Vec<u8>) -> Result<(), AllocError>
    ensures line { OnOk result (out.new.items ≡ out.old.items ++ decimal number) }
    ensures err { OnErr result (BeginsWith out.old.items out.new.items) }
{
    let mut buffer = Buffer::new();
    out.extend_from_slice(buffer.format(number).as_bytes())
}

/// Appends a number of more than 64 bits in decimal digits. After an error what stood before stays.
pub fn put_wide(number: u128, out: &mut Vec<u8>) -> Result<(), AllocError>
    ensures line { OnOk result (out.new.items ≡ out.old.items ++ decimal number) }
    ensures err { OnErr result (BeginsWith out.old.items out.new.items) }
{
    let mut buffer = Buffer::new();
    out.extend_from_slice(buffer.format(number).as_bytes())
}

/// Appends a number as one more word. After an error a part of it may stand there;
/// what stood before stays.
#[inline(always)]
pub fn put_value(number: u64, out: &mut Vec<u8>) -> Result<(), AllocError>
    ensures line { OnOk result (out.new.items ≡ out.old.items ++ word (decimal number)) }
    ensures err { OnErr result (BeginsWith out.old.items out.new.items) }
{
    out.push(b' ')?;
    put_number(number, out)
}

/// Appends a node's name as one more word. After an error a part of it may stand there;
/// what stood before stays.
#[tactic(auto, unfolding(crate::specs::Printed::node_word))]
pub fn put_node(node: SystemId, out: &mut Vec<u8>) -> Result<(), AllocError>
    ensures line { OnOk result (out.new.items ≡ out.old.items ++ node_word node) }
    ensures err { OnErr result (BeginsWith out.old.items out.new.items) }
{
    out.push(b' ')?;
    node.put(out)
}
