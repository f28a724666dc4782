//! Flags inside a line, by their letters.
ghost use Rattle.std.specs.Prelude.{◌≡◌, ◌++◌, OnOk, OnErr};
ghost use Rattle.sr_print.specs.Account.{flags_text, letter_of, letters, node_flags, source_flags};
ghost use Rattle.sr_print.specs.Printed.{BeginsWith};

use sr_labels::NodeLabels;
use sr_wire::registry::{
    ADJ_SID_BACKUP, ADJ_SID_IPV6, ADJ_SID_LOCAL, ADJ_SID_PERSISTENT, ADJ_SID_SET, ADJ_SID_VALUE,
};
use std::alloc::AllocError;

/// Appends the letter of a flag, where it is set. After an error what stood before stays.
fn put_letter(set: bool, letter: u8, out: &mut Vec<u8>) -> Result<(), AllocError>
    ensures line { OnOk result (out.new.items ≡ out.old.items ++ letter_of (set, letter)) }
    ensures err { OnErr result (BeginsWith out.old.items out.new.items) }
{
    if set {
        out.push(letter)?;
    }
    Ok(())
}

/// Appends the letter of each flag that is set. After an error a part of them may stand there;
/// what stood before stays.
fn put_letters(flags: &[(bool, u8)], out: &mut Vec<u8>) -> Result<(), AllocError>
    ensures line { OnOk result (out.new.items ≡ out.old.items ++ letters flags.now) }
    ensures err { OnErr result (BeginsWith out.old.items out.new.items) }
{
    for (set, letter) in flags {
        put_letter(*set, *letter, out)?;
    }
    Ok(())
}

/// Appends ` flags ` and the letter of each flag that is set, or ` flags none`.
/// After an error a part of it may stand there; what stood before stays.
fn put_flags(flags: &[(bool, u8)], out: &mut Vec<u8>) -> Result<(), AllocError>
    ensures line { OnOk result (out.new.items ≡ out.old.items ++ flags_text flags.now) }
    ensures err { OnErr result (BeginsWith out.old.items out.new.items) }
{
    out.extend_from_slice(b" flags ")?;
    let start = out.len();
    put_letters(flags, out)?;
    if out.len() == start {
        return out.extend_from_slice(b"none");
    }
    Ok(())
}

/// Appends ` flags F`: the letters of a node's flags P and E, and O where it is overloaded.
/// After an error a part of it may stand there; what stood before stays.
pub(crate) fn put_node_flags(
    labels: &NodeLabels,
    overloaded: bool,
    out: &mut Vec<u8>,
) -> Result<(), AllocError>
    ensures line { OnOk result (out.new.items ≡ out.old.items ++ flags_text (node_flags labels.now overloaded)) }
    ensures err { OnErr result (BeginsWith out.old.items out.new.items) }
{
    let flags = [
        (labels.keep(), b'P'),
        (labels.explicit(), b'E'),
        (overloaded, b'O'),
    ];
    put_flags(&flags, out)
}

/// Appends ` flags F`: the letters of the flags of an adjacency SID, where there is one.
/// After an error a part of it may stand there; what stood before stays.
pub(crate) fn put_sid_flags(flags: Option<u8>, out: &mut Vec<u8>) -> Result<(), AllocError>
    ensures line { OnOk result (out.new.items ≡ out.old.items ++ flags_text (source_flags flags)) }
    ensures err { OnErr result (BeginsWith out.old.items out.new.items) }
{
    match flags {
        None => put_flags(&[], out),
        Some(flags) => {
            let flags = [
                (flags & ADJ_SID_IPV6 != 0, b'F'),
                (flags & ADJ_SID_BACKUP != 0, b'B'),
                (flags & ADJ_SID_VALUE != 0, b'V'),
                (flags & ADJ_SID_LOCAL != 0, b'L'),
                (flags & ADJ_SID_SET != 0, b'S'),
                (flags & ADJ_SID_PERSISTENT != 0, b'P'),
            ];
            put_flags(&flags, out)
        }
    }
}
