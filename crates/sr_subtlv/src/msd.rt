//! Maximum SID depths of a node (RFC 8491, 2): read, written, and what they hold.

ghost use Rattle.std.specs.Prelude.{◌≡◌, ◌↔◌, ◌*◌, ◌%◌, ◌≤◌, ◌++◌, List, length, IfOk, OnErr, OnOk};
ghost use Rattle.sr_wire.specs.Octets.{Continues};
ghost use Rattle.sr_wire.specs.Fields.{sub_text};
ghost use Rattle.sr_subtlv.specs.declared.msd.Msd.{Msd};
ghost use Rattle.sr_subtlv.specs.Msd.{AreMsds, msds_sub, msds_value};

use sr_seq::Seq;
use sr_wire::SubKind;
use sr_wire::registry::{LONGEST_VALUE, NODE_MSD};
use std::alloc::{AllocError, Global};

/// A maximum SID depth of some type; type 1 is how many labels the node can impose (RFC 8491, 2 and 5).
#[derive(Clone, Copy, Debug, PartialEq, Eq)]
pub struct Msd {
    pub kind: u8,
    pub value: u8,
}

/// How many octets a depth has.
const DEPTH: usize = 2;

impl SubKind<Seq<Msd>> for Msd {
    ghost use Rattle.sr_subtlv.specs.Msd.{msds_sub};
    ghost use Rattle.std.specs.Prelude.{◌^◌};

    ghost sub = { msds_sub };

    ghost most = { 2 ^ 66 };

    fn kind() -> u8 {
        NODE_MSD
    }

    /// A value says nothing where it has an odd number of octets.
    fn read(alloc: Global, value: &[u8]) -> Result<Option<Seq<Msd>>, AllocError> {
        if value.len() % DEPTH != 0 {
            return Ok(None);
        }
        let msds = pairs(alloc, value)?;
        Ok(Some(Seq::new(msds)))
    }

    fn length(x: &Seq<Msd>) -> u128 {
        DEPTH as u128 * x.as_slice().len() as u128
    }

    fn write(x: &Seq<Msd>, out: &mut Vec<u8>) -> Result<(), AllocError> {
        write_msds(x.as_slice(), out)
    }

    fn fits(_x: &Seq<Msd>) -> bool {
        true
    }

    fn widths(_x: &Seq<Msd>) {}
}

/// The depths that the octets are, two octets each.
fn pairs(alloc: Global, value: &[u8]) -> Result<Vec<Msd>, AllocError>
    requires { length value.now % 2 ≡ 0 }
    ensures { IfOk result (λ msds. AreMsds value.now msds.items) }
{
    let mut msds = Vec::with_capacity(alloc, value.len() / DEPTH)?;
    let mut at = 0;
    while at < value.len() {
        msds.push(Msd {
            kind: value[at],
            value: value[at + 1],
        })?;
        at += DEPTH;
    }
    Ok(msds)
}

/// Appends the sub-TLV; an error leaves the octets as they were.
fn write_msds(msds: &[Msd], out: &mut Vec<u8>) -> Result<(), AllocError>
    requires { 2 * length msds.now ≤ LONGEST_VALUE }
    ensures ok { OnOk result (out.new.items ≡ out.old.items ++ sub_text msds_sub msds.now) }
    ensures err { OnErr result (out.new.items ≡ out.old.items) }
{
    let start = out.len();
    match push_msds(msds, out) {
        Ok(()) => Ok(()),
        Err(fault) => {
            out.truncate(start);
            Err(fault)
        }
    }
}

/// Appends the sub-TLV. After an error what was there still stands, and other octets may follow it.
fn push_msds(msds: &[Msd], out: &mut Vec<u8>) -> Result<(), AllocError>
    requires { 2 * length msds.now ≤ LONGEST_VALUE }
    ensures ok { OnOk result (out.new.items ≡ out.old.items ++ sub_text msds_sub msds.now) }
    ensures err { OnErr result (Continues out.old.items out.new.items) }
{
    out.extend_from_slice(&[NODE_MSD, (DEPTH * msds.len()) as u8])?;
    for msd in msds {
        out.extend_from_slice(&[msd.kind, msd.value])?;
    }
    Ok(())
}

/// What is written of depths is read as those, and as no others.
pub fn msds_are_read_again()
    ensures { (given read : List Msd) → (AreMsds (msds_value given) read ↔ (read ≡ given)) }
{}
