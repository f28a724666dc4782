//! The table of the kinds of TLVs: a row each in the enum and in the two matches.

ghost use Rattle.std.specs.Prelude.{◌≡◌, ◌↔◌, ◌≤◌, ◌++◌, List, length, IfErr, IsTrue, MatchResult, OnErr, OnOk};
ghost use Rattle.sr_wire.specs.Octets.{Continues};
ghost use Rattle.sr_wire.specs.Fault.{IfMalformed};
ghost use Rattle.sr_wire.specs.Format.{TlvSays, ValueFault};
ghost use Rattle.sr_wire.specs.Parts.{HasShortValue, part_text};
ghost use Rattle.sr_lsp.specs.declared.table.Part.{Part};
ghost use Rattle.sr_lsp.specs.Parts.{part_of};
ghost use Rattle.sr_lsp.specs.Table.{rows, spelling};

use crate::capability::Capability;
use crate::name::Name;
use crate::parts::PartRef;
use crate::prefix::Prefix;
use crate::reach::Reach;
use crate::risk::Risk;
use sr_wire::registry::{
    EXTENDED_PREFIX, EXTENDED_REACH, HOST_NAME, ROUTER_CAPABILITY, SHARED_RISK,
};
use sr_wire::{ReadFault, TlvKind};
use std::alloc::{AllocError, Global};

/// What a TLV says, an entry of it at a time.
#[derive(Debug, Drop)]
pub enum Part {
    Reach(Reach),
    Prefix(Prefix),
    Name(Name),
    Risk(Risk),
    Capability(Capability),
}

/// What follows of a part's value, whatever its kind.
macro_rules! of_part {
    ($part:expr, $value:ident => $call:expr) => {
        match $part {
            PartRef::Reach($value) => $call,
            PartRef::Prefix($value) => $call,
            PartRef::Name($value) => $call,
            PartRef::Risk($value) => $call,
            PartRef::Capability($value) => $call,
        }
    };
}

/// Appends the parts that a TLV says.
pub(crate) fn push_parts(
    alloc: Global,
    kind: u8,
    value: &[u8],
    parts: &mut Vec<Part>,
) -> Result<(), ReadFault>
    ensures says { MatchResult result
        (λ _. (own : List Part) × TlvSays rows (record { kind = kind; value = value.now }) own
        × (parts.new.items ≡ parts.old.items ++ own))
        (λ fault. IfMalformed fault
        (λ malformed. ValueFault rows
        (record { kind = kind; value = value.now }) malformed.offset malformed.check)) }
    ensures within { IfErr result
        (λ fault. IfMalformed fault (λ malformed. malformed.offset ≤ length value.now)) }
{
    match kind {
        EXTENDED_REACH => Reach::read(alloc, value, parts),
        EXTENDED_PREFIX => Prefix::read(alloc, value, parts),
        HOST_NAME => Name::read(alloc, value, parts),
        SHARED_RISK => Risk::read(alloc, value, parts),
        ROUTER_CAPABILITY => Capability::read(alloc, value, parts),
        _ => Ok(()),
    }
}

/// How many octets the value of the part's TLV has.
pub(crate) fn part_length(part: PartRef<'_>) -> u128
    requires { (spelling (part_of part)).fits }
    ensures { result ≡ length (spelling (part_of part.entry)).value }
{
    of_part!(part, value => value.length())
}

/// Appends the TLV of a part. After an error what was there still stands, and other octets may follow it.
pub(crate) fn write_part(part: PartRef<'_>, out: &mut Vec<u8>) -> Result<(), AllocError>
    requires fits { (spelling (part_of part)).fits }
    requires short { HasShortValue spelling (part_of part) }
    ensures ok { OnOk result (out.new.items ≡ out.old.items ++ part_text spelling (part_of part.entry)) }
    ensures err { OnErr result (Continues out.old.items out.new.items) }
{
    of_part!(part, value => value.write(out))
}

/// Whether the fields of a part fit its layout.
pub(crate) fn fits_part(part: PartRef<'_>) -> bool
    ensures { IsTrue result ↔ (spelling (part_of part.entry)).fits }
{
    of_part!(part, value => value.fits())
}

/// The numbers of a part fit their octets, as those of every value in memory do.
pub(crate) fn part_widths(part: PartRef<'_>)
    ensures { (spelling (part_of part.entry)).widths }
{
    of_part!(part, value => value.widths())
}
