//! Reading a link-state PDU.

ghost use Rattle.std.specs.Prelude.{◌≤◌, length, IfErr, IfOk, MatchResult};
ghost use Rattle.sr_wire.specs.Fault.{IfMalformed};
ghost use Rattle.sr_wire.specs.Parts.{body_of};
ghost use Rattle.sr_lsp.specs.InRange.{FitsLsp};
ghost use Rattle.sr_lsp.specs.Lsp.{IsBroken, Reads};
ghost use Rattle.sr_lsp.specs.Table.{rows};

use crate::header::{HEADER_OCTETS, Header};
use crate::lsp::{Lsp, LspId};
use crate::parts::Parts;
use crate::table::{Part, push_parts};
use sr_wire::{Check, Malformed, ReadFault, frame};
use std::alloc::Global;

/// The value of a link-state PDU, with the known parts in order of place, or the first check that the octets fail.
/// Unknown TLVs and sub-TLVs are stepped over, and octets past the PDU length are left unread. The layouts can hold each
/// value that is read.
pub fn read_lsp(alloc: Global, octets: &[u8]) -> Result<Lsp, ReadFault>
    ensures says { MatchResult result (λ lsp. Reads octets.now lsp)
        (λ fault. IfMalformed fault (λ malformed. IsBroken octets.now malformed)) }
    ensures range { IfOk result (λ lsp. FitsLsp lsp) }
{
    let header = match Header::read(octets) {
        Ok(header) => header,
        Err(malformed) => return Err(ReadFault::Malformed(malformed)),
    };
    let body = &octets[HEADER_OCTETS..usize::from(header.pdu_length)];
    let parts = match read_parts(alloc, body) {
        Ok(parts) => parts,
        Err(fault) => return Err(fault.behind(HEADER_OCTETS)),
    };
    Ok(Lsp {
        lifetime: header.lifetime,
        id: LspId {
            system: header.system,
            pseudonode: header.pseudonode,
            fragment: header.fragment,
        },
        sequence: header.sequence,
        checksum: header.checksum,
        flags: header.flags,
        parts: Parts::new(alloc, parts)?,
    })
}

/// The parts that the TLVs of a PDU's body say.
fn read_parts(alloc: Global, body: &[u8]) -> Result<Vec<Part>, ReadFault>
    ensures says { MatchResult result (λ parts. (body_of rows).says body.now parts.items)
        (λ fault. IfMalformed fault
        (λ malformed. (body_of rows).fault body.now malformed.offset malformed.check)) }
    ensures within { IfErr result
        (λ fault. IfMalformed fault (λ malformed. malformed.offset ≤ length body.now)) }
{
    let mut parts = Vec::new(alloc);
    let mut at = 0;
    while at < body.len() {
        match frame(body, at) {
            Ok(place) => {
                let value = &body[place.from..place.to];
                match push_parts(alloc, place.kind, value, &mut parts) {
                    Ok(()) => {}
                    Err(fault) => return Err(fault.behind(place.from)),
                }
                at = place.to;
            }
            Err(overrun) => {
                return Err(ReadFault::Malformed(Malformed::at(overrun.offset, Check::TlvExtent)));
            }
        }
    }
    Ok(parts)
}
