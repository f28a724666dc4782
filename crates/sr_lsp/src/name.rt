//! The name of a router, TLV 137 (RFC 5301, 3): read, written, and what it holds.

use crate::table::Part;
use sr_seq::Seq;
use sr_wire::registry::HOST_NAME;
use sr_wire::{ReadFault, TlvKind};
use std::alloc::{AllocError, Global};

/// The octets of the name.
#[derive(Debug, Drop)]
pub struct Name {
    pub octets: Seq<u8>,
}

impl TlvKind<Part> for Name {
    ghost use Rattle.sr_lsp.specs.Name.{name_kind};

    ghost kind = { name_kind };

    fn read(alloc: Global, value: &[u8], parts: &mut Vec<Part>) -> Result<(), ReadFault> {
        let octets = Vec::from_slice(alloc, value)?;
        parts.push(Part::Name(Name {
            octets: Seq::new(octets),
        }))?;
        Ok(())
    }

    fn length(&self) -> u128 {
        self.octets.as_slice().len() as u128
    }

    fn write(&self, out: &mut Vec<u8>) -> Result<(), AllocError> {
        out.extend_from_slice(&[HOST_NAME, self.octets.as_slice().len() as u8])?;
        out.extend_from_slice(self.octets.as_slice())
    }

    fn fits(&self) -> bool {
        true
    }

    fn widths(&self) {}
}
