//! Link-state PDUs: how they are read, what they say, and how they are written. Each kind of TLV is a module here, a file in
//! `specs/`, a file in `proofs/`, and a row in the table.
#![tactic(auto)]

mod capability;
mod decoding;
mod header;
mod laws;
mod lsp;
mod name;
mod octets;
mod parts;
mod prefix;
mod prefix_extent;
mod reach;
mod risk;
mod same;
mod table;
mod write_fault;
mod writing;

pub use capability::Capability;
pub use decoding::read_lsp;
pub use laws::{
    each_type_has_its_faults, each_type_says_its_layout, the_fault_is_determined,
    what_is_cut_short_is_broken, what_is_read_is_determined, what_is_read_is_not_broken,
    what_is_written_is_read_again,
};
pub use lsp::{Lsp, LspId};
pub use name::Name;
pub use parts::{PartRef, Parts};
pub use prefix::Prefix;
pub use reach::Reach;
pub use risk::Risk;
pub use sr_wire::{Check, Malformed, ReadFault};
pub use table::Part;
pub use write_fault::WriteFault;
pub use writing::{in_range, write_lsp};
