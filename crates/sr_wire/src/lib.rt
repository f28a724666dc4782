//! What a PDU of type-length-value pieces stands on: frames, runs, sub-TLVs, tables of kinds, and the registries' numbers.
#![tactic(auto)]

mod entries;
mod fault;
mod framing;
mod kind;
mod numbers;
pub mod octets;
mod place;
mod read_fault;
pub mod registry;
mod sub_fields;
mod sub_kind;
mod subs;

pub use entries::{Entries, Next, read_entries};
pub use fault::{Check, Malformed};
pub use framing::{frame, tlv_is_found_again};
pub use kind::TlvKind;
pub use numbers::{numbers_length, numbers_widths, read_numbers, write_numbers};
pub use place::{Frame, Overrun};
pub use read_fault::ReadFault;
pub use sub_fields::{
    add_all, add_first, all_fit, all_length, all_widths, first_fits, first_length, first_widths,
    write_all_subs, write_first,
};
pub use sub_kind::SubKind;
pub use subs::{SubTlvs, read_subs};
