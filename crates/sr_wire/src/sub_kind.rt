//! What each kind of sub-TLV does: its module gives these calls, and no clause.

ghost use Rattle.std.specs.Prelude.{◌≡◌, ◌↔◌, ℕ, ◌≤◌, ◌++◌, length, IfOk, IsTrue, MatchOption, OnErr, OnOk};
ghost use Rattle.sr_wire.specs.Fields.{Sub, sub_text};

use crate::registry::LONGEST_VALUE;
use std::alloc::{AllocError, Global};

/// A kind of sub-TLV whose values are `X`. To add one, give a module with the type of its values and this `impl`, a file in
/// `specs/` with its `Sub`, and one in `proofs/` with its `SubLaws`. What holds such sub-TLVs then takes one more field: by
/// `first_of` where the first of them counts, and by `all_of` where all do.
pub trait SubKind<X> {
    /// The kind.
    ghost sub: { Sub X };

    /// No value has more octets.
    ghost most: { ℕ };

    /// Its type.
    fn kind() -> u8
        ensures { result ≡ sub.kind };

    /// What the octets of a value say, or `None` exactly where they say nothing.
    fn read(alloc: Global, value: &[u8]) -> Result<Option<X>, AllocError>
        ensures { IfOk result
            (λ found. MatchOption found ((x : X) → sub.means value.now x → ⊥)
            (sub.means value.now)) };

    /// How many octets the value has.
    fn length(x: &X) -> u128
        ensures is { result ≡ length (sub.value x.now) }
        ensures small { result ≤ most };

    /// Appends the sub-TLV of the value; an error leaves the octets as they were.
    fn write(x: &X, out: &mut Vec<u8>) -> Result<(), AllocError>
        requires fits { sub.fits x.now }
        requires short { length (sub.value x.now) ≤ LONGEST_VALUE }
        ensures ok { OnOk result (out.new.items ≡ out.old.items ++ sub_text sub x.now) }
        ensures err { OnErr result (out.new.items ≡ out.old.items) };

    /// Whether the value has a spelling.
    fn fits(x: &X) -> bool
        ensures { IsTrue result ↔ sub.fits x.now };

    /// The numbers fit the octets in which they are written, as those of every value in memory do.
    fn widths(x: &X)
        ensures { sub.widths x.now };
}
