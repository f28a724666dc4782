//! What each kind of TLV does: its module gives these calls, and no clause.

ghost use Rattle.std.specs.Prelude.{◌≡◌, ◌↔◌, ◌≤◌, ◌++◌, List, length, IfErr, IsTrue, MatchResult, OnErr, OnOk};
ghost use Rattle.sr_wire.specs.Octets.{Continues};
ghost use Rattle.sr_wire.specs.Fault.{IfMalformed};
ghost use Rattle.sr_wire.specs.Format.{Kind, kind_text};

use crate::read_fault::ReadFault;
use crate::registry::LONGEST_VALUE;
use std::alloc::{AllocError, Global};

/// A kind of TLV: `P` are the parts of a PDU, and `Self` is the part that this kind says. To add one, give a module with the
/// part and this `impl`, a file in `specs/` with its `Kind`, and one in `proofs/` with its `KindLaws`. Then give it a row in
/// the table of the PDU's kinds, by which parts are read and written.
pub trait TlvKind<P> {
    /// The kind.
    ghost kind: { Kind P Self };

    /// Appends the parts that a value says.
    fn read(alloc: Global, value: &[u8], parts: &mut Vec<P>) -> Result<(), ReadFault>
        ensures says { MatchResult result
            (λ _. (own : List P) × kind.format.says value.now own
            × (parts.new.items ≡ parts.old.items ++ own))
            (λ fault. IfMalformed fault
            (λ malformed. kind.format.fault value.now malformed.offset malformed.check)) }
        ensures within { IfErr result
            (λ fault. IfMalformed fault (λ malformed. malformed.offset ≤ length value.now)) };

    /// How many octets the value of the part's TLV has.
    fn length(&self) -> u128
        requires { kind.fits self.now }
        ensures { result ≡ length (kind.value self.now) };

    /// Appends the TLV of the part. After an error what was there still stands, and other octets may follow it.
    fn write(&self, out: &mut Vec<u8>) -> Result<(), AllocError>
        requires fits { kind.fits self.now }
        requires short { length (kind.value self.now) ≤ LONGEST_VALUE }
        ensures ok { OnOk result (out.new.items ≡ out.old.items ++ kind_text kind self.now) }
        ensures err { OnErr result (Continues out.old.items out.new.items) };

    /// Whether the fields fit their layout.
    fn fits(&self) -> bool
        ensures { IsTrue result ↔ kind.fits self.now };

    /// The numbers fit their octets, as those of every value in memory do.
    fn widths(&self)
        ensures { kind.widths self.now };
}
