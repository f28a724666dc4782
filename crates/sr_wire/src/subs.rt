//! Reading a run of sub-TLVs: one loop, whatever they say.

ghost use Rattle.std.specs.Prelude.{◌≤◌, ◌++◌, ◌∷◌, [], List, length, IfErr, MatchResult, OnOk};
ghost use Rattle.sr_wire.specs.Fault.{IfMalformed};
ghost use Rattle.sr_wire.specs.Sub.{AreSubs, SubFault};
ghost use Rattle.sr_wire.specs.Tlv.{Tlv};

use crate::framing::frame;
use crate::read_fault::ReadFault;
use std::alloc::{AllocError, Global};

/// What sub-TLVs say together, and how one more adds to it. To add such a type, list its fields as `Field`s in a file of
/// `specs/`, take `SayFields` and `AddFields` of that list for `said` and `adds`, and let `add` call `add_first` or `add_all`
/// for each field. `steps` is then `fields_grow` of the list (`proofs/FieldSteps.antt`).
pub trait SubTlvs {
    /// What is said is what these sub-TLVs say.
    ghost said: { List Tlv → Self → Type 0 };

    /// What one more sub-TLV adds.
    ghost adds: { Tlv → Self → Self → Type 0 };

    /// Adds what one more sub-TLV says.
    fn add(&mut self, alloc: Global, kind: u8, value: &[u8]) -> Result<(), AllocError>
        ensures { OnOk result
            (adds (record { kind = kind; value = value.now }) self.old self.new) };

    /// With what it adds, what was said is what all of them say.
    ghost steps: { (subs : List Tlv) (sub : Tlv) (old new : Self) → said subs old → adds sub old new → said (subs ++ sub ∷ []) new };
}

/// Adds to `start`, which says nothing yet, what the sub-TLVs of a run say.
pub fn read_subs<S: SubTlvs + Drop>(alloc: Global, run: &[u8], start: S) -> Result<S, ReadFault>
    requires { S.said [] start }
    ensures says { MatchResult result
        (λ said. (subs : List Tlv) × AreSubs run.now subs × S.said subs said)
        (λ fault. IfMalformed fault
        (λ malformed. SubFault run.now malformed.offset malformed.check)) }
    ensures within { IfErr result
        (λ fault. IfMalformed fault (λ malformed. malformed.offset ≤ length run.now)) }
{
    let mut said = start;
    let mut at = 0;
    while at < run.len() {
        match frame(run, at) {
            Ok(place) => {
                said.add(alloc, place.kind, &run[place.from..place.to])?;
                at = place.to;
            }
            Err(overrun) => return Err(ReadFault::cut(overrun.offset)),
        }
    }
    Ok(said)
}
