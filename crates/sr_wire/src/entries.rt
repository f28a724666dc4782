//! Reading a run of entries: one loop, whatever they are.

ghost use Rattle.std.specs.Prelude.{◌≡◌, ◌<◌, ◌≤◌, ◌++◌, List, length, IfErr, IfOk, MatchResult};
ghost use Rattle.sr_wire.specs.declared.fault.Check.TheVariants.{FieldExtent};
ghost use Rattle.sr_wire.specs.Entries.{IsNextPiece, StopsAt, if_some};
ghost use Rattle.sr_wire.specs.Fault.{IfMalformed};
ghost use Rattle.sr_wire.specs.Format.{SaysRun, run_of};
ghost use Rattle.sr_wire.specs.Run.{Layout};

use crate::read_fault::ReadFault;
use std::alloc::Global;

/// What an entry says, if anything, and where it ends.
#[derive(Debug, Drop)]
pub struct Next<T> {
    pub says: Option<T>,
    pub end: usize,
}

/// A kind of entries, of which a value is a run; `P` are the parts that they say. To add one, say in a file of `specs/` how
/// a piece stands in octets and what it says, and give `next`, which finds one entry. `read_entries` then reads a whole
/// value, and the laws of the run follow from those of a piece (`run_laws` in `proofs/FormatLaws.antt`).
pub trait Entries<P> {
    /// The pieces of a run.
    ghost Piece: { Type 0 };

    /// How a piece stands in octets.
    ghost layout: { Layout Piece };

    /// What a piece says.
    ghost says: { Piece → List P → Type 0 };

    /// The entry at a place, or the fault there.
    fn next(alloc: Global, value: &[u8], at: usize) -> Result<Next<P>, ReadFault>
        requires { at < length value.now }
        ensures ok { IfOk result
            (λ next. IsNextPiece layout says value.now at next.end (if_some next.says)) }
        ensures fault { IfErr result
            (λ fault. IfMalformed fault
            (λ malformed. StopsAt layout value.now at malformed.offset malformed.check)) }
        ensures within { IfErr result
            (λ fault. IfMalformed fault (λ malformed. malformed.offset ≤ length value.now)) };
}

/// Appends what the entries of a value say.
pub fn read_entries<P: Drop, E: Entries<P>>(
    alloc: Global,
    value: &[u8],
    parts: &mut Vec<P>,
) -> Result<(), ReadFault>
    ensures says { MatchResult result
        (λ _. (own : List P) × SaysRun E.layout E.says value.now own
        × (parts.new.items ≡ parts.old.items ++ own))
        (λ fault. IfMalformed fault
        (λ malformed.
        (run_of E.layout FieldExtent E.says).fault value.now malformed.offset malformed.check)) }
    ensures within { IfErr result
        (λ fault. IfMalformed fault (λ malformed. malformed.offset ≤ length value.now)) }
{
    let mut at = 0;
    while at < value.len() {
        let Next { says, end } = E::next(alloc, value, at)?;
        match says {
            Some(part) => parts.push(part)?,
            None => {}
        }
        at = end;
    }
    Ok(())
}
