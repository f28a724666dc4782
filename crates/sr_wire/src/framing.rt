//! Finding the value of a TLV.

ghost use Rattle.std.specs.Prelude.{◌≡◌, ◌<◌, ◌++◌, ℕ, List, length, IfOk, IfErr};
ghost use Rattle.sr_wire.specs.declared.place.Frame.{Frame};
ghost use Rattle.sr_wire.specs.Tlv.{IsFrame, IsOverrun, Tlv, framed, tlv_text};

use crate::place::{Frame, Overrun};

/// Where the value of the TLV stands that begins at octet `at` of a run of TLVs (ISO 10589, 9.9) or sub-TLVs
/// (RFC 5305, 3). There is none exactly where its type and length, or its value, pass the run's end.
pub fn frame(run: &[u8], at: usize) -> Result<Frame, Overrun>
    requires { at < length run.now }
    ensures ok { IfOk result (λ frame. IsFrame run.now at frame) }
    ensures offset { IfErr result (λ overrun. overrun.offset ≡ at) }
    ensures overrun { IfErr result (IsOverrun run.now) }
{
    let overrun = Overrun { offset: at };
    if run.len() - at < 2 {
        return Err(overrun);
    }
    let from = at + 2;
    let long = usize::from(run[at + 1]);
    if run.len() - from < long {
        return Err(overrun);
    }
    Ok(Frame {
        kind: run[at],
        from,
        to: from + long,
    })
}

/// A TLV that was written is found again, whatever stands before it and behind it.
pub fn tlv_is_found_again()
    ensures found { (before rest : List ℕ) (tlv : Tlv) (frame : Frame) →
        let run = before ++ (tlv_text tlv ++ rest) in IsFrame run (length before) frame → framed run frame ≡ tlv }
    ensures fits { (before rest : List ℕ) (tlv : Tlv) →
        IsOverrun (before ++ (tlv_text tlv ++ rest)) (record { offset = length before }) → ⊥ }
{}
