//! The hexadecimal digits of `lsp`.

ghost use Rattle.std.specs.Prelude.{◌≡◌, Ok, IfOk, IfErr};
ghost use Rattle.hex.specs.Hex.{decode_of};
ghost use Rattle.sr_script.specs.Answers.{IsHexFault};

use crate::digits::write_pairs;
use crate::line::LineFault;
use sr_seq::Seq;
use std::alloc::Global;

/// The octets that the text writes, two hexadecimal digits each.
pub(crate) fn read_octets(alloc: Global, text: &[u8]) -> Result<Seq<u8>, LineFault>
    ensures ok { IfOk result (λ octets. decode_of text.now ≡ Ok octets) }
    ensures err { IfErr result (IsHexFault text.now) }
{
    if text.len() % 2 != 0 {
        return Err(LineFault::BadHex);
    }
    match vec![in alloc; 0u8; text.len() / 2] {
        Ok(mut octets) => {
            if write_pairs(text, octets.as_mut_slice()) {
                Ok(Seq::new(octets))
            } else {
                Err(LineFault::BadHex)
            }
        }
        Err(fault) => Err(LineFault::Memory(fault)),
    }
}
