//! Blanks, 16 at a time.

ghost use Rattle.std.specs.Prelude.{◌≡◌, ◌+◌, ◌%◌, ◌≤◌, ◌↔◌, IsTrue, length};
ghost use Rattle.sr_script.specs.Words.{AreBlanks};

use std::simd::prelude::*;

/// How many bytes a block has.
const LANES: usize = 16;

/// Whether all bytes of the block are spaces or tabs.
#[inline(always)]
fn are_blanks(bytes: u8x16) -> bool
    ensures { IsTrue result ↔ AreBlanks bytes 16 }
{
    !(bytes.simd_ne(u8x16::splat(b' ')) & bytes.simd_ne(u8x16::splat(b'\t'))).any()
}

/// How many bytes the whole blocks of blanks have with which the text begins.
pub(crate) fn blank_blocks(text: &[u8]) -> usize
    ensures within { result ≤ length text.now }
    ensures whole { result % 16 ≡ 0 }
    ensures blanks { AreBlanks text.now result }
    ensures stops { result + 16 ≤ length text.now → ¬ AreBlanks text.now (result + 16) }
{
    let blocks = text.len() / LANES;
    for block in 0..blocks {
        let at = LANES * block;
        if !are_blanks(u8x16::from_slice(&text[at..])) {
            return at;
        }
    }
    LANES * blocks
}
