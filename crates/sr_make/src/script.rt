//! The lines of a made script.
ghost use Rattle.std.specs.Prelude.{◌≡◌, ◌<◌, ◌^◌, IfOk};
ghost use Rattle.sr_lsp.specs.InRange.{FitsLsp};
ghost use Rattle.sr_lsp.specs.Text.{HasSpelling, lsp_text};
ghost use Rattle.sr_engine.specs.Written.{Puts, written};
ghost use Rattle.sr_make.specs.Script.{audit_lines, lsp_line, lsp_lines};
ghost use Rattle.sr_make.specs.Sizes.{AreMadePairs};

use crate::node::lsp_of;
use crate::pairs::MadePair;
use sr_base::{Sink, SinkFault};
use sr_engine::Answers;
use sr_lsp::{Lsp, WriteFault, write_lsp};
use std::alloc::{AllocError, Global};

/// The octets of a PDU that has a spelling.
fn octets_of(alloc: Global, lsp: &Lsp) -> Result<Vec<u8>, AllocError>
    requires range { FitsLsp lsp.now }
    requires fits { HasSpelling lsp.now }
    ensures { IfOk result (λ octets. octets.items ≡ lsp_text lsp.now) }
{
    match write_lsp(alloc, lsp) {
        Ok(octets) => Ok(octets),
        Err(WriteFault::Memory(error)) => Err(error),
        Err(_) => unreachable!(),
    }
}

/// The line that hands in the PDU of a node.
fn line_of(alloc: Global, pairs: &[MadePair], node: u32) -> Result<Vec<u8>, AllocError>
    requires pairs { AreMadePairs pairs.now }
    requires node { node < 2 ^ 16 }
    ensures { IfOk result (λ line. line.items ≡ lsp_line pairs.now node) }
{
    let lsp = lsp_of(alloc, pairs, node)?;
    let octets = octets_of(alloc, &lsp)?;
    let digits = hex::encode(alloc, octets)?;
    let mut line = Vec::from_slice(alloc, b"lsp ")?;
    line.extend_from_slice(digits.as_bytes())?;
    line.push(b'\n')?;
    Ok(line)
}

/// Puts the lines of the nodes, one at a time.
pub(crate) fn put_lsp_lines<K: Sink>(
    alloc: Global,
    pairs: &[MadePair],
    nodes: u16,
    out: &mut Answers,
    sink: &mut K,
) -> Result<(), SinkFault>
    requires { AreMadePairs pairs.now }
    ensures { Puts (written (K.held sink.old) (K.faults sink.old) out.old)
        (written (K.held sink.new) (K.faults sink.new) out.new) (lsp_lines pairs.now nodes) result }
{
    for before in 0..nodes {
        match line_of(alloc, pairs, u32::from(before) + 1) {
            Ok(line) => match out.put(sink, &line) {
                Ok(()) => {}
                Err(fault) => return Err(fault),
            },
            Err(error) => return Err(SinkFault::Memory(error)),
        }
    }
    Ok(())
}

/// What stands behind the lines of the nodes.
const AUDITS: &[u8] = b"commit\naudit\n\
cost 0000.0000.0001 0000.0000.0002 1 21\ncommit\naudit\n\
down 0000.0000.0001 0000.0000.0002 1\ncommit\naudit\nshow\n";

/// Puts the lines that ask about the net.
pub(crate) fn put_audit_lines<K: Sink>(out: &mut Answers, sink: &mut K) -> Result<(), SinkFault>
    ensures { Puts (written (K.held sink.old) (K.faults sink.old) out.old)
        (written (K.held sink.new) (K.faults sink.new) out.new) audit_lines result }
{
    out.put(sink, AUDITS)
}
