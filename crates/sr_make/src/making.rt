//! Makes a script.
ghost use Rattle.std.specs.Prelude.{◌≤◌};
ghost use Rattle.sr_engine.specs.Written.{Puts, written};
ghost use Rattle.sr_make.specs.Making.{Makes};
ghost use Rattle.sr_make.specs.Script.{made_script};

use crate::pairs::made_pairs;
use crate::script::{put_audit_lines, put_lsp_lines};
use sr_base::{Sink, SinkFault};
use sr_engine::{Answers, End};
use sr_model::MOST_NODES;
use std::alloc::Global;

/// The fewest nodes of a made net: as many as make a ring (this project's rule).
pub const FEWEST_NODES: u16 = 3;

/// The most nodes of a made net: as many as a net may have.
pub const MOST_MADE_NODES: u16 = MOST_NODES as u16;

/// Puts all lines of the script.
fn put_script<K: Sink>(
    alloc: Global,
    nodes: u16,
    start: u32,
    out: &mut Answers,
    sink: &mut K,
) -> Result<(), SinkFault>
    requires { nodes ≤ MOST_MADE_NODES }
    ensures { Puts (written (K.held sink.old) (K.faults sink.old) out.old)
        (written (K.held sink.new) (K.faults sink.new) out.new) (made_script nodes start) result }
{
    match made_pairs(alloc, nodes, start) {
        Ok(pairs) => match put_lsp_lines(alloc, &pairs, nodes, out, sink) {
            Ok(()) => put_audit_lines(out, sink),
            Err(fault) => Err(fault),
        },
        Err(error) => Err(SinkFault::Memory(error)),
    }
}

/// Writes the script of a net with this number of nodes, by draws from this start: a ring with chords, of which each
/// node's PDU is handed in, and then audits of the net as it is, with another metric, and with a pair down. The same
/// two numbers give the same bytes (this project's rule).
///
/// The script is put line by line, so that it isn't held whole, which no clause says. Where a write fails, or memory runs
/// out, the sink was given a beginning of the script.
pub fn make<K: Sink>(alloc: Global, nodes: u16, start: u32, sink: &mut K) -> End
    requires fewest { FEWEST_NODES ≤ nodes }
    requires most { nodes ≤ MOST_MADE_NODES }
    ensures { Makes (made_script nodes start) (K.held sink.old) (K.held sink.new)
        (K.faults sink.old) (K.faults sink.new) result }
{
    let mut out = Answers::new(alloc);
    match put_script(alloc, nodes, start, &mut out, sink) {
        Ok(()) => out.finish(sink, false),
        Err(fault) => End::at(fault),
    }
}
