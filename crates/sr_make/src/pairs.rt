//! The bidirectional links of a made net (this project's rule).
ghost use Rattle.std.specs.Prelude.{◌≡◌, ◌<◌, ◌++◌, ◌^◌, length, IfOk, OnOk};
ghost use Rattle.sr_make.specs.Draws.{next_state};
ghost use Rattle.sr_make.specs.Pairs.{chord_spans, drawn_pair, drawn_pairs, made_pairs, made_spans, ring_spans};

use crate::draws::Draws;
use std::alloc::{AllocError, Global};

/// The fewest nodes of a net that has chords (this project's rule).
pub const CHORD_NODES: u32 = 6;

/// The two nodes that a pair of opposite links joins.
#[derive(Clone, Copy, Debug, PartialEq, Eq)]
pub struct Span {
    pub first: u32,
    pub second: u32,
}

/// A pair of opposite links: its number, the nodes that it joins, the metric of both links, and the group to which both
/// belong.
#[derive(Clone, Copy, Debug, PartialEq, Eq)]
pub struct MadePair {
    pub number: u32,
    pub span: Span,
    pub metric: u32,
    pub group: u32,
}

/// Appends the spans of the ring.
fn push_ring(nodes: u32, spans: &mut Vec<Span>) -> Result<(), AllocError>
    requires { nodes < 65536 }
    ensures { OnOk result (spans.new.items ≡ spans.old.items ++ ring_spans nodes) }
{
    for before in 0..nodes {
        let first = before + 1;
        spans.push(Span {
            first,
            second: first % nodes + 1,
        })?;
    }
    Ok(())
}

/// Appends the spans of the chords.
fn push_chords(nodes: u32, spans: &mut Vec<Span>) -> Result<(), AllocError>
    requires { nodes < 65536 }
    ensures { OnOk result (spans.new.items ≡ spans.old.items ++ chord_spans nodes) }
{
    let half = nodes / 2;
    for before in 0..half {
        let first = before + 1;
        if first % 3 == 1 {
            spans.push(Span {
                first,
                second: first + half,
            })?;
        }
    }
    Ok(())
}

/// The spans of a net with this number of nodes.
fn spans_of(alloc: Global, nodes: u32) -> Result<Vec<Span>, AllocError>
    requires { nodes < 65536 }
    ensures { IfOk result (λ spans. spans.items ≡ made_spans nodes) }
{
    let mut spans = Vec::new(alloc);
    push_ring(nodes, &mut spans)?;
    if CHORD_NODES <= nodes {
        push_chords(nodes, &mut spans)?;
    }
    Ok(spans)
}

/// The next pair between these nodes.
fn draw_pair(draws: &mut Draws, number: u32, span: Span) -> MadePair
    ensures pair { result ≡ drawn_pair draws.old.state number span }
    ensures draws { draws.new.state ≡ next_state (next_state draws.old.state) }
{
    let metric = 1 + draws.draw() % 20;
    let group = 1 + draws.draw() % 8;
    MadePair {
        number,
        span,
        metric,
        group,
    }
}

/// The pairs between these nodes, numbered from 1, by draws from this start.
fn draw_pairs(alloc: Global, spans: &[Span], start: u32) -> Result<Vec<MadePair>, AllocError>
    requires { length spans.now < 2 ^ 32 }
    ensures { IfOk result (λ pairs. pairs.items ≡ drawn_pairs start 1 spans.now) }
{
    let mut draws = Draws { state: start };
    let mut pairs = Vec::new(alloc);
    for place in 0..spans.len() {
        pairs.push(draw_pair(&mut draws, place as u32 + 1, spans[place]))?;
    }
    Ok(pairs)
}

/// The pairs of a net with this number of nodes, numbered from 1, by draws from this start.
pub(crate) fn made_pairs(alloc: Global, nodes: u16, start: u32) -> Result<Vec<MadePair>, AllocError>
    ensures { IfOk result (λ pairs. pairs.items ≡ made_pairs nodes start) }
{
    let spans = spans_of(alloc, u32::from(nodes))?;
    draw_pairs(alloc, &spans, start)
}
