//! The lines of a draft, taken apart into a first link, segments and rows.
ghost use Rattle.std.specs.Prelude.{IfOk};
ghost use Rattle.sr_cert.specs.Draft.{segment_line};
ghost use Rattle.sr_cert.specs.Parts.{ArePartsOf, IsPutWith, body_lines};

use crate::draft::CertLine;
use sr_model::{LinkNo, Segment};
use sr_seq::Seq;
use std::alloc::{AllocError, Global};

/// What the lines of a certificate say between the one that opens it and its labels.
#[derive(Drop)]
pub(crate) struct Pieces {
    pub(crate) first: LinkNo,
    pub(crate) segments: Seq<Segment>,
    pub(crate) rows: Seq<Seq<u64>>,
}

/// Puts a segment behind the others. False where it can't stand there, since there are rows.
fn place_segment(
    segment: Segment,
    segments: &mut Seq<Segment>,
    rows: &Seq<Seq<u64>>,
) -> Result<bool, AllocError>
    ensures { IfOk result (λ placed.
        IsPutWith (body_lines segments.old rows.now) (segment_line segment) placed segments.new rows.now) }
{
    if !rows.as_slice().is_empty() {
        return Ok(false);
    }
    segments.push(segment)?;
    Ok(true)
}

/// Puts a line with the segments or the rows. False where it can't stand there: it is a first link, or a segment behind a
/// row.
fn put_line(
    line: CertLine,
    segments: &mut Seq<Segment>,
    rows: &mut Seq<Seq<u64>>,
) -> Result<bool, AllocError>
    ensures { IfOk result (λ placed. IsPutWith (body_lines segments.old rows.old) line placed segments.new rows.new) }
{
    match line {
        CertLine::Via(_) => Ok(false),
        CertLine::NodeSegment(node) => place_segment(Segment::Node(node), segments, rows),
        CertLine::AdjSegment(link) => place_segment(Segment::Adj(link), segments, rows),
        CertLine::Row(cells) => {
            rows.push(cells)?;
            Ok(true)
        }
    }
}

/// The parts that the lines say. None exactly where they aren't a first link, then segments, then rows.
pub(crate) fn parts_of(alloc: Global, lines: Vec<CertLine>) -> Result<Option<Pieces>, AllocError>
    ensures { IfOk result (ArePartsOf lines.items) }
{
    let mut behind = lines.into_iter();
    let first = match behind.next() {
        Some(CertLine::Via(first)) => first,
        _ => return Ok(None),
    };
    let mut segments = Seq::empty(alloc);
    let mut rows = Seq::empty(alloc);
    for line in behind {
        if !put_line(line, &mut segments, &mut rows)? {
            return Ok(None);
        }
    }
    Ok(Some(Pieces {
        first,
        segments,
        rows,
    }))
}
