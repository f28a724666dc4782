//! The line of why a case has no repair for a destination.
ghost use Rattle.std.specs.Prelude.{◌≡◌, ◌++◌, length, OnOk, OnErr};
ghost use Rattle.std.specs.List.{flat_map};
ghost use Rattle.sr_print.specs.Printed.{BeginsWith};
ghost use Rattle.sr_print.specs.Repairs.{AreSegments, IsSegment};
ghost use Rattle.sr_print.specs.Why.{IsReasonWithin, IsWholeWithin, is_lacking, lacking_word, lacks_text, reason_line, reason_text, whole_text};

use crate::line::{end, put_numbered};
use crate::link::put_link;
use crate::repair::{put_segment, put_segments};
use sr_labels::Net;
use sr_model::Segment;
use sr_why::{Cause, WholeList};
use std::alloc::AllocError;

/// Whether the net lacks the index of the segment's node, or the label of its link.
fn is_lacking(net: &Net, segment: Segment) -> bool
    requires { IsSegment net.now.graph segment }
    ensures { result ≡ is_lacking net.now segment }
{
    match segment {
        Segment::Node(node) => net.labels(node).index().is_none(),
        Segment::Adj(link) => net.adj(link).is_none(),
    }
}

/// Appends the segment as one more word where the net lacks it, and else nothing. After an error a part of it may stand
/// there; what stood before stays.
fn put_lacking(net: &Net, segment: Segment, out: &mut Vec<u8>) -> Result<(), AllocError>
    requires { IsSegment net.now.graph segment }
    ensures line { OnOk result (out.new.items ≡ out.old.items ++ lacking_word net.now segment) }
    ensures err { OnErr result (BeginsWith out.old.items out.new.items) }
{
    if is_lacking(net, segment) {
        return put_segment(net, segment, out);
    }
    Ok(())
}

/// Appends those of the segments that the net lacks, each as one more word. After an error a part of them may stand there;
/// what stood before stays.
fn put_each_lacking(net: &Net, segments: &[Segment], out: &mut Vec<u8>) -> Result<(), AllocError>
    requires { AreSegments net.now.graph segments.now }
    ensures line { OnOk result (out.new.items ≡ out.old.items ++ flat_map (lacking_word net.now) segments.now) }
    ensures err { OnErr result (BeginsWith out.old.items out.new.items) }
{
    for segment in segments {
        put_lacking(net, *segment, out)?;
    }
    Ok(())
}

/// Appends ` lacks SEGMENT SEGMENT ..`: those of the segments that the net lacks. After an error a part of it may stand
/// there; what stood before stays.
fn put_lacks(net: &Net, segments: &[Segment], out: &mut Vec<u8>) -> Result<(), AllocError>
    requires { AreSegments net.now.graph segments.now }
    ensures line { OnOk result (out.new.items ≡ out.old.items ++ lacks_text net.now segments.now) }
    ensures err { OnErr result (BeginsWith out.old.items out.new.items) }
{
    out.extend_from_slice(b" lacks")?;
    put_each_lacking(net, segments, out)
}

/// Appends ` via LINK segments SEGMENTS cost C`. After an error a part of it may stand there; what stood before stays.
fn put_whole(net: &Net, list: &WholeList, out: &mut Vec<u8>) -> Result<(), AllocError>
    requires { IsWholeWithin net.now.graph list.now }
    ensures line { OnOk result (out.new.items ≡ out.old.items ++ whole_text net.now list.now) }
    ensures err { OnErr result (BeginsWith out.old.items out.new.items) }
{
    out.extend_from_slice(b" via")?;
    put_link(net, list.first, out)?;
    put_segments(net, list.segments.as_slice(), out)?;
    put_numbered(b" cost ", u64::from(list.cost), out)
}

/// How many segments the list has.
fn segment_count(list: &WholeList) -> u64
    ensures { result ≡ length list.now.segments }
{
    list.segments.as_slice().len() as u64
}

/// Appends the reason without its line feed. After an error a part of it may stand there; what stood before stays.
fn put_reason_text(net: &Net, reason: &Cause, out: &mut Vec<u8>) -> Result<(), AllocError>
    requires { IsReasonWithin net.now.graph reason.now }
    ensures line { OnOk result (out.new.items ≡ out.old.items ++ reason_text net.now reason.now) }
    ensures err { OnErr result (BeginsWith out.old.items out.new.items) }
{
    match reason {
        Cause::Covered => out.extend_from_slice(b"why covered"),
        Cause::NoPath { reached } => put_numbered(b"why nopath reached ", u64::from(*reached), out),
        Cause::NoList(list) => {
            out.extend_from_slice(b"why nolist")?;
            put_whole(net, list, out)?;
            put_lacks(net, list.segments.as_slice(), out)
        }
        Cause::TooDeep(list) => {
            put_numbered(b"why toodeep ", segment_count(list), out)?;
            put_whole(net, list, out)
        }
    }
}

/// Appends `why covered`, `why nopath reached R`, `why nolist via LINK segments SEGMENTS cost C lacks SEGMENT ..` or
/// `why toodeep K via LINK segments SEGMENTS cost C`: why a case has no repair for a destination, or that it has one.
/// After an error a part of the line may stand there; what stood before stays.
pub fn put_reason(net: &Net, reason: &Cause, out: &mut Vec<u8>) -> Result<(), AllocError>
    requires { IsReasonWithin net.now.graph reason.now }
    ensures line { OnOk result (out.new.items ≡ out.old.items ++ reason_line net.now reason.now) }
    ensures err { OnErr result (BeginsWith out.old.items out.new.items) }
{
    put_reason_text(net, reason, out)?;
    end(out)
}
