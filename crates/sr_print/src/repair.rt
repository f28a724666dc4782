//! The line of a repair.
ghost use Rattle.std.specs.Prelude.{◌≡◌, ◌<◌, ◌++◌, false, reverse, OnOk, OnErr};
ghost use Rattle.std.specs.List.{flat_map};
ghost use Rattle.sr_model.specs.Audit.{is_least};
ghost use Rattle.sr_model.specs.Case.{IsCase};
ghost use Rattle.sr_model.specs.Graph.{node_count, link_count};
ghost use Rattle.sr_print.specs.Names.{node_text};
ghost use Rattle.sr_print.specs.Printed.{BeginsWith};
ghost use Rattle.sr_print.specs.Repairs.{kind_name, case_head, case_text, segment_word, segments_text};
ghost use Rattle.sr_print.specs.Repairs.{label_word, labels_behind, labels_text};
ghost use Rattle.sr_print.specs.Repairs.{list_text, uncovered_text, answer_text, repair_line, uncovered_walk_line};
ghost use Rattle.sr_print.specs.Repairs.{IsSegment, AreSegments, IsAnswerWithin};

use crate::line::{end, put_numbered};
use crate::link::{put_link, put_link_text};
use crate::number::put_value;
use sr_labels::Net;
use sr_model::{Answer, Case, Kind, NodeNo, RepairList, Segment};
use std::alloc::AllocError;

/// The name of a kind of failure.
pub(crate) fn name_of(kind: Kind) -> &'static [u8]
    ensures { result.now ≡ kind_name kind }
{
    match kind {
        Kind::Link => b"link",
        Kind::Node => b"node",
        Kind::Risk => b"risk",
    }
}

/// Appends `repair KIND LINK to ` with its blank. After an error a part of it may stand there;
/// what stood before stays.
#[tactic(auto, unfolding(crate::specs::Repairs::case_head))]
pub(crate) fn put_head(net: &Net, case: Case, out: &mut Vec<u8>) -> Result<(), AllocError>
    requires { IsCase net.now.graph case }
    ensures line { OnOk result (out.new.items ≡ out.old.items ++ case_head net.now case) }
    ensures err { OnErr result (BeginsWith out.old.items out.new.items) }
{
    out.extend_from_slice(b"repair ")?;
    out.extend_from_slice(name_of(case.kind))?;
    put_link(net, case.link, out)?;
    out.extend_from_slice(b" to ")
}

/// Appends a node's name. After an error what stood before stays.
#[tactic(auto, unfolding(crate::specs::Names::node_text))]
pub(crate) fn put_node_text(net: &Net, node: NodeNo, out: &mut Vec<u8>) -> Result<(), AllocError>
    requires { node.0 < node_count net.now.graph }
    ensures line { OnOk result (out.new.items ≡ out.old.items ++ node_text net.now node.0) }
    ensures err { OnErr result (BeginsWith out.old.items out.new.items) }
{
    net.graph().system(node).put(out)
}

/// Appends `repair KIND LINK to NODE`. After an error a part of it may stand there;
/// what stood before stays.
fn put_case_text(
    net: &Net,
    case: Case,
    destination: NodeNo,
    out: &mut Vec<u8>,
) -> Result<(), AllocError>
    requires case { IsCase net.now.graph case }
    requires destination { destination.0 < node_count net.now.graph }
    ensures line { OnOk result (out.new.items ≡ out.old.items ++ case_text net.now case destination.0) }
    ensures err { OnErr result (BeginsWith out.old.items out.new.items) }
{
    put_head(net, case, out)?;
    put_node_text(net, destination, out)
}

/// Appends `node:NODE` or `adj:LINK` as one more word. After an error a part of it may stand there;
/// what stood before stays.
#[tactic(auto, unfolding(crate::specs::Repairs::segment_word))]
pub(crate) fn put_segment(net: &Net, segment: Segment, out: &mut Vec<u8>) -> Result<(), AllocError>
    requires { IsSegment net.now.graph segment }
    ensures line { OnOk result (out.new.items ≡ out.old.items ++ segment_word net.now segment) }
    ensures err { OnErr result (BeginsWith out.old.items out.new.items) }
{
    match segment {
        Segment::Node(node) => {
            out.extend_from_slice(b" node:")?;
            put_node_text(net, node, out)
        }
        Segment::Adj(link) => {
            out.extend_from_slice(b" adj:")?;
            put_link_text(net, link, out)
        }
    }
}

/// Appends segments, each as one more word. After an error a part of them may stand there;
/// what stood before stays.
fn put_each_segment(net: &Net, segments: &[Segment], out: &mut Vec<u8>) -> Result<(), AllocError>
    requires { AreSegments net.now.graph segments.now }
    ensures line { OnOk result (out.new.items ≡ out.old.items ++ flat_map (segment_word net.now) segments.now) }
    ensures err { OnErr result (BeginsWith out.old.items out.new.items) }
{
    for segment in segments {
        put_segment(net, *segment, out)?;
    }
    Ok(())
}

/// Appends ` segments SEGMENT SEGMENT ..`, or ` segments none` where there are none.
/// After an error a part of it may stand there; what stood before stays.
pub(crate) fn put_segments(
    net: &Net,
    segments: &[Segment],
    out: &mut Vec<u8>,
) -> Result<(), AllocError>
    requires { AreSegments net.now.graph segments.now }
    ensures line { OnOk result (out.new.items ≡ out.old.items ++ segments_text net.now segments.now) }
    ensures err { OnErr result (BeginsWith out.old.items out.new.items) }
{
    if segments.is_empty() {
        return out.extend_from_slice(b" segments none");
    }
    out.extend_from_slice(b" segments")?;
    put_each_segment(net, segments, out)
}

/// Appends labels from the last to the first, each as one more word.
/// After an error a part of them may stand there; what stood before stays.
fn put_each_label(labels: &[u32], out: &mut Vec<u8>) -> Result<(), AllocError>
    ensures line { OnOk result (out.new.items ≡ out.old.items ++ flat_map label_word (reverse labels.now)) }
    ensures err { OnErr result (BeginsWith out.old.items out.new.items) }
{
    for label in labels.iter().rev() {
        put_value(u64::from(*label), out)?;
    }
    Ok(())
}

/// Appends labels from the top down, each as one more word, or ` none` where there are none. The top is the last of the
/// labels. After an error a part of them may stand there; what stood before stays.
pub(crate) fn put_labels_behind(labels: &[u32], out: &mut Vec<u8>) -> Result<(), AllocError>
    ensures line { OnOk result (out.new.items ≡ out.old.items ++ labels_behind labels.now) }
    ensures err { OnErr result (BeginsWith out.old.items out.new.items) }
{
    if labels.is_empty() {
        return out.extend_from_slice(b" none");
    }
    put_each_label(labels, out)
}

/// Appends ` labels LABEL LABEL ..` from the top down, or ` labels none` where there are none.
/// The top is the last of the labels.
/// After an error a part of it may stand there; what stood before stays.
fn put_labels(labels: &[u32], out: &mut Vec<u8>) -> Result<(), AllocError>
    ensures line { OnOk result (out.new.items ≡ out.old.items ++ labels_text labels.now) }
    ensures err { OnErr result (BeginsWith out.old.items out.new.items) }
{
    out.extend_from_slice(b" labels")?;
    put_labels_behind(labels, out)
}

/// Appends ` via LINK segments SEGMENTS labels LABELS cost C`.
/// After an error a part of it may stand there; what stood before stays.
pub(crate) fn put_list(
    net: &Net,
    list: &RepairList,
    labels: &[u32],
    out: &mut Vec<u8>,
) -> Result<(), AllocError>
    requires first { list.now.first.0 < link_count net.now.graph }
    requires segments { AreSegments net.now.graph list.now.segments }
    ensures line { OnOk result (out.new.items ≡ out.old.items ++ list_text net.now list.now labels.now) }
    ensures err { OnErr result (BeginsWith out.old.items out.new.items) }
{
    out.extend_from_slice(b" via")?;
    put_link(net, list.first, out)?;
    put_segments(net, list.segments.list(), out)?;
    put_labels(labels, out)?;
    put_numbered(b" cost ", u64::from(list.cost), out)
}

/// Appends ` uncovered nopath`, ` uncovered nolist` or ` uncovered toodeep K`: why there is no
/// repair. Of a repair nothing is appended.
/// After an error a part of it may stand there; what stood before stays.
pub(crate) fn put_uncovered(answer: &Answer, out: &mut Vec<u8>) -> Result<(), AllocError>
    ensures line { OnOk result (out.new.items ≡ out.old.items ++ uncovered_text answer.now) }
    ensures err { OnErr result (BeginsWith out.old.items out.new.items) }
{
    match answer {
        Answer::Least(_) => Ok(()),
        Answer::NoPath => out.extend_from_slice(b" uncovered nopath"),
        Answer::NoList => out.extend_from_slice(b" uncovered nolist"),
        Answer::TooDeep { needed } => put_numbered(b" uncovered toodeep ", u64::from(*needed), out),
    }
}

/// Appends a repair, or why there is none. After an error a part of it may stand there;
/// what stood before stays.
fn put_answer(
    net: &Net,
    answer: &Answer,
    labels: &[u32],
    out: &mut Vec<u8>,
) -> Result<(), AllocError>
    requires { IsAnswerWithin net.now.graph answer.now }
    ensures line { OnOk result (out.new.items ≡ out.old.items ++ answer_text net.now answer.now labels.now) }
    ensures err { OnErr result (BeginsWith out.old.items out.new.items) }
{
    match answer {
        Answer::Least(list) => put_list(net, list, labels, out),
        _ => put_uncovered(answer, out),
    }
}

/// Appends `repair KIND LINK to NODE via LINK segments SEGMENTS labels LABELS cost C`, the answer of
/// a case for a destination: the protected link after the kind, the first link of the repair after
/// `via`, the labels from the top down, and `none` in place of no segments or no labels. Where there
/// is no repair, `repair KIND LINK to NODE uncovered nopath`, `.. uncovered nolist` or
/// `.. uncovered toodeep K`, where K is the number of segments of the least list.
/// The top is the last of the labels.
/// After an error a part of the line may stand there; what stood before stays.
pub fn put_repair(
    net: &Net,
    case: Case,
    destination: NodeNo,
    answer: &Answer,
    labels: &[u32],
    out: &mut Vec<u8>,
) -> Result<(), AllocError>
    requires case { IsCase net.now.graph case }
    requires destination { destination.0 < node_count net.now.graph }
    requires answer { IsAnswerWithin net.now.graph answer.now }
    ensures line { OnOk result
        (out.new.items ≡ out.old.items ++ repair_line net.now case destination.0 answer.now labels.now) }
    ensures err { OnErr result (BeginsWith out.old.items out.new.items) }
{
    put_case_text(net, case, destination, out)?;
    put_answer(net, answer, labels, out)?;
    end(out)
}

/// Appends `walk uncovered nopath`, `walk uncovered nolist` or `walk uncovered toodeep K`: why there
/// is no repair whose packet could be walked. The answer isn't a list.
/// After an error a part of the line may stand there; what stood before stays.
pub fn put_walk_uncovered(answer: &Answer, out: &mut Vec<u8>) -> Result<(), AllocError>
    requires { is_least answer.now ≡ false }
    ensures line { OnOk result (out.new.items ≡ out.old.items ++ uncovered_walk_line answer.now) }
    ensures err { OnErr result (BeginsWith out.old.items out.new.items) }
{
    out.extend_from_slice(b"walk")?;
    put_uncovered(answer, out)?;
    end(out)
}
