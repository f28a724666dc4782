//! The lines of the answers of a case.
ghost use Rattle.std.specs.Prelude.{◌≡◌, ◌<◌, ◌++◌, ◌∷◌, [], true, is_some, OnOk, OnErr};
ghost use Rattle.sr_model.specs.declared.repair.Answer.TheVariants.{Least};
ghost use Rattle.sr_model.specs.declared.repair.Segment.TheVariants.{Node as NodeSegment};
ghost use Rattle.sr_model.specs.Case.{IsCase};
ghost use Rattle.sr_model.specs.Graph.{node_count, link_count};
ghost use Rattle.sr_model.specs.Label.{labels_at};
ghost use Rattle.sr_encode.specs.Answered.{AreAnswers};
ghost use Rattle.sr_repair.specs.Stack.{HaveLabels};
ghost use Rattle.sr_print.specs.Answers.{PutsLabels, PutsStack, PutsAnswer, PutsItem, PutsItemsFor, IsEntryOf, IsWayOf, AreTextsOf};
ghost use Rattle.sr_print.specs.Names.{AreNames};
ghost use Rattle.sr_print.specs.Printed.{BeginsWith};
ghost use Rattle.sr_print.specs.Repairs.{case_head};

use crate::line::{end, put_numbered};
use crate::names::Names;
use crate::number::put_value;
use crate::repair::{put_head, put_uncovered};
use crate::way::Way;
use sr_encode::{CaseAnswers, NodeAnswer};
use sr_labels::Net;
use sr_model::{Answer, Case, LinkNo, NodeNo, RepairList, Segment};
use sr_repair::{label_left, node_label, segment_end, segment_label};
use std::alloc::AllocError;

/// Appends the labels of segments from node `start` on, and last that of node `d`, from the top down, each as one more
/// word. After an error a part of them may stand there; what stood before stays.
fn put_stack(
    net: &Net,
    start: NodeNo,
    segments: &[Segment],
    d: NodeNo,
    out: &mut Vec<u8>,
) -> Result<(), AllocError>
    requires start { start.0 < node_count net.now.graph }
    requires segments { HaveLabels net.now segments.now }
    requires d { (d.0 < node_count net.now.graph) × (is_some (labels_at net.now d.0).index ≡ true) }
    ensures line { OnOk result
        (PutsLabels net.now start.0 (segments.now ++ NodeSegment d ∷ []) out.old.items out.new.items) }
    ensures err { OnErr result (BeginsWith out.old.items out.new.items) }
{
    let mut at = start;
    for segment in segments {
        put_value(u64::from(segment_label(net, at, *segment)), out)?;
        at = segment_end(net, *segment);
    }
    put_value(u64::from(node_label(net, at, d)), out)
}

/// Appends the label that is left when the first link is crossed under d's node segment, or that none is.
/// After an error a part of it may stand there; what stood before stays.
fn put_bare(net: &Net, first: LinkNo, d: NodeNo, out: &mut Vec<u8>) -> Result<(), AllocError>
    requires first { first.0 < link_count net.now.graph }
    requires d { d.0 < node_count net.now.graph }
    requires index { is_some (labels_at net.now d.0).index ≡ true }
    ensures line { OnOk result (PutsStack net.now d.0 first.0 [] out.old.items out.new.items) }
    ensures err { OnErr result (BeginsWith out.old.items out.new.items) }
{
    match label_left(net, net.graph().edge(first).to, d) {
        None => out.extend_from_slice(b" none"),
        Some(label) => put_value(u64::from(label), out),
    }
}

/// Appends the labels on the first link of a list towards d, or that there are none.
/// After an error a part of them may stand there; what stood before stays.
fn put_labels(
    net: &Net,
    first: LinkNo,
    segments: &[Segment],
    d: NodeNo,
    out: &mut Vec<u8>,
) -> Result<(), AllocError>
    requires first { first.0 < link_count net.now.graph }
    requires segments { HaveLabels net.now segments.now }
    requires d { (d.0 < node_count net.now.graph) × (is_some (labels_at net.now d.0).index ≡ true) }
    ensures line { OnOk result (PutsStack net.now d.0 first.0 segments.now out.old.items out.new.items) }
    ensures err { OnErr result (BeginsWith out.old.items out.new.items) }
{
    if segments.is_empty() {
        return put_bare(net, first, d, out);
    }
    put_stack(net, net.graph().edge(first).to, segments, d, out)
}

/// Appends ` via LINK segments SEGMENTS labels LABELS cost C`, which begins with `way`.
/// After an error a part of it may stand there; what stood before stays.
fn put_least(
    net: &Net,
    way: &[u8],
    list: &RepairList,
    d: NodeNo,
    out: &mut Vec<u8>,
) -> Result<(), AllocError>
    requires way { IsWayOf net.now (Least list.now) way.now }
    requires list { (list.now.first.0 < link_count net.now.graph) × HaveLabels net.now list.now.segments }
    requires d { (d.0 < node_count net.now.graph) × (is_some (labels_at net.now d.0).index ≡ true) }
    ensures line { OnOk result (PutsAnswer net.now d.0 (Least list.now) out.old.items out.new.items) }
    ensures err { OnErr result (BeginsWith out.old.items out.new.items) }
{
    out.extend_from_slice(way)?;
    put_labels(net, list.first, list.segments.list(), d, out)?;
    put_numbered(b" cost ", u64::from(list.cost), out)
}

/// Appends an answer of the case with its labels, where a list begins with `way`, or why there is no repair.
/// After an error a part of it may stand there; what stood before stays.
fn put_answer(
    net: &Net,
    way: &[u8],
    case: Case,
    entry: &NodeAnswer,
    out: &mut Vec<u8>,
) -> Result<(), AllocError>
    requires way { IsWayOf net.now entry.now.answer way.now }
    requires entry { IsEntryOf net.now case entry.now }
    ensures line { OnOk result
        (PutsAnswer net.now entry.now.destination.0 entry.now.answer out.old.items out.new.items) }
    ensures err { OnErr result (BeginsWith out.old.items out.new.items) }
{
    let _graph = net.graph();
    match &entry.answer {
        Answer::Least(list) => put_least(net, way, list, entry.destination, out),
        _ => put_uncovered(&entry.answer, out),
    }
}

/// Appends the line of an answer of the case, whose lines all begin with `head`. Where the answer is a list, `way` is
/// that list as far as its labels.
/// After an error a part of the line may stand there; what stood before stays.
fn put_line(
    net: &Net,
    names: &Names,
    case: Case,
    head: &[u8],
    way: &[u8],
    entry: &NodeAnswer,
    out: &mut Vec<u8>,
) -> Result<(), AllocError>
    requires names { AreNames net.now names.now }
    requires texts { AreTextsOf net.now case entry.now.answer head.now way.now }
    requires entry { IsEntryOf net.now case entry.now }
    ensures line { OnOk result (PutsItem net.now case entry.now out.old.items out.new.items) }
    ensures err { OnErr result (BeginsWith out.old.items out.new.items) }
{
    let _graph = net.graph();
    out.extend_from_slice(head)?;
    out.extend_from_slice(names.node(entry.destination))?;
    put_answer(net, way, case, entry, out)?;
    end(out)
}

/// Appends the line of each of these answers of the case, which all begin with `head`.
/// After an error a part of the lines may stand there; what stood before stays.
fn put_lines(
    net: &Net,
    names: &Names,
    case: Case,
    head: &[u8],
    answers: &CaseAnswers<'_>,
    out: &mut Vec<u8>,
) -> Result<(), AllocError>
    requires names { AreNames net.now names.now }
    requires head { head.now ≡ case_head net.now case }
    requires answers { AreAnswers net.now case answers.now }
    ensures line { OnOk result (PutsItemsFor net.now case answers.now out.old.items out.new.items) }
    ensures err { OnErr result (BeginsWith out.old.items out.new.items) }
{
    let codes = answers.codes();
    let mut way = Way::new(*out.allocator());
    for place in 0..answers.count() {
        let entry = answers.at(place);
        way.renew(net, names, case, codes.at(place), &entry)?;
        put_line(net, names, case, head, &way.octets, &entry, out)?;
    }
    Ok(())
}

/// Appends the line of each of these answers of a case, in their order: `repair KIND LINK to NODE ..`, as `put_repair`
/// appends it. `names` are those of the net (`Names::of`).
/// After an error a part of the lines may stand there; what stood before stays.
pub fn put_answers(
    net: &Net,
    names: &Names,
    case: Case,
    answers: &CaseAnswers<'_>,
    out: &mut Vec<u8>,
) -> Result<(), AllocError>
    requires case { IsCase net.now.graph case }
    requires names { AreNames net.now names.now }
    requires answers { AreAnswers net.now case answers.now }
    ensures line { OnOk result (PutsItemsFor net.now case answers.now out.old.items out.new.items) }
    ensures err { OnErr result (BeginsWith out.old.items out.new.items) }
{
    // Room for a head whose number has one digit; a longer one grows it.
    let mut head = Vec::with_capacity(*out.allocator(), 48)?;
    put_head(net, case, &mut head)?;
    put_lines(net, names, case, &head, answers, out)
}
