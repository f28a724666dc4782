//! Lists as far as their labels, which the destinations of one list have in common.
ghost use Rattle.std.specs.Prelude.{◌≡◌, ◌<◌, ◌++◌, [], None, Some, All, OnOk, OnErr};
ghost use Rattle.std.specs.List.{flat_map};
ghost use Rattle.sr_model.specs.Graph.{link_count};
ghost use Rattle.sr_model.specs.Repair.{IsCaseAnswer};
ghost use Rattle.sr_repair.specs.Stack.{HaveLabels};
ghost use Rattle.sr_print.specs.Answers.{IsWayOf};
ghost use Rattle.sr_print.specs.Names.{AreNames, HasText, named_segment};
ghost use Rattle.sr_print.specs.Printed.{BeginsWith};
ghost use Rattle.sr_print.specs.Repairs.{way_text};

use crate::names::Names;
use sr_encode::NodeAnswer;
use sr_labels::Net;
use sr_model::{Answer, Case, LinkNo, Segment};
use std::alloc::{AllocError, Global};

/// Appends `node:NODE` or `adj:LINK` as one more word. After an error a part of it may stand there;
/// what stood before stays.
fn put_named(names: &Names, segment: Segment, out: &mut Vec<u8>) -> Result<(), AllocError>
    requires { HasText names.now segment }
    ensures line { OnOk result (out.new.items ≡ out.old.items ++ named_segment names.now segment) }
    ensures err { OnErr result (BeginsWith out.old.items out.new.items) }
{
    match segment {
        Segment::Node(node) => {
            out.extend_from_slice(b" node:")?;
            out.extend_from_slice(names.node(node))
        }
        Segment::Adj(link) => {
            out.extend_from_slice(b" adj:")?;
            out.extend_from_slice(names.link(link))
        }
    }
}

/// Appends segments, each as one more word. After an error a part of them may stand there;
/// what stood before stays.
fn put_each_named(names: &Names, segments: &[Segment], out: &mut Vec<u8>) -> Result<(), AllocError>
    requires { All (HasText names.now) segments.now }
    ensures line { OnOk result (out.new.items ≡ out.old.items ++ flat_map (named_segment names.now) segments.now) }
    ensures err { OnErr result (BeginsWith out.old.items out.new.items) }
{
    for segment in segments {
        put_named(names, *segment, out)?;
    }
    Ok(())
}

/// Appends ` via LINK segments SEGMENTS labels`.
fn put_way(
    net: &Net,
    names: &Names,
    first: LinkNo,
    segments: &[Segment],
    out: &mut Vec<u8>,
) -> Result<(), AllocError>
    requires names { AreNames net.now names.now }
    requires first { first.0 < link_count net.now.graph }
    requires segments { HaveLabels net.now segments.now }
    ensures { OnOk result (out.new.items ≡ out.old.items ++ way_text net.now first.0 segments.now) }
{
    let _graph = net.graph();
    out.extend_from_slice(b" via ")?;
    out.extend_from_slice(names.link(first))?;
    if segments.is_empty() {
        return out.extend_from_slice(b" segments none labels");
    }
    out.extend_from_slice(b" segments")?;
    put_each_named(names, segments, out)?;
    out.extend_from_slice(b" labels")
}

/// Appends ` via LINK segments SEGMENTS labels` where the answer is a list, and else nothing.
fn put_way_of(
    net: &Net,
    names: &Names,
    case: Case,
    entry: &NodeAnswer,
    out: &mut Vec<u8>,
) -> Result<(), AllocError>
    requires names { AreNames net.now names.now }
    requires answer { IsCaseAnswer net.now case entry.now.destination.0 entry.now.answer }
    requires empty { out.old.items ≡ [] }
    ensures { OnOk result (IsWayOf net.now entry.now.answer out.new.items) }
{
    match &entry.answer {
        Answer::Least(list) => put_way(net, names, list.first, list.segments.list(), out),
        _ => Ok(()),
    }
}

/// A list as far as its labels, for the answers of one code.
#[derive(Drop)]
pub(crate) struct Way {
    code: Option<u16>,
    pub(crate) octets: Vec<u8>,
}

impl Way {
    /// Of no code yet.
    pub(crate) fn new(alloc: Global) -> Way
        ensures { result.code ≡ None }
    {
        Way {
            code: None,
            octets: Vec::new(alloc),
        }
    }

    /// Makes it that of the answer of the case, which has this code, where it isn't yet.
    pub(crate) fn renew(
        &mut self,
        net: &Net,
        names: &Names,
        case: Case,
        code: u16,
        entry: &NodeAnswer,
    ) -> Result<(), AllocError>
        requires names { AreNames net.now names.now }
        requires answer { IsCaseAnswer net.now case entry.now.destination.0 entry.now.answer }
        requires known { self.old.code ≡ Some code → IsWayOf net.now entry.now.answer self.old.octets.items }
        ensures code { OnOk result (self.new.code ≡ Some code) }
        ensures way { OnOk result (IsWayOf net.now entry.now.answer self.new.octets.items) }
    {
        if let Some(known) = self.code {
            if known == code {
                return Ok(());
            }
        }
        self.octets.clear();
        put_way_of(net, names, case, entry, &mut self.octets)?;
        self.code = Some(code);
        Ok(())
    }
}
