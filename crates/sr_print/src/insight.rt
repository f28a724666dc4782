//! The lines of an audit as a whole.
ghost use Rattle.std.specs.Prelude.{◌≡◌, ◌<◌, ◌++◌, OnOk, OnErr};
ghost use Rattle.sr_model.specs.Graph.{node_count, system_at};
ghost use Rattle.sr_insight.specs.Groups.{group_count};
ghost use Rattle.sr_print.specs.Insight.{AreGroupsWithin, coverage_line, coverage_lines, group_name, kind_numbered};
ghost use Rattle.sr_print.specs.Insight.{repairs_line, stack_line, stack_lines};
ghost use Rattle.sr_print.specs.Printed.{BeginsWith, node_word};

use crate::audit::put_counts;
use crate::line::{end, put_numbered};
use crate::link::put_link;
use crate::number::{put_node, put_value};
use crate::repair::name_of;
use sr_insight::{Group, Grouping, StackCount};
use sr_labels::Net;
use sr_model::{Counts, Kind, LinkNo, NodeNo};
use std::alloc::AllocError;

/// The kind of failure at this place among link, node and risk.
fn kind_numbered(number: u32) -> Kind
    ensures { result ≡ kind_numbered number }
{
    match number {
        0 => Kind::Link,
        1 => Kind::Node,
        _ => Kind::Risk,
    }
}

/// Appends a text and the system id of the node of this number. After an error a part of it may stand there;
/// what stood before stays.
fn put_group_node(text: &[u8], net: &Net, number: u32, out: &mut Vec<u8>) -> Result<(), AllocError>
    requires { number < node_count net.now.graph }
    ensures line { OnOk result
        (out.new.items ≡ out.old.items ++ (text.now ++ node_word (system_at net.now.graph number))) }
    ensures err { OnErr result (BeginsWith out.old.items out.new.items) }
{
    let graph = net.graph();
    out.extend_from_slice(text)?;
    put_node(graph.system(NodeNo(number as u16)), out)
}

/// Appends ` kind KIND`, ` node SYSTEM`, ` link LINK` or ` destination SYSTEM`: what the items of a group have in common.
/// After an error a part of it may stand there; what stood before stays.
#[tactic(auto, unfolding(crate::specs::Insight::group_name))]
fn put_group_name(
    net: &Net,
    grouping: Grouping,
    number: u32,
    out: &mut Vec<u8>,
) -> Result<(), AllocError>
    requires { number < group_count grouping net.now.graph }
    ensures line { OnOk result (out.new.items ≡ out.old.items ++ group_name net.now grouping number) }
    ensures err { OnErr result (BeginsWith out.old.items out.new.items) }
{
    let _graph = net.graph();
    match grouping {
        Grouping::Kind => {
            out.extend_from_slice(b" kind ")?;
            out.extend_from_slice(name_of(kind_numbered(number)))
        }
        Grouping::Node => put_group_node(b" node", net, number, out),
        Grouping::Link => {
            out.extend_from_slice(b" link")?;
            put_link(net, LinkNo(number as u16), out)
        }
        Grouping::Destination => put_group_node(b" destination", net, number, out),
    }
}

/// Appends `coverage GROUP T covered C nopath P nolist L toodeep T`.
/// After an error a part of the line may stand there; what stood before stays.
#[tactic(auto, unfolding(crate::specs::Insight::coverage_line))]
fn put_group(
    net: &Net,
    grouping: Grouping,
    group: &Group,
    out: &mut Vec<u8>,
) -> Result<(), AllocError>
    requires { group.now.number < group_count grouping net.now.graph }
    ensures line { OnOk result (out.new.items ≡ out.old.items ++ coverage_line net.now grouping group.now) }
    ensures err { OnErr result (BeginsWith out.old.items out.new.items) }
{
    out.extend_from_slice(b"coverage")?;
    put_group_name(net, grouping, group.number, out)?;
    put_value(group.coverage(), out)?;
    put_counts(group.counts, out)?;
    end(out)
}

/// Appends `coverage kind KIND T covered C nopath P nolist L toodeep T`, `coverage node SYSTEM ..`,
/// `coverage link LINK ..` or `coverage destination SYSTEM ..` for each group, in their order: how much of it is covered,
/// in ten-thousandths, and how many of its answers are lists, no path, no list and too deep.
/// After an error a part of the lines may stand there; what stood before stays.
pub fn put_coverage(
    net: &Net,
    grouping: Grouping,
    groups: &[Group],
    out: &mut Vec<u8>,
) -> Result<(), AllocError>
    requires { AreGroupsWithin grouping net.now.graph groups.now }
    ensures line { OnOk result (out.new.items ≡ out.old.items ++ coverage_lines net.now grouping groups.now) }
    ensures err { OnErr result (BeginsWith out.old.items out.new.items) }
{
    for group in groups {
        put_group(net, grouping, group, out)?;
    }
    Ok(())
}

/// Appends `labels KIND K repairs R`. After an error a part of the line may stand there; what stood before stays.
#[tactic(auto, unfolding(crate::specs::Insight::stack_line))]
fn put_stack(stack: &StackCount, out: &mut Vec<u8>) -> Result<(), AllocError>
    ensures line { OnOk result (out.new.items ≡ out.old.items ++ stack_line stack.now) }
    ensures err { OnErr result (BeginsWith out.old.items out.new.items) }
{
    out.extend_from_slice(b"labels ")?;
    out.extend_from_slice(name_of(stack.kind))?;
    put_value(u64::from(stack.labels), out)?;
    put_numbered(b" repairs ", u64::from(stack.repairs), out)?;
    end(out)
}

/// Appends `labels KIND K repairs R` for each of these, in their order: R repairs of cases of this kind push K labels.
/// After an error a part of the lines may stand there; what stood before stays.
pub fn put_stacks(stacks: &[StackCount], out: &mut Vec<u8>) -> Result<(), AllocError>
    ensures line { OnOk result (out.new.items ≡ out.old.items ++ stack_lines stacks.now) }
    ensures err { OnErr result (BeginsWith out.old.items out.new.items) }
{
    for stack in stacks {
        put_stack(stack, out)?;
    }
    Ok(())
}

/// Appends `repairs covered C nopath P nolist L toodeep T`: how many answers of a case are lists, no path, no list and too
/// deep. After an error a part of the line may stand there; what stood before stays.
pub fn put_repair_counts(counts: Counts, out: &mut Vec<u8>) -> Result<(), AllocError>
    ensures line { OnOk result (out.new.items ≡ out.old.items ++ repairs_line counts) }
    ensures err { OnErr result (BeginsWith out.old.items out.new.items) }
{
    out.extend_from_slice(b"repairs")?;
    put_counts(counts, out)?;
    end(out)
}
