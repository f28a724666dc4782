//! The line of a refusal.
ghost use Rattle.std.specs.Prelude.{◌≡◌, ◌++◌, decimal, OnOk, OnErr};
ghost use Rattle.std.specs.List.{flat_map};
ghost use Rattle.sr_print.specs.Printed.{BeginsWith, node_word, word};
ghost use Rattle.sr_print.specs.Refused.{broken_line, check_lines, details, refusal_name, refused_line, rule_details, rule_name};

use crate::line::{end, put_numbered};
use crate::number::{put_node, put_number, put_value};
use crate::refusal::Refusal;
use sr_model::{DomainRule, SystemId};
use std::alloc::AllocError;

/// Appends `refused LINE CODE NAME DETAILS`: the line of this number is refused.
/// After an error a part of the line may stand there; what stood before stays.
pub fn put_refused(line: u32, refusal: &Refusal, out: &mut Vec<u8>) -> Result<(), AllocError>
    ensures line { OnOk result (out.new.items ≡ out.old.items ++ refused_line line refusal.now) }
    ensures err { OnErr result (BeginsWith out.old.items out.new.items) }
{
    out.extend_from_slice(b"refused ")?;
    put_number(u64::from(line), out)?;
    out.push(b' ')?;
    out.extend_from_slice(name_of(refusal))?;
    put_details(refusal, out)?;
    out.push(b'\n')?;
    Ok(())
}

/// The number and name of a broken rule.
fn rule_name(rule: &DomainRule) -> &'static [u8]
    ensures { result.now ≡ rule_name rule.now }
{
    match rule {
        DomainRule::NoSrgb { .. } => b"11 NoSrgb",
        DomainRule::SrgbBad { .. } => b"12 SrgbBad",
        DomainRule::DuplicateIndex { .. } => b"13 DuplicateIndex",
        DomainRule::IndexOutside { .. } => b"14 IndexOutside",
        DomainRule::AdjLabelClash { .. } => b"15 AdjLabelClash",
        DomainRule::ZeroMetric { .. } => b"16 ZeroMetric",
        DomainRule::DuplicateLink { .. } => b"17 DuplicateLink",
        DomainRule::TooManyNodes { .. } => b"18 TooManyNodes",
        DomainRule::TooManyLinks { .. } => b"19 TooManyLinks",
    }
}

/// The refusal's number and name.
fn name_of(refusal: &Refusal) -> &'static [u8]
    ensures { result.now ≡ refusal_name refusal.now }
{
    match refusal {
        Refusal::UnknownWord => b"1 UnknownWord",
        Refusal::BadForm => b"2 BadForm",
        Refusal::BadHex => b"3 BadHex",
        Refusal::Malformed { .. } => b"4 Malformed",
        Refusal::Stale { .. } => b"5 Stale",
        Refusal::StagedFull => b"6 StagedFull",
        Refusal::Rule(rule) => rule_name(rule),
        Refusal::Overload { .. } => b"20 Overload",
        Refusal::NoNode { .. } => b"21 NoNode",
        Refusal::NoLink { .. } => b"22 NoLink",
        Refusal::NoDestination { .. } => b"23 NoDestination",
        Refusal::NotAffected { .. } => b"24 NotAffected",
        Refusal::NoVersion => b"25 NoVersion",
        Refusal::WatchRunning => b"26 WatchRunning",
        Refusal::LineTooLong => b"27 LineTooLong",
        Refusal::VersionsFull => b"28 VersionsFull",
        Refusal::NoProof => b"30 NoProof",
        Refusal::ProofFull => b"31 ProofFull",
        Refusal::NoSuchVersion { .. } => b"32 NoSuchVersion",
    }
}

/// Appends what a broken rule names. After an error a part of it may stand there;
/// what stood before stays.
fn put_rule_details(rule: &DomainRule, out: &mut Vec<u8>) -> Result<(), AllocError>
    ensures line { OnOk result (out.new.items ≡ out.old.items ++ rule_details rule.now) }
    ensures err { OnErr result (BeginsWith out.old.items out.new.items) }
{
    match rule {
        DomainRule::DuplicateIndex { index, low, high } => {
            put_value(u64::from(*index), out)?;
            put_nodes(*low, *high, out)
        }
        DomainRule::IndexOutside { index, node } => put_value_at(*index, *node, out),
        DomainRule::AdjLabelClash { label, node } => put_value_at(*label, *node, out),
        DomainRule::ZeroMetric { from, to } | DomainRule::DuplicateLink { from, to } => {
            put_nodes(*from, *to, out)
        }
        DomainRule::TooManyNodes { count } | DomainRule::TooManyLinks { count } => {
            put_value(*count, out)
        }
        DomainRule::NoSrgb { node } | DomainRule::SrgbBad { node } => put_node(*node, out),
    }
}

/// Appends `broken CODE NAME DETAILS`: the rule is broken. After an error a part of the line may stand there; what stood
/// before stays.
#[tactic(auto, unfolding(crate::specs::Refused::broken_line))]
fn put_broken(rule: &DomainRule, out: &mut Vec<u8>) -> Result<(), AllocError>
    ensures line { OnOk result (out.new.items ≡ out.old.items ++ broken_line rule.now) }
    ensures err { OnErr result (BeginsWith out.old.items out.new.items) }
{
    out.extend_from_slice(b"broken ")?;
    out.extend_from_slice(rule_name(rule))?;
    put_rule_details(rule, out)?;
    end(out)
}

/// Appends a line for each of these. After an error a part of the lines may stand there; what stood before stays.
fn put_each_broken(rules: &[DomainRule], out: &mut Vec<u8>) -> Result<(), AllocError>
    ensures line { OnOk result (out.new.items ≡ out.old.items ++ flat_map broken_line rules.now) }
    ensures err { OnErr result (BeginsWith out.old.items out.new.items) }
{
    for rule in rules {
        put_broken(rule, out)?;
    }
    Ok(())
}

/// Appends `broken CODE NAME DETAILS` for each of these rules, in their order, with the code, the name and the details by
/// which a commit is refused; and `check broken K`, how many they are.
/// After an error a part of the lines may stand there; what stood before stays.
pub fn put_check(rules: &[DomainRule], out: &mut Vec<u8>) -> Result<(), AllocError>
    ensures line { OnOk result (out.new.items ≡ out.old.items ++ check_lines rules.now) }
    ensures err { OnErr result (BeginsWith out.old.items out.new.items) }
{
    put_each_broken(rules, out)?;
    put_numbered(b"check broken ", rules.len() as u64, out)?;
    end(out)
}

/// Appends what the refusal names. After an error a part of it may stand there;
/// what stood before stays.
fn put_details(refusal: &Refusal, out: &mut Vec<u8>) -> Result<(), AllocError>
    ensures line { OnOk result (out.new.items ≡ out.old.items ++ details refusal.now) }
    ensures err { OnErr result (BeginsWith out.old.items out.new.items) }
{
    match refusal {
        Refusal::Malformed { offset, what } => put_values(*offset, u64::from(*what), out),
        Refusal::Stale { stored, given } => {
            put_values(u64::from(*stored), u64::from(*given), out)
        }
        Refusal::Rule(rule) => put_rule_details(rule, out),
        Refusal::NoSuchVersion { version } => put_value(u64::from(*version), out),
        Refusal::NoLink { from, to, n } => {
            put_nodes(*from, *to, out)?;
            put_value(u64::from(*n), out)
        }
        Refusal::Overload { node }
        | Refusal::NoNode { node }
        | Refusal::NoDestination { node }
        | Refusal::NotAffected { node } => put_node(*node, out),
        Refusal::UnknownWord
        | Refusal::BadForm
        | Refusal::BadHex
        | Refusal::StagedFull
        | Refusal::NoVersion
        | Refusal::WatchRunning
        | Refusal::LineTooLong
        | Refusal::VersionsFull
        | Refusal::NoProof
        | Refusal::ProofFull => Ok(()),
    }
}

/// Appends two numbers. After an error a part of them may stand there;
/// what stood before stays.
fn put_values(first: u64, second: u64, out: &mut Vec<u8>) -> Result<(), AllocError>
    ensures line { OnOk result (out.new.items ≡ out.old.items ++ word (decimal first) ++ word (decimal second)) }
    ensures err { OnErr result (BeginsWith out.old.items out.new.items) }
{
    put_value(first, out)?;
    put_value(second, out)
}

/// Appends two nodes. After an error a part of them may stand there;
/// what stood before stays.
fn put_nodes(first: SystemId, second: SystemId, out: &mut Vec<u8>) -> Result<(), AllocError>
    ensures line { OnOk result (out.new.items ≡ out.old.items ++ node_word first ++ node_word second) }
    ensures err { OnErr result (BeginsWith out.old.items out.new.items) }
{
    put_node(first, out)?;
    put_node(second, out)
}

/// Appends a number and the node that it is of. After an error a part of them may stand there;
/// what stood before stays.
fn put_value_at(number: u32, node: SystemId, out: &mut Vec<u8>) -> Result<(), AllocError>
    ensures line { OnOk result (out.new.items ≡ out.old.items ++ word (decimal number) ++ node_word node) }
    ensures err { OnErr result (BeginsWith out.old.items out.new.items) }
{
    put_value(u64::from(number), out)?;
    put_node(node, out)
}
