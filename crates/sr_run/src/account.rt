//! Where a version comes from: `nodes`, `links` and `aside`.
ghost use Rattle.std.specs.Prelude.{IfSome};
ghost use Rattle.std.specs.List.{flat_map};
ghost use Rattle.sr_lsdb.specs.Facts.{AreInRange};
ghost use Rattle.sr_domain.specs.Net.{IsNetOf};
ghost use Rattle.sr_account.specs.Asides.{IsAsideCount};
ghost use Rattle.sr_print.specs.Account.{aside_count_line, aside_line};
ghost use Rattle.sr_engine.specs.Written.{Puts, written};
ghost use Rattle.sr_run.specs.Session.{TellsOf};
ghost use Rattle.sr_run.specs.Account.{TellsLinks, TellsNodes};
ghost use Rattle.sr_run.specs.Handlers.{BeginsAsides, Carries, WritesAsides};

use crate::kept::{KeptVersion, last_version};
use crate::stop::{Stop, found};
use sr_account::{Account, Aside, are_in_order, aside_count, nothing_is_lost, sources_of};
use sr_base::{Sink, SinkFault};
use sr_engine::Answers;
use sr_lsdb::Facts;
use sr_print::{put_aside_count, put_asides, put_links, put_nodes};
use std::alloc::Global;

/// `nodes`: appends the nodes of the version, each with what it announces.
pub(crate) fn nodes(current: &KeptVersion, out: &mut Vec<u8>) -> Result<(), Stop>
    ensures { Carries (TellsOf TellsNodes current.now) out.old.items out.new.items result }
{
    let version = found!(last_version(current));
    put_nodes(version.net(), out)?;
    Ok(())
}

/// `links`: appends the links of the version, each with what the facts announce of it.
pub(crate) fn links(
    alloc: Global,
    facts: &Facts,
    current: &KeptVersion,
    out: &mut Vec<u8>,
) -> Result<(), Stop>
    requires { IfSome current.now (λ version. IsNetOf facts.now version.net) }
    ensures { Carries (TellsOf (TellsLinks facts.now) current.now) out.old.items out.new.items result }
{
    let version = found!(last_version(current));
    let announced = sources_of(alloc, facts, version.net())?;
    put_links(version.net(), &announced, out)?;
    Ok(())
}

/// `aside`: how much of the facts the version, where there is one, doesn't use. So the account is taken once before any
/// of it is written, which then is a beginning of it wherever the writing stops.
pub(crate) fn begin_asides(alloc: Global, facts: &Facts, current: &KeptVersion) -> Result<u64, Stop>
    requires range { AreInRange facts.now }
    requires net { IfSome current.now (λ version. IsNetOf facts.now version.net) }
    ensures { BeginsAsides facts.now current.now result }
{
    let _version = found!(last_version(current));
    are_in_order(facts);
    nothing_is_lost();
    let count = aside_count(alloc, facts)?;
    Ok(count)
}

/// Writes the lines of these.
fn write_asides<K: Sink>(
    asides: &[Aside],
    text: &mut Vec<u8>,
    out: &mut Answers,
    sink: &mut K,
) -> Result<(), SinkFault>
    ensures { Puts (written (K.held sink.old) (K.faults sink.old) out.old)
        (written (K.held sink.new) (K.faults sink.new) out.new) (flat_map aside_line asides.now) result }
{
    text.clear();
    match put_asides(asides, text) {
        Ok(()) => out.put(sink, text),
        Err(error) => Err(SinkFault::Memory(error)),
    }
}

/// Writes the line behind that many of these.
fn write_aside_count<K: Sink>(
    count: u64,
    text: &mut Vec<u8>,
    out: &mut Answers,
    sink: &mut K,
) -> Result<(), SinkFault>
    ensures { Puts (written (K.held sink.old) (K.faults sink.old) out.old)
        (written (K.held sink.new) (K.faults sink.new) out.new) (aside_count_line count) result }
{
    text.clear();
    match put_aside_count(count, text) {
        Ok(()) => out.put(sink, text),
        Err(error) => Err(SinkFault::Memory(error)),
    }
}

/// Writes what of the facts isn't used, LSP by LSP, and how much that is, which was counted before.
pub(crate) fn put_account<K: Sink>(
    alloc: Global,
    facts: &Facts,
    count: u64,
    text: &mut Vec<u8>,
    out: &mut Answers,
    sink: &mut K,
) -> Result<(), SinkFault>
    requires { IsAsideCount facts.now count }
    ensures { WritesAsides facts.now (written (K.held sink.old) (K.faults sink.old) out.old)
        (written (K.held sink.new) (K.faults sink.new) out.new) result }
{
    let mut account = match Account::of(alloc, facts) {
        Ok(account) => account,
        Err(error) => return Err(SinkFault::Memory(error)),
    };
    let mut told = Vec::new(alloc);
    let database = facts.database.as_map();
    for (id, stored) in database {
        told.clear();
        match account.add(facts, id, stored, &mut told) {
            Ok(()) => {}
            Err(error) => return Err(SinkFault::Memory(error)),
        }
        match write_asides(&told, text, out, sink) {
            Ok(()) => {}
            Err(fault) => return Err(fault),
        }
    }
    write_aside_count(count, text, out, sink)
}
