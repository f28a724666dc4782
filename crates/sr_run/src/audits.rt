//! The audit of a version: `audit` and `audit full`.
ghost use Rattle.std.specs.Prelude.{◌≡◌, ◌++◌, true, is_some, OnOk};
ghost use Rattle.sr_print.specs.Names.{AreNames};
ghost use Rattle.sr_print.specs.Repairs.{summary_line};
ghost use Rattle.sr_engine.specs.Written.{written};
ghost use Rattle.sr_run.specs.Session.{TellsOf};
ghost use Rattle.sr_run.specs.Failures.{TellsSummary};
ghost use Rattle.sr_run.specs.Handlers.{BeginsAudit, Carries, WritesAudit, WritesCases, WritesCounts};

use crate::kept::{KeptVersion, last_version};
use crate::session::Reply;
use crate::stop::{Stop, found};
use sr_audit::counts;
use sr_base::{Sink, SinkFault};
use sr_engine::Answers;
use sr_listing::put_case;
use sr_model::Counts;
use sr_print::{Names, put_summary};
use sr_repair::{Version, case_count};
use std::alloc::{AllocError, Global};

/// Appends how many answers of each sort the audit of the version of this number has.
pub(crate) fn put_audit_counts(
    number: u32,
    counts: Counts,
    out: &mut Vec<u8>,
) -> Result<(), AllocError>
    ensures { OnOk result (out.new.items ≡ out.old.items ++ summary_line number counts) }
{
    put_summary(
        number,
        counts.covered,
        counts.nopath,
        counts.nolist,
        counts.toodeep,
        out,
    )
}

/// `audit`: appends how many answers of each sort the audit of the last version has.
pub(crate) fn audit_counts(current: &KeptVersion, out: &mut Vec<u8>) -> Result<(), Stop>
    ensures { Carries (TellsOf TellsSummary current.now) out.old.items out.new.items result }
{
    let version = found!(last_version(current));
    put_audit_counts(version.number(), counts(version), out)?;
    Ok(())
}

/// `audit full`: whether there is a version of which the audit can be written.
pub(crate) fn begin_audit(current: &KeptVersion) -> Result<Reply, Stop>
    ensures { BeginsAudit current.now result }
{
    let _version = found!(last_version(current));
    Ok(Reply::Audit)
}

/// Writes the answers of all cases of the version, case by case. `names` are those of its net.
fn write_cases<K: Sink>(
    version: &Version,
    names: &Names,
    text: &mut Vec<u8>,
    out: &mut Answers,
    sink: &mut K,
) -> Result<(), SinkFault>
    requires { AreNames version.now.net names.now }
    ensures { WritesCases version.now.net
        (written (K.held sink.old) (K.faults sink.old) out.old)
        (written (K.held sink.new) (K.faults sink.new) out.new) result }
{
    version.is_answered();
    for place in 0..case_count(version.net().graph()) {
        text.clear();
        match put_case(version, place, names, text) {
            Ok(()) => match out.put(sink, text) {
                Ok(()) => {}
                Err(fault) => return Err(fault),
            },
            Err(error) => return Err(SinkFault::Memory(error)),
        }
    }
    Ok(())
}

/// Writes how many answers of each sort the audit of the version has.
fn write_counts<K: Sink>(
    version: &Version,
    text: &mut Vec<u8>,
    out: &mut Answers,
    sink: &mut K,
) -> Result<(), SinkFault>
    ensures { WritesCounts version.now
        (written (K.held sink.old) (K.faults sink.old) out.old)
        (written (K.held sink.new) (K.faults sink.new) out.new) result }
{
    text.clear();
    match put_audit_counts(version.number(), counts(version), text) {
        Ok(()) => out.put(sink, text),
        Err(error) => Err(SinkFault::Memory(error)),
    }
}

/// Writes the audit of the version, which there is: the answers of all cases, and how many there are of each sort.
pub(crate) fn put_audit<K: Sink>(
    alloc: Global,
    current: &KeptVersion,
    text: &mut Vec<u8>,
    out: &mut Answers,
    sink: &mut K,
) -> Result<(), SinkFault>
    requires { is_some current.now ≡ true }
    ensures { WritesAudit current.now
        (written (K.held sink.old) (K.faults sink.old) out.old)
        (written (K.held sink.new) (K.faults sink.new) out.new) result }
{
    let version = match last_version(current) {
        Ok(version) => version,
        Err(_) => unreachable!(),
    };
    version.is_answered();
    let names = match Names::of(alloc, version.net()) {
        Ok(names) => names,
        Err(error) => return Err(SinkFault::Memory(error)),
    };
    match write_cases(version, &names, text, out, sink) {
        Ok(()) => write_counts(version, text, out, sink),
        Err(fault) => Err(fault),
    }
}
