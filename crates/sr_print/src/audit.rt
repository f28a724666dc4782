//! The counts of an audit.
ghost use Rattle.std.specs.Prelude.{◌≡◌, ◌++◌, OnOk, OnErr};
ghost use Rattle.sr_print.specs.Printed.{BeginsWith};
ghost use Rattle.sr_print.specs.Repairs.{counts_text, summary_line};

use crate::line::{end, put_numbered};
use sr_model::Counts;
use std::alloc::AllocError;

/// Appends how many answers of each sort there are, each behind its name.
/// After an error a part of them may stand there; what stood before stays.
pub(crate) fn put_counts(counts: Counts, out: &mut Vec<u8>) -> Result<(), AllocError>
    ensures line { OnOk result (out.new.items ≡ out.old.items ++ counts_text counts) }
    ensures err { OnErr result (BeginsWith out.old.items out.new.items) }
{
    put_numbered(b" covered ", u64::from(counts.covered), out)?;
    put_numbered(b" nopath ", u64::from(counts.nopath), out)?;
    put_numbered(b" nolist ", u64::from(counts.nolist), out)?;
    put_numbered(b" toodeep ", u64::from(counts.toodeep), out)
}

/// Appends `audit version V covered C nopath P nolist L toodeep T`: the number of a version, and how
/// many answers of its audit are lists, no path, no list and too deep.
/// After an error a part of the line may stand there; what stood before stays.
pub fn put_summary(
    version: u32,
    covered: u32,
    nopath: u32,
    nolist: u32,
    toodeep: u32,
    out: &mut Vec<u8>,
) -> Result<(), AllocError>
    ensures line { OnOk result (out.new.items ≡ out.old.items ++ summary_line version
        (record { covered = covered; nopath = nopath; nolist = nolist; toodeep = toodeep })) }
    ensures err { OnErr result (BeginsWith out.old.items out.new.items) }
{
    put_numbered(b"audit version ", u64::from(version), out)?;
    let counts = Counts {
        covered,
        nopath,
        nolist,
        toodeep,
    };
    put_counts(counts, out)?;
    end(out)
}
