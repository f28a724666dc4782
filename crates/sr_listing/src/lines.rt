//! The lines of an audit, case by case.
ghost use Rattle.std.specs.Prelude.{◌<◌, OnOk, OnErr};
ghost use Rattle.sr_repair.specs.Answers.{case_count};
ghost use Rattle.sr_print.specs.Names.{AreNames};
ghost use Rattle.sr_print.specs.Printed.{BeginsWith};
ghost use Rattle.sr_listing.specs.Listed.{PutsCase};

use sr_print::{Names, put_answers};
use sr_repair::{Version, case_at};
use std::alloc::AllocError;

/// Appends the lines of the audit of the case at this place: each destination that it affects once, in order, as `put_repair`
/// appends it. `names` are those of the version's net (`Names::of`); an audit makes them once.
/// After an error a part of the lines may stand there; what stood before stays.
pub fn put_case(
    version: &Version,
    place: u32,
    names: &Names,
    out: &mut Vec<u8>,
) -> Result<(), AllocError>
    requires place { place < case_count version.now.net.graph }
    requires names { AreNames version.now.net names.now }
    ensures lines { OnOk result (PutsCase version.now.net place out.old.items out.new.items) }
    ensures err { OnErr result (BeginsWith out.old.items out.new.items) }
{
    let net = version.net();
    let case = case_at(net.graph(), place);
    put_answers(net, names, case, &version.answers(case), out)
}
