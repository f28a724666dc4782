//! Versions of the small domains of the scripts, as the program makes them: PDUs are read, staged and accepted, their net
//! is made, and then all that is computed of it.
ghost use Rattle.std.specs.Prelude.{◌≡◌, ◌<◌, IfOk};
ghost use Rattle.sr_model.specs.Case.{IsCase};

use super::cases::first_case;
use super::pairs::PAIRS;
use super::rings::RINGS;
use sr_domain::net_of;
use sr_labels::Net;
use sr_lsdb::Editor;
use sr_lsp::read_lsp;
use sr_model::{Case, Kind, SystemId};
use sr_repair::Version;
use sr_spf::Steps;
use std::alloc::{AllocError, AllocGlobal, Global};
use std::marker::Brand;
use std::sync::ledger::{Blank, Ledger};
use std::test::Fail;
use std::thread::Threads;

/// Stages the PDU of these hexadecimal digits.
fn stage(alloc: Global, editor: &mut Editor, digits: &str) -> Result<(), Fail> {
    let octets = hex::decode(alloc, digits.as_bytes())?;
    let lsp = read_lsp(alloc, &octets);
    drop(octets);
    editor.stage_lsp(lsp?)?;
    Ok(())
}

/// Accepts the facts that the PDUs of the script announce, and makes their net.
fn net_in(alloc: Global, editor: &mut Editor, script: &str) -> Result<Net, Fail> {
    for line in script.lines() {
        if let Some(digits) = line.strip_prefix("lsp ") {
            stage(alloc, editor, digits)?;
        }
    }
    editor.accept();
    Ok(net_of(alloc, editor.accepted())?)
}

/// The net that the PDUs of the script announce.
fn net_announced(alloc: Global, script: &str) -> Result<Net, Fail> {
    let mut editor = Editor::new(alloc);
    let net = net_in(alloc, &mut editor, script);
    drop(editor);
    net
}

/// The script of this name in the table, which has this many cases.
fn find<'a>(table: &'a str, count: usize, name: &str) -> Option<&'a str> {
    let mut rest = table;
    for _ in 0..count {
        let (case, behind) = first_case(rest)?;
        if case.name == name {
            return Some(case.script);
        }
        rest = behind;
    }
    None
}

/// The script of this name, of a ring or of bidirectional links. The tables are named here alone, since a function is
/// proved with all the scripts of the tables that it names.
fn script_named(name: &str) -> Result<&'static str, Fail> {
    let found = match find(RINGS, 7, name) {
        Some(script) => Some(script),
        None => find(PAIRS, 7, name),
    };
    match found {
        Some(script) => Ok(script),
        None => Err(Fail::new("no such script")),
    }
}

/// The first version of the net, with its searches counted from nothing.
fn opening<L: Ledger>(
    rt: &(impl Threads + Sync),
    alloc: Global,
    net: Net,
    blank: Blank,
) -> Result<Version, AllocError>
    requires name { blank.name ≡ L.name }
    requires parts { (blank.parts ≡ L.parts) × (0 < L.parts) }
{
    let mut steps = Steps::<L>::new(blank);
    Version::opening(rt, alloc, net, &mut steps)
}

/// The version of the domain that the PDUs of the script of this name announce.
pub fn version_of<R: AllocGlobal + Threads + Sync>(rt: &R, name: &str) -> Result<Version, Fail> {
    let net = net_announced(rt.alloc(), script_named(name)?)?;
    Ok(opening::<Brand>(rt, rt.alloc(), net, Blank::new(1))?)
}

/// Lets a version go that a test has looked at. All that it drops is written out here, once for all tests.
pub fn leave(version: Version) {
    drop(version);
}

/// The case of this kind that protects the first link from node 1 to node 2.
pub fn case_of(version: &Version, kind: Kind) -> Result<Case, Fail>
    ensures { IfOk result (IsCase version.now.net.graph) }
{
    let net = version.net();
    let one = SystemId::new(1).unwrap();
    let two = SystemId::new(2).unwrap();
    let key = match net.named(one, two, 1) {
        Some(key) => key,
        None => return Err(Fail::new("no link from node 1 to node 2")),
    };
    match net.graph().find(&key) {
        Some(link) => Ok(Case { kind, link }),
        None => Err(Fail::new("no such link is in use")),
    }
}
