//! Edits: `lsp`, `cost`, `down`, `up` and `depth`, and `drop`.
ghost use Rattle.std.specs.Prelude.{◌≡◌, ◌≤◌};
ghost use Rattle.sr_lsdb.specs.Staging.{Stages};
ghost use Rattle.sr_script.specs.declared.command.Command.TheVariants.{Lsp as LspWord, Depth, DropStaged};
ghost use Rattle.sr_model.specs.declared.limits.TheConstants.{MOST_DEPTH};
ghost use Rattle.sr_run.specs.Edits.{EditsLink, malformed_pdu};
ghost use Rattle.sr_run.specs.Handlers.{Carries, CarriesOut, IsLinkEdit, Moves, TellsStaged, edit_of};

use crate::kept::last_version;
use crate::names::find_announced;
use crate::session::DomainSession;
use crate::stop::{Stop, found};
use sr_lsdb::{Editor, StageFault};
use sr_lsp::{Malformed, ReadFault, read_lsp};
use sr_model::LinkKey;
use sr_print::{Refusal, put_dropped, put_staged};
use sr_script::LinkName;

/// Appends how many edits are staged, or answers why the edit isn't.
fn put_stage(staged: Result<u32, StageFault>, out: &mut Vec<u8>) -> Result<(), Stop>
    ensures { Carries (TellsStaged staged) out.old.items out.new.items result }
{
    match staged {
        Ok(count) => Ok(put_staged(count, out)?),
        Err(StageFault::Stale { stored, given }) => {
            Err(Stop::Refused(Refusal::Stale { stored, given }))
        }
        Err(StageFault::Full) => Err(Stop::Refused(Refusal::StagedFull)),
        Err(StageFault::Memory(error)) => Err(Stop::Memory(error)),
    }
}

/// The refusal of octets that fail a check.
fn refusal_of(malformed: &Malformed) -> Refusal
    ensures { result ≡ malformed_pdu malformed.now }
{
    Refusal::Malformed {
        offset: malformed.offset as u64,
        what: malformed.check.number(),
    }
}

/// An edit of a link that a line names.
#[derive(Clone, Copy, Debug)]
pub(crate) enum LinkEdit {
    /// Its metric is set.
    Cost(u32),
    /// Its pair goes down.
    Down,
    /// Its pair comes up.
    Up,
}

/// Stages the edit of this link.
fn stage(editor: &mut Editor, key: &LinkKey, edit: LinkEdit) -> Result<u32, StageFault>
    requires { IsLinkEdit edit }
    ensures { Stages (edit_of edit key.now) editor.old editor.new result }
{
    match edit {
        LinkEdit::Cost(metric) => editor.stage_cost(key, metric),
        LinkEdit::Down => editor.stage_down(key.pair()),
        LinkEdit::Up => editor.stage_up(key.pair()),
    }
}

impl DomainSession {
    /// `lsp HEX`: stages the PDU that the octets are read as.
    pub(crate) fn lsp(&mut self, octets: &[u8], out: &mut Vec<u8>) -> Result<(), Stop>
        ensures told { CarriesOut (LspWord octets.now) self.old self.new
            out.old.items out.new.items result }
        ensures current { self.new.current ≡ self.old.current }
    {
        match read_lsp(self.alloc, octets) {
            Ok(lsp) => {
                let staged = self.editor.stage_lsp(lsp);
                put_stage(staged, out)
            }
            Err(ReadFault::Malformed(malformed)) => Err(Stop::Refused(refusal_of(&malformed))),
            Err(ReadFault::Memory(error)) => Err(Stop::Memory(error)),
        }
    }

    /// `cost A B n M`, `down A B n` and `up A B n`: stages an edit of the announced link of this name.
    pub(crate) fn edit_link(
        &mut self,
        link: &LinkName,
        edit: LinkEdit,
        out: &mut Vec<u8>,
    ) -> Result<(), Stop>
        requires { IsLinkEdit edit }
        ensures told { Carries (Moves (EditsLink (edit_of edit) link.now) self.old self.new)
            out.old.items out.new.items result }
        ensures current { self.new.current ≡ self.old.current }
    {
        let version = found!(last_version(&self.current));
        let key = found!(find_announced(version, link));
        let staged = stage(&mut self.editor, &key, edit);
        put_stage(staged, out)
    }

    /// `depth K`: stages how many segments a repair list may have.
    pub(crate) fn depth(&mut self, depth: u8, out: &mut Vec<u8>) -> Result<(), Stop>
        requires { depth ≤ MOST_DEPTH }
        ensures told { CarriesOut (Depth depth) self.old self.new out.old.items out.new.items result }
        ensures current { self.new.current ≡ self.old.current }
    {
        let staged = self.editor.stage_depth(depth);
        put_stage(staged, out)
    }

    /// `drop`: drops the staged edits.
    pub(crate) fn drop_staged(&mut self, out: &mut Vec<u8>) -> Result<(), Stop>
        ensures told { CarriesOut DropStaged self.old self.new out.old.items out.new.items result }
        ensures current { self.new.current ≡ self.old.current }
    {
        let dropped = self.editor.drop_staged();
        put_dropped(dropped, out)?;
        Ok(())
    }
}
