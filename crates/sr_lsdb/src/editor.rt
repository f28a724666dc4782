//! The edits of the facts: staged one by one, and then accepted or dropped together.
ghost use Rattle.std.specs.Prelude.{◌≡◌, ◌<◌, ◌≤◌, ◌↔◌, IsTrue};
ghost use Rattle.sr_wire.specs.declared.registry.TheConstants.{MAXIMUM_METRIC};
ghost use Rattle.sr_lsp.specs.InRange.{FitsLsp};
ghost use Rattle.sr_model.specs.declared.limits.TheConstants.{MOST_DEPTH};
ghost use Rattle.sr_lsdb.specs.Edit.Edit.{BringUp, SetCost, SetDepth, TakeDown};
ghost use Rattle.sr_lsdb.specs.Editing.{IsSteady, opening, with_accepted, with_none_staged};
ghost use Rattle.sr_lsdb.specs.Facts.{AreInRange};
ghost use Rattle.sr_lsdb.specs.Renewed.{SayTheSame};
ghost use Rattle.sr_lsdb.specs.Staging.{Stages, StagesLsp};

use crate::facts::{Facts, Stored};
use crate::limits::MOST_STAGED;
use crate::sides::Sides;
use crate::stage_fault::StageFault;
use sr_lsp::Lsp;
use sr_model::{LinkKey, PairKey};
use std::alloc::Global;
use std::marker::Model;

/// The accepted facts of a domain, and the edits that are staged to them.
#[derive(Debug, Drop)]
pub struct Editor {
    alloc: Global,
    sides: Sides,
    staged: u32,
}

impl Model for Editor {
    ghost use Rattle.sr_lsdb.specs.Editing.{Editing};

    ghost Value = { Editing };

    ghost use Rattle.sr_lsdb.specs.Draft.{AreSteadySides, editing_of};

    ghost view = { λ e. editing_of e.sides e.staged };

    ghost invariant = { λ e. AreSteadySides e.sides e.staged };
}

impl Editor {
    /// An editor of no facts, with nothing staged.
    pub fn new(alloc: Global) -> Editor
        ensures { result ≡ opening }
    {
        Editor {
            alloc,
            sides: Sides::new(alloc),
            staged: 0,
        }
    }

    /// The accepted facts.
    pub fn accepted(&self) -> &Facts
        ensures facts { result.now ≡ self.now.accepted }
        ensures range { AreInRange result.now }
        ensures steady { IsSteady self.now }
    {
        &self.sides.front
    }

    /// The facts that the staged edits make of the accepted ones.
    pub fn tentative(&self) -> &Facts
        ensures facts { result.now ≡ self.now.tentative }
        ensures range { AreInRange result.now }
        ensures steady { IsSteady self.now }
    {
        self.sides.latest(self.staged == 0)
    }

    /// How many edits are staged, at most 4,096.
    pub fn staged(&self) -> u32
        ensures count { result ≡ self.now.staged }
        ensures steady { IsSteady self.now }
    {
        self.staged
    }

    /// Whether the tentative facts say the same as the accepted ones, but for the depth: as where PDUs were flooded
    /// anew, or nothing is staged. Only what the edits touched is compared, and no memory is taken.
    pub fn says_the_same(&self) -> bool
        ensures { IsTrue result ↔ SayTheSame self.now.accepted self.now.tentative }
    {
        self.staged == 0 || self.sides.says_the_same()
    }

    /// Stages a PDU, and answers how many edits are staged. It is `Stale` where it isn't newer than what the tentative
    /// facts have of it (ISO 10589, 7.3.16), and else `Full` where 4,096 are staged. An error changes nothing.
    pub fn stage_lsp(&mut self, lsp: Lsp) -> Result<u32, StageFault>
        requires { FitsLsp lsp }
        ensures { StagesLsp lsp self.old self.new result }
    {
        if let Some(stored) = self.sides.latest(self.staged == 0).stale_number(&lsp) {
            return Err(StageFault::Stale {
                stored,
                given: lsp.sequence,
            });
        }
        if self.staged == MOST_STAGED {
            return Err(StageFault::Full);
        }
        let id = lsp.id;
        let stored = Stored::new(self.alloc, lsp)?;
        self.sides.store(self.staged == 0, &id, stored)?;
        self.staged += 1;
        Ok(self.staged)
    }

    /// Stages the metric of a link, and answers how many edits are staged. It is `Full`
    /// where 4,096 are. An error changes nothing.
    pub fn stage_cost(&mut self, key: &LinkKey, metric: u32) -> Result<u32, StageFault>
        requires positive { 0 < metric }
        requires in_use { metric < MAXIMUM_METRIC }
        ensures { Stages (SetCost key.now metric) self.old self.new result }
    {
        if self.staged == MOST_STAGED {
            return Err(StageFault::Full);
        }
        self.sides.set_cost(self.staged == 0, key, metric)?;
        self.staged += 1;
        Ok(self.staged)
    }

    /// Stages that a bidirectional link goes down, and answers how many edits are staged. It is `Full`
    /// where 4,096 are. An error changes nothing.
    pub fn stage_down(&mut self, pair: PairKey) -> Result<u32, StageFault>
        ensures { Stages (TakeDown pair) self.old self.new result }
    {
        if self.staged == MOST_STAGED {
            return Err(StageFault::Full);
        }
        self.sides.take_down(self.staged == 0, &pair)?;
        self.staged += 1;
        Ok(self.staged)
    }

    /// Stages that a bidirectional link comes up, and answers how many edits are staged. It is `Full`
    /// where 4,096 are. An error changes nothing.
    pub fn stage_up(&mut self, pair: PairKey) -> Result<u32, StageFault>
        ensures { Stages (BringUp pair) self.old self.new result }
    {
        if self.staged == MOST_STAGED {
            return Err(StageFault::Full);
        }
        self.sides.bring_up(self.staged == 0, &pair)?;
        self.staged += 1;
        Ok(self.staged)
    }

    /// Stages how many segments a repair list may have, at most `MOST_DEPTH`, and answers how many edits are staged.
    /// It is `Full` where 4,096 are. An error changes nothing.
    pub fn stage_depth(&mut self, depth: u8) -> Result<u32, StageFault>
        requires { depth ≤ MOST_DEPTH }
        ensures { Stages (SetDepth depth) self.old self.new result }
    {
        if self.staged == MOST_STAGED {
            return Err(StageFault::Full);
        }
        self.sides.set_depth(self.staged == 0, depth)?;
        self.staged += 1;
        Ok(self.staged)
    }

    /// Accepts the staged edits: the tentative facts are the accepted ones, and nothing is staged. It takes no memory.
    pub fn accept(&mut self)
        ensures { self.new ≡ with_accepted self.old }
    {
        if self.staged > 0 {
            self.sides.turn();
            self.staged = 0;
        }
    }

    /// Drops the staged edits, and answers how many there were. It takes no memory.
    pub fn drop_staged(&mut self) -> u32
        ensures count { result ≡ self.old.staged }
        ensures dropped { self.new ≡ with_none_staged self.old }
    {
        let dropped = self.staged;
        self.staged = 0;
        dropped
    }
}
