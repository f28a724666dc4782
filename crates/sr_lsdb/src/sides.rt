//! The accepted facts beside the draft of the staged edits.
ghost use Rattle.std.specs.Prelude.{◌≡◌, [], OnOk};
ghost use Rattle.sr_lsdb.specs.Edit.{apply};
ghost use Rattle.sr_lsdb.specs.Edit.Edit.{BringUp, SetCost, SetDepth, TakeDown};
ghost use Rattle.sr_lsdb.specs.Facts.{StandsUnderItsId, no_facts};
ghost use Rattle.sr_lsdb.specs.Sides.{Drafts, IsNoted, latest, with_stored};
ghost use Rattle.sr_lsdb.specs.Touched.{EndsIn};

use crate::facts::{Facts, Stored};
use crate::touched::Touched;
use sr_lsp::LspId;
use sr_model::{LinkKey, PairKey};
use std::alloc::{AllocError, Global};
use std::mem;

/// The accepted facts in front, and a draft of the next ones at the back. What they may differ in is noted, so that
/// the draft starts anew without a copy of all facts. While nothing is staged the draft means nothing.
#[derive(Debug, Drop)]
pub(crate) struct Sides {
    pub front: Facts,
    pub back: Facts,
    pub touched: Vec<Touched>,
}

impl Sides {
    /// No facts, on either side.
    pub(crate) fn new(alloc: Global) -> Sides
        ensures front { result.front ≡ no_facts }
        ensures back { result.back ≡ no_facts }
        ensures touched { result.touched.items ≡ [] }
    {
        Sides {
            front: Facts::new(alloc),
            back: Facts::new(alloc),
            touched: Vec::new(alloc),
        }
    }

    /// The latest facts: the accepted ones where nothing is staged (`idle`, here and below), else the draft.
    pub(crate) fn latest(&self, idle: bool) -> &Facts
        ensures { result.now ≡ latest idle self.now }
    {
        if idle { &self.front } else { &self.back }
    }

    /// The draft moves to the front, and the facts that were accepted go to the back.
    pub(crate) fn turn(&mut self)
        requires { IsNoted self.old }
        ensures front { self.new.front ≡ self.old.back }
        ensures noted { IsNoted self.new }
    {
        mem::swap(&mut self.front, &mut self.back);
    }

    /// Takes over all that is noted from the front, the last name first.
    fn catch_up(&mut self) -> Result<(), AllocError>
        requires { IsNoted self.old }
        ensures accepted { self.new.front ≡ self.old.front }
        ensures noted { IsNoted self.new }
        ensures ok { OnOk result (self.new.back ≡ self.old.front) }
    {
        while !self.touched.is_empty() {
            let name = self.touched[self.touched.len() - 1];
            self.back.take_over(&self.front, &name)?;
            self.touched.pop();
        }
        self.back.depth = self.front.depth;
        self.back.settle(&self.front);
        Ok(())
    }

    /// Has the draft start from the latest facts: from the accepted ones where nothing is staged.
    fn refresh(&mut self, idle: bool) -> Result<(), AllocError>
        requires { IsNoted self.old }
        ensures { Drafts idle (latest idle self.old) self.old self.new result }
    {
        if idle { self.catch_up() } else { Ok(()) }
    }

    /// Has the draft start from the latest facts, and notes what is to differ.
    fn start(&mut self, idle: bool, name: Touched) -> Result<(), AllocError>
        requires { IsNoted self.old }
        ensures draft { Drafts idle (latest idle self.old) self.old self.new result }
        ensures named { OnOk result (EndsIn self.new.touched.items name) }
    {
        self.refresh(idle)?;
        self.touched.push(name)?;
        Ok(())
    }

    /// Stores under an id in the draft.
    pub(crate) fn store(&mut self, idle: bool, id: &LspId, stored: Stored) -> Result<(), AllocError>
        requires noted { IsNoted self.old }
        requires id { StandsUnderItsId (id.now, stored) }
        ensures { Drafts idle
            (with_stored id.now stored (latest idle self.old)) self.old self.new result }
    {
        self.start(idle, Touched::Lsp(*id))?;
        self.back.database.insert(*id, stored)
    }

    /// Sets the metric of a link in the draft.
    pub(crate) fn set_cost(
        &mut self,
        idle: bool,
        key: &LinkKey,
        metric: u32,
    ) -> Result<(), AllocError>
        requires { IsNoted self.old }
        ensures { Drafts idle (apply (SetCost key.now metric) (latest idle self.old))
            self.old self.new result }
    {
        self.start(idle, Touched::Cost(*key))?;
        self.back.costs.insert(*key, metric)
    }

    /// Takes a pair down in the draft.
    pub(crate) fn take_down(&mut self, idle: bool, pair: &PairKey) -> Result<(), AllocError>
        requires { IsNoted self.old }
        ensures { Drafts idle
            (apply (TakeDown pair.now) (latest idle self.old)) self.old self.new result }
    {
        self.start(idle, Touched::Pair(*pair))?;
        self.back.downs.insert(*pair)
    }

    /// Brings a pair up in the draft.
    pub(crate) fn bring_up(&mut self, idle: bool, pair: &PairKey) -> Result<(), AllocError>
        requires { IsNoted self.old }
        ensures { Drafts idle
            (apply (BringUp pair.now) (latest idle self.old)) self.old self.new result }
    {
        self.start(idle, Touched::Pair(*pair))?;
        self.back.downs.remove(pair);
        Ok(())
    }

    /// Sets the depth in the draft.
    pub(crate) fn set_depth(&mut self, idle: bool, depth: u8) -> Result<(), AllocError>
        requires { IsNoted self.old }
        ensures { Drafts idle
            (apply (SetDepth depth) (latest idle self.old)) self.old self.new result }
    {
        self.refresh(idle)?;
        self.back.depth = depth;
        Ok(())
    }
}
