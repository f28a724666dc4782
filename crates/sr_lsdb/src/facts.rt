//! The facts of a domain.
ghost use Rattle.std.specs.Prelude.{◌≡◌, ◌↔◌, [], Some, IfOk, OnOk, OnErr, MatchOption, IsTrue};
ghost use Rattle.sr_lsdb.specs.declared.touched.Touched.{Touched as Name};
ghost use Rattle.sr_lsdb.specs.Alike.{IsAlikeAt};
ghost use Rattle.sr_lsdb.specs.Facts.{IsTaken, no_facts, stored_of, stored_under};
ghost use Rattle.sr_lsdb.specs.Renewed.{SayTheSame};
ghost use Rattle.sr_lsdb.specs.Staging.{IsStale};
ghost use Rattle.sr_lsdb.specs.Touched.{Agree, Follows};

use crate::shared::SharedLsp;
use crate::tables::{Database, DownPairs, LinkCosts};
use crate::touched::Touched;
use sr_lsp::Lsp;
use std::alloc::{AllocError, Global};

/// What is stored under an LSP id: the sequence number, and the PDU while it is live. A purge leaves its number behind
/// (ISO 10589, 7.3.16.4).
#[derive(Debug, Drop)]
pub struct Stored {
    pub sequence: u32,
    pub live: Option<SharedLsp>,
}

impl Stored {
    /// What is stored of a PDU that is taken.
    pub(crate) fn new(alloc: Global, lsp: Lsp) -> Result<Stored, AllocError>
        ensures { IfOk result (λ stored. stored ≡ stored_of lsp) }
    {
        let sequence = lsp.sequence;
        let live = if lsp.lifetime == 0 {
            None
        } else {
            Some(SharedLsp::new(alloc, lsp)?)
        };
        Ok(Stored { sequence, live })
    }

    /// Whether a PDU of the same id takes its place.
    fn is_replaced_by(&self, lsp: &Lsp) -> bool
        ensures { IsTrue result ↔ IsTaken (Some self.now) lsp.now }
    {
        self.sequence < lsp.sequence
            || lsp.sequence == self.sequence && lsp.lifetime == 0 && self.live.is_some()
    }

    /// The same for one more holder, who shares the PDU.
    pub(crate) fn again(&self) -> Result<Stored, AllocError>
        ensures { IfOk result (λ stored. stored ≡ self.now) }
    {
        let live = match &self.live {
            Some(lsp) => Some(lsp.again()?),
            None => None,
        };
        Ok(Stored {
            sequence: self.sequence,
            live,
        })
    }
}

/// The facts of a domain: its link-state database, the metrics that are set for links, the bidirectional links that
/// are down, and how many segments a repair list may have.
#[derive(Debug, Drop)]
pub struct Facts {
    pub database: Database,
    pub costs: LinkCosts,
    pub downs: DownPairs,
    pub depth: u8,
}

/// How many segments a repair list may have until another number is set.
const FIRST_DEPTH: u8 = 3;

impl Facts {
    /// The facts before the first edit.
    pub fn new(alloc: Global) -> Facts
        ensures { result ≡ no_facts }
    {
        Facts {
            database: Database::new(alloc),
            costs: LinkCosts::new(alloc),
            downs: DownPairs::new(alloc),
            depth: FIRST_DEPTH,
        }
    }

    /// The number that is stored under a PDU's id, where the PDU isn't taken.
    pub(crate) fn stale_number(&self, lsp: &Lsp) -> Option<u32>
        ensures { MatchOption result (IsTaken (stored_under self.now lsp.now.id) lsp.now)
            (λ number. IsStale (stored_under self.now lsp.now.id) lsp.now number lsp.now.sequence) }
    {
        match self.database.get(&lsp.id) {
            Some(stored) => {
                if stored.is_replaced_by(lsp) {
                    None
                } else {
                    Some(stored.sequence)
                }
            }
            None => None,
        }
    }

    /// Has at a name what other facts have there. An error leaves the facts as they were.
    pub(crate) fn take_over(&mut self, source: &Facts, name: &Touched) -> Result<(), AllocError>
        ensures ok { OnOk result (Follows name.now source.now self.old self.new) }
        ensures err { OnErr result (self.new ≡ self.old) }
    {
        match name {
            Touched::Lsp(id) => self.database.take_over(&source.database, id),
            Touched::Cost(key) => self.costs.take_over(&source.costs, key),
            Touched::Pair(pair) => self.downs.take_over(&source.downs, pair),
        }
    }

    /// Facts that agree in everything are the same.
    pub(crate) fn settle(&self, other: &Facts)
        requires tables { Agree [] other.now self.now }
        requires depth { self.now.depth ≡ other.now.depth }
        ensures { self.now ≡ other.now }
    {
        self.database.settle(&other.database);
        self.costs.settle(&other.costs);
        self.downs.settle(&other.downs);
    }

    /// Facts that are alike at every name say the same.
    pub(crate) fn settle_said(&self, other: &Facts)
        requires { (name : Name) → IsAlikeAt name self.now other.now }
        ensures { SayTheSame self.now other.now }
    {
        self.database.settle_said(&other.database);
        self.costs.settle(&other.costs);
        self.downs.settle(&other.downs);
    }
}
