//! The tables of the facts, which contracts see as lists in order.
ghost use Rattle.std.specs.Prelude.{◌≡◌, [], false, true, if◌then◌else◌, Some, All, OnOk, OnErr};
ghost use Rattle.std.specs.Option.{option_copied};
ghost use Rattle.std.specs.BTreeMap.{insert_entry, is_at};
ghost use Rattle.std.specs.BTreeSet.{insert_key};
ghost use Rattle.std.specs.Set.{remove_key};
ghost use Rattle.sr_model.specs.declared.name.LinkKey.{LinkKey as Key};
ghost use Rattle.sr_model.specs.declared.name.PairKey.{PairKey as Pair};
ghost use Rattle.sr_model.specs.KeyOrder.{key_cmp};
ghost use Rattle.sr_lsp.specs.declared.lsp.LspId.{LspId as Id};
ghost use Rattle.sr_lsdb.specs.Alike.{said_at};
ghost use Rattle.sr_lsdb.specs.Facts.{StandsUnderItsId};
ghost use Rattle.sr_lsdb.specs.Order.{id_cmp, pair_cmp};
ghost use Rattle.sr_lsdb.specs.Renewed.{all_said};
ghost use Rattle.sr_lsdb.specs.Tables.{TakesOver, is_down, metric_at, stored_at};

use crate::facts::Stored;
use sr_lsp::LspId;
use sr_model::{LinkKey, PairKey};
use std::alloc::{AllocError, Global};
use std::collections::{BTreeMap, BTreeSet};
use std::marker::Model;

/// The link-state database: what is stored under each LSP id, in order of id.
#[derive(Debug, Drop)]
pub struct Database {
    entries: BTreeMap<LspId, Stored>,
}

impl Model for Database {
    ghost use Rattle.std.specs.Prelude.{List};
    ghost use Rattle.sr_lsp.specs.declared.lsp.LspId.{LspId as Id};
    ghost use Rattle.sr_lsdb.specs.declared.facts.Stored.{Stored as Held};

    ghost Value = { List (Id × Held) };

    ghost use Rattle.std.specs.Prelude.{All};
    ghost use Rattle.sr_lsdb.specs.Facts.{StandsUnderItsId};

    ghost view = { λ d. d.entries.entries };

    ghost invariant = { λ d. All StandsUnderItsId d.entries.entries };
}

impl Database {
    /// A database that has nothing.
    pub fn new(alloc: Global) -> Database
        ensures { result ≡ [] }
    {
        Database {
            entries: BTreeMap::new(alloc),
        }
    }

    /// What is stored, by id. Each live PDU stands under its own id.
    pub fn as_map(&self) -> &BTreeMap<LspId, Stored>
        ensures entries { result.now.entries ≡ self.now }
        ensures ids { All StandsUnderItsId self.now }
    {
        &self.entries
    }

    /// What is stored under an id.
    pub fn get(&self, id: &LspId) -> Option<&Stored>
        ensures { option_copied result ≡ stored_at self.now id.now }
    {
        self.entries.get(id)
    }

    /// Stores under an id, in the place of what stood there. An error leaves the database as it was.
    pub(crate) fn insert(&mut self, id: LspId, stored: Stored) -> Result<(), AllocError>
        requires { StandsUnderItsId (id, stored) }
        ensures entries { OnOk result (self.new ≡ insert_entry id_cmp self.old id stored) }
        ensures values { OnOk result ((other : Id) →
            stored_at self.new other ≡ if is_at (id_cmp id) other then Some stored else stored_at self.old other) }
        ensures err { OnErr result (self.new ≡ self.old) }
    {
        self.entries.insert(id, stored)?;
        Ok(())
    }

    /// Has under an id what another database has there. An error leaves the database as it was.
    pub(crate) fn take_over(&mut self, source: &Database, id: &LspId) -> Result<(), AllocError>
        ensures ok { OnOk result
            (TakesOver (is_at (id_cmp id.now)) (stored_at source.now) (stored_at self.old) (stored_at self.new)) }
        ensures err { OnErr result (self.new ≡ self.old) }
    {
        match source.as_map().get(id) {
            Some(stored) => {
                let shared = stored.again()?;
                self.insert(*id, shared)
            }
            None => {
                self.entries.remove(id);
                Ok(())
            }
        }
    }

    /// Databases that have the same under every id are the same.
    pub(crate) fn settle(&self, other: &Database)
        requires { (id : Id) → stored_at other.now id ≡ stored_at self.now id }
        ensures { self.now ≡ other.now }
    {
        // Nothing is done with the counts: what `len` promises says that both are in order, and so the same.
        let _ = self.entries.len();
        let _ = other.entries.len();
    }

    /// Databases of which the same is said under every id say the same.
    pub(crate) fn settle_said(&self, other: &Database)
        requires { (id : Id) → said_at self.now id ≡ said_at other.now id }
        ensures { all_said self.now ≡ all_said other.now }
    {
        // Nothing is done with the counts: what `len` promises says that both are in order.
        let _ = self.entries.len();
        let _ = other.entries.len();
    }
}

/// The metrics that are set for links, in order of key.
#[derive(Debug, Drop)]
pub struct LinkCosts {
    metrics: BTreeMap<LinkKey, u32>,
}

impl Model for LinkCosts {
    ghost use Rattle.std.specs.Prelude.{List, ℕ};
    ghost use Rattle.sr_model.specs.declared.name.LinkKey.{LinkKey as Key};

    ghost Value = { List (Key × ℕ) };

    ghost view = { λ c. c.metrics.entries };
}

impl LinkCosts {
    /// No metric is set.
    pub fn new(alloc: Global) -> LinkCosts
        ensures { result ≡ [] }
    {
        LinkCosts {
            metrics: BTreeMap::new(alloc),
        }
    }

    /// The metrics, by key.
    pub fn as_map(&self) -> &BTreeMap<LinkKey, u32>
        ensures { result.now.entries ≡ self.now }
    {
        &self.metrics
    }

    /// The metric that is set for a link.
    pub fn get(&self, key: &LinkKey) -> Option<u32>
        ensures { result ≡ metric_at self.now key.now }
    {
        self.metrics.get(key).copied()
    }

    /// Sets a metric, in the place of an earlier one. An error leaves the metrics as they were.
    pub(crate) fn insert(&mut self, key: LinkKey, metric: u32) -> Result<(), AllocError>
        ensures entries { OnOk result (self.new ≡ insert_entry key_cmp self.old key metric) }
        ensures values { OnOk result ((other : Key) →
            metric_at self.new other ≡ if is_at (key_cmp key) other then Some metric else metric_at self.old other) }
        ensures err { OnErr result (self.new ≡ self.old) }
    {
        self.metrics.insert(key, metric)?;
        Ok(())
    }

    /// Has for a link the metric that other costs have for it, or none. An error leaves these as they were.
    pub(crate) fn take_over(&mut self, source: &LinkCosts, key: &LinkKey) -> Result<(), AllocError>
        ensures ok { OnOk result
            (TakesOver (is_at (key_cmp key.now)) (metric_at source.now) (metric_at self.old) (metric_at self.new)) }
        ensures err { OnErr result (self.new ≡ self.old) }
    {
        match source.get(key) {
            Some(metric) => self.insert(*key, metric),
            None => {
                self.metrics.remove(key);
                Ok(())
            }
        }
    }

    /// Costs that have the same metric for every link are the same.
    pub(crate) fn settle(&self, other: &LinkCosts)
        requires { (key : Key) → metric_at other.now key ≡ metric_at self.now key }
        ensures { self.now ≡ other.now }
    {
        // Nothing is done with the counts: what `len` promises says that both are in order, and so the same.
        let _ = self.metrics.len();
        let _ = other.metrics.len();
    }
}

/// The bidirectional links that are down, in order.
#[derive(Debug, Drop)]
pub struct DownPairs {
    pairs: BTreeSet<PairKey>,
}

impl Model for DownPairs {
    ghost use Rattle.std.specs.Prelude.{List};
    ghost use Rattle.sr_model.specs.declared.name.PairKey.{PairKey as Pair};

    ghost Value = { List Pair };

    ghost view = { λ d. d.pairs.keys };
}

impl DownPairs {
    /// No pair is down.
    pub fn new(alloc: Global) -> DownPairs
        ensures { result ≡ [] }
    {
        DownPairs {
            pairs: BTreeSet::new(alloc),
        }
    }

    /// The pairs, as a set.
    pub fn as_set(&self) -> &BTreeSet<PairKey>
        ensures { result.now.keys ≡ self.now }
    {
        &self.pairs
    }

    /// Whether a pair is down.
    pub fn contains(&self, pair: &PairKey) -> bool
        ensures { result ≡ is_down self.now pair.now }
    {
        self.pairs.contains(pair)
    }

    /// A pair goes down. An error leaves the pairs as they were.
    pub(crate) fn insert(&mut self, pair: PairKey) -> Result<(), AllocError>
        ensures keys { OnOk result (self.new ≡ insert_key pair_cmp self.old pair) }
        ensures members { OnOk result ((other : Pair) →
            is_down self.new other ≡ if is_at (pair_cmp pair) other then true else is_down self.old other) }
        ensures err { OnErr result (self.new ≡ self.old) }
    {
        self.pairs.insert(pair)?;
        Ok(())
    }

    /// A pair comes up.
    pub(crate) fn remove(&mut self, pair: &PairKey)
        ensures keys { self.new ≡ remove_key (is_at (pair_cmp pair.now)) self.old }
        ensures members { (other : Pair) →
            is_down self.new other ≡ if is_at (pair_cmp pair.now) other then false else is_down self.old other }
    {
        self.pairs.remove(pair);
    }

    /// Has a pair exactly where other pairs have it. An error leaves the pairs as they were.
    pub(crate) fn take_over(&mut self, source: &DownPairs, pair: &PairKey) -> Result<(), AllocError>
        ensures ok { OnOk result
            (TakesOver (is_at (pair_cmp pair.now)) (is_down source.now) (is_down self.old) (is_down self.new)) }
        ensures err { OnErr result (self.new ≡ self.old) }
    {
        if source.contains(pair) {
            self.insert(*pair)
        } else {
            self.remove(pair);
            Ok(())
        }
    }

    /// Sets that have the same pairs are the same.
    pub(crate) fn settle(&self, other: &DownPairs)
        requires { (pair : Pair) → is_down other.now pair ≡ is_down self.now pair }
        ensures { self.now ≡ other.now }
    {
        // Nothing is done with the counts: what `len` promises says that both are in order, and so the same.
        let _ = self.pairs.len();
        let _ = other.pairs.len();
    }
}
