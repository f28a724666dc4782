//! What an audit reports.
ghost use Rattle.std.specs.Prelude.{◌≡◌, ◌<◌, ◌^◌, length};
ghost use Rattle.sr_model.specs.Audit.{counts_of};

use crate::counting::no_counts;
use sr_model::{Answer, Counts, Item};
use std::marker::Model;

/// The answers of all cases of a version with their labels: cases by kind (link, node, risk) and then by protected link,
/// in a case the affected destinations ascending. Contracts see the version's number and the list.
#[derive(Debug, Drop)]
pub struct Report<'a> {
    version: u32,
    items: Vec<Item<'a>>,
}

impl<'a> Model for Report<'a> {
    ghost use Rattle.sr_audit.specs.Audited.{Audited};

    ghost Value = { Audited };

    ghost view = { λ a. record { version = a.version; items = a.items.items } };
}

impl<'a> Report<'a> {
    /// The report of these items.
    pub(crate) fn new(version: u32, items: Vec<Item<'a>>) -> Report<'a>
        ensures { result ≡ record { version = version; items = items.entry.items } }
    {
        Report { version, items }
    }

    /// The number of the version.
    pub fn version(&self) -> u32
        ensures { result ≡ self.now.version }
    {
        self.version
    }

    /// The items, in order.
    pub fn items(&self) -> &[Item<'a>]
        ensures { result.now ≡ self.now.items }
    {
        &self.items
    }

    /// How many answers are lists, no path, no list and too deep. There are fewer than 2^32 items: every report that
    /// `audit` gives meets that.
    pub fn counts(&self) -> Counts
        requires { length self.now.items < 2 ^ 32 }
        ensures { result ≡ counts_of self.now.items }
    {
        let mut counts = no_counts();
        for item in &self.items {
            match item.answer {
                Answer::Least(_) => counts.covered += 1,
                Answer::NoPath => counts.nopath += 1,
                Answer::NoList => counts.nolist += 1,
                Answer::TooDeep { .. } => counts.toodeep += 1,
            }
        }
        counts
    }
}
