//! Laws of the definitions, which no value stands behind: what is chosen is the least, facts determine their net or the
//! first rule that they break, and facts that say the same have the same net.
ghost use Rattle.std.specs.Prelude.{◌≡◌, ℕ, List, [], MatchOption};
ghost use Rattle.sr_subtlv.specs.declared.adj_sid.AdjSid.{AdjSid};
ghost use Rattle.sr_lsdb.specs.declared.facts.Facts.{Facts};
ghost use Rattle.sr_lsdb.specs.Announcement.{adj_label};
ghost use Rattle.sr_domain.specs.Nodes.{node_sid_of};
ghost use Rattle.sr_domain.specs.Least.{candidates, IsFirstLeastSid, IsAdjLabel};
ghost use Rattle.sr_domain.specs.Determined.{FactsHaveOneNet, FactsHaveOneFault, BrokenFactsHaveNoNet};
ghost use Rattle.sr_domain.specs.Renewed.{SameSaidHasSameNet};

/// A node has no index exactly where its own live LSPs give it none. Else it has the least, and of equal ones the first
/// by LSP id and place.
pub fn node_sids_are_the_first_least()
    ensures { (facts : Facts) (node : ℕ) →
        MatchOption (node_sid_of facts node) (candidates facts node ≡ []) (IsFirstLeastSid (candidates facts node)) }
{}

/// An adjacency has the least label without the flag B, where there is none the least with it, and none where there is
/// neither.
pub fn adjacency_labels_are_the_least()
    ensures { (sids : List AdjSid) → IsAdjLabel sids (adj_label sids) }
{}

/// Facts have at most one net and at most one first broken rule, and never both.
pub fn nets_are_determined()
    ensures nets { FactsHaveOneNet }
    ensures faults { FactsHaveOneFault }
    ensures apart { BrokenFactsHaveNoNet }
{}

/// Facts that say the same have the same net, but for the depth: no sequence number, lifetime or checksum of a PDU
/// counts, so facts in which PDUs are only flooded anew need no new net.
pub fn same_facts_have_the_same_net()
    ensures { SameSaidHasSameNet }
{}
