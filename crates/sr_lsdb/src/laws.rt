//! Laws of the edits, and of the orders of the tables.
ghost use Rattle.sr_lsdb.specs.declared.facts.Facts.{Facts};
ghost use Rattle.sr_lsdb.specs.Edit.{Edit, IsEditInRange, apply};
ghost use Rattle.sr_lsdb.specs.Facts.{AreInRange};
ghost use Rattle.sr_lsdb.specs.Order.{IdsAreOrdered, IdsAreTold, PairsAreOrdered, PairsAreTold};

/// An edit in range keeps the facts in range.
pub fn edits_keep_the_range()
    ensures { (edit : Edit) (facts : Facts) → IsEditInRange edit → AreInRange facts →
        AreInRange (apply edit facts) }
{}

/// The order of LSP ids that the database is kept in is by system, pseudonode and fragment, and only ids that are the
/// same are equal in it.
pub fn ids_are_ordered()
    ensures order { IdsAreOrdered }
    ensures told { IdsAreTold }
{}

/// The order of pairs that those that are down are kept in is by the lower end, the higher end and the identity, and only
/// pairs that are the same are equal in it.
pub fn pairs_are_ordered()
    ensures order { PairsAreOrdered }
    ensures told { PairsAreTold }
{}
