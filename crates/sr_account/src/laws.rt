//! Laws of the account, with nothing to run.
ghost use Rattle.sr_account.specs.Laws.{FactsHaveOneAccount, IsInOrder, LinksHaveOneSource, NothingIsLost};

use sr_lsdb::Facts;

/// Whatever the facts have is used in their net, by name, and told nowhere; or it isn't used there, and exactly one line
/// tells it, with the first reason that holds.
pub fn nothing_is_lost()
    ensures { NothingIsLost }
{}

/// Facts have one account of what isn't used, and with their net one of what is announced of its links.
pub fn accounts_are_determined()
    ensures asides { FactsHaveOneAccount }
    ensures sources { LinksHaveOneSource }
{}

/// A database is in order of LSP ids, and has each once.
pub fn are_in_order(facts: &Facts)
    ensures { IsInOrder facts.now }
{
    // Nothing is done with the count: what `len` promises says that the entries are in order.
    let _ = facts.database.as_map().len();
}
