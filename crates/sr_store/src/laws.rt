//! The law of a store's history, proved over plain data alone. Its statement stands in `specs/`.
//!
//! The calls of this crate are its events. `publish` is one `Publish`, `close` is one `Close`, and `learn` is one `Learn`, of a
//! list that `tell` gave. A `grab` that answers true is one `Grab`.
ghost use Rattle.sr_store.specs.Events.{HistoriesGrow};

use sr_base::Numbered;

/// Whatever was published, grabbed, learnt and closed, each list of a reader and each list that it was told is a prefix of the
/// writer's. A reader's list only grows, a grab gives a list that begins with all that the reader was told, and a list with the
/// close mark is the writer's.
pub fn histories_grow<V: Numbered>()
    ensures { HistoriesGrow V.number_of }
{}
