//! Names of what two copies of the facts may differ in.

use sr_lsp::LspId;
use sr_model::{LinkKey, PairKey};

/// What an edit wrote: what is stored under an id, the metric of a link, or whether a pair is down.
#[derive(Clone, Copy, Debug)]
pub(crate) enum Touched {
    Lsp(LspId),
    Cost(LinkKey),
    Pair(PairKey),
}
