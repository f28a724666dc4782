//! A list that stands on its own.
ghost use Rattle.std.specs.Prelude.{◌≡◌, true, IfOk};
ghost use Rattle.sr_model.specs.declared.repair.Answer.TheVariants.{Least};
ghost use Rattle.sr_model.specs.Audit.{is_least};

use sr_model::{Answer, LinkNo, Segment};
use sr_seq::Seq;
use std::alloc::{AllocError, Global};

/// The link on which a packet would leave, the segments from the end of that link on, and the cost of the whole way.
#[derive(Debug, Drop)]
pub struct WholeList {
    pub first: LinkNo,
    pub segments: Seq<Segment>,
    pub cost: u32,
}

/// The list that the answer is, taken out of the answers among which it stands.
pub(crate) fn whole_list(alloc: Global, answer: Answer<'_>) -> Result<WholeList, AllocError>
    requires { is_least answer ≡ true }
    ensures { IfOk result (λ list. answer.entry
        ≡ Least (record { first = list.first; segments = list.segments; cost = list.cost })) }
{
    match answer {
        Answer::Least(list) => Ok(WholeList {
            first: list.first,
            segments: Seq::new(Vec::from_slice(alloc, list.segments.list())?),
            cost: list.cost,
        }),
        Answer::NoPath | Answer::NoList | Answer::TooDeep { .. } => unreachable!(),
    }
}
