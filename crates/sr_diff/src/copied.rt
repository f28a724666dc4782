//! Copies of items.
ghost use Rattle.std.specs.Prelude.{◌≡◌, IfOk};

use sr_model::{Answer, Item, RepairList, Segments};
use sr_seq::Seq;
use std::alloc::{AllocError, Global};

/// The same answer. Its segments stay where they stand.
fn same_answer<'a>(answer: &Answer<'a>) -> Answer<'a>
    ensures { result ≡ answer.now }
{
    match answer {
        Answer::Least(list) => Answer::Least(RepairList {
            first: list.first,
            segments: Segments::new(list.segments.list()),
            cost: list.cost,
        }),
        Answer::NoPath => Answer::NoPath,
        Answer::NoList => Answer::NoList,
        Answer::TooDeep { needed } => Answer::TooDeep { needed: *needed },
    }
}

/// A copy of the item.
pub(crate) fn copied_item<'a>(alloc: Global, item: &Item<'a>) -> Result<Item<'a>, AllocError>
    ensures { IfOk result (λ copy. copy ≡ item.now) }
{
    let labels = item.labels.as_slice().to_vec(alloc)?;
    Ok(Item {
        case: item.case,
        dest: item.dest,
        answer: same_answer(&item.answer),
        labels: Seq::new(labels),
    })
}
