//! The turns, which left_right may refuse: no clause of it says when, nor that what is shown is never shorter than before. So these
//! lines are trusted. Its documentation refuses a turn where the writer is gone, which isn't so here. As a body that always refused
//! would be proved too, each refused `grab` is counted, and the tests find none. A refused place (`opening.rt`) is a reader fewer.
ghost use Rattle.std.specs.Prelude.{◌≡◌, ◌+◌, true, false, IfOk};
ghost use Rattle.std.specs.Option.{ForSome};
ghost use Rattle.left_right.specs.Sides.{view};
ghost use Rattle.sr_store.specs.Counts.{counted};
ghost use Rattle.sr_store.specs.Places.{store_name};

use crate::place::View;
use crate::shown::{OneStore, Sees, Shown};
use left_right::reader::Reader as Place;
use sr_base::Numbered;
use std::alloc::AllocError;

/// One turn: a copy of what is shown, or out of memory, and `None` where left_right refuses the turn.
pub(crate) fn look<V: Numbered + Drop>(
    place: Place<Shown<V>, View, OneStore>,
) -> (
    Place<Shown<V>, View, OneStore>,
    Option<Result<Shown<V>, AllocError>>,
)
    requires { (view place.place).knows ≡ true }
    ensures store { ((view result.0.place).knows ≡ true) × ((view result.0.place).store ≡ (view place.place).store) }
    ensures shown { ForSome result.1 (λ r. IfOk r (λ s. store_name s.store ≡ (view place.place).store)) }
{
    match place.enter_as::<Sees>() {
        Ok(reading) => {
            let shown = reading.get().again();
            (reading.leave(), Some(shown))
        }
        Err(place) => (place, None),
    }
}

/// One turn: whether the list that is shown has the close mark, and `None` where left_right refuses the turn.
pub(crate) fn glance<V: Numbered + Drop>(
    place: Place<Shown<V>, View, OneStore>,
) -> (Place<Shown<V>, View, OneStore>, Option<bool>)
    requires { (view place.place).knows ≡ true }
    ensures store { ((view result.0.place).knows ≡ true) × ((view result.0.place).store ≡ (view place.place).store) }
    ensures mark { ForSome result.1 (λ closed. (view result.0.place).closed ≡ closed) }
{
    match place.enter_as::<Sees>() {
        Ok(reading) => {
            let closed = reading.get().front().closed();
            (reading.leave(), Some(closed))
        }
        Err(place) => (place, None),
    }
}

/// Counts a refused turn. It answers false, as the `grab` does.
pub(crate) fn refuse(refused: &mut u64) -> bool
    ensures { (refused.new ≡ counted (refused.old + 1)) × (result ≡ false) }
{
    *refused = refused.saturating_add(1);
    false
}
