//! The writer's side of left_right, which shows a history to readers.
ghost use Rattle.std.specs.Prelude.{◌≡◌, ◌<◌, [], drop, IfOk, MatchResult};
ghost use Rattle.left_right.specs.Sides.{view};
ghost use Rattle.sr_store.specs.Places.{knower};

use crate::place::View;
use crate::shown::{OneStore, Sees, Shown};
use left_right::writer::Writer as Side;
use sr_base::Numbered;
use std::alloc::{AllocError, Global};
use std::sync::Wait;

/// A side that shows this history and knows its store, with nothing to show next. It has that many places.
pub(crate) fn new_side<V: Numbered + Drop, R: Wait>(
    rt: &R,
    alloc: Global,
    list: &Shown<V>,
    places: u32,
) -> Result<Side<Shown<V>, Shown<V>, View, OneStore>, AllocError>
    requires { 0 < places }
    ensures shown { IfOk result (λ s. s.desk.shown.value ≡ list.now) }
    ensures place { IfOk result (λ s. view s.desk.place ≡ knower list.now) }
    ensures idle { IfOk result (λ s. drop s.behind s.log.items ≡ []) }
{
    let (one, two) = list.two_copies()?;
    let side = Side::new(alloc, one, two, places as usize)?;
    let (side, done) = show_next(rt, side, list);
    match done {
        Ok(()) => Ok(side),
        Err(refused) => {
            drop(side.take(rt));
            Err(refused)
        }
    }
}

/// Shows this history of the same store, which the side then knows. After an error all is as before, but that the history
/// may wait to be shown.
pub(crate) fn show_next<V: Numbered + Drop, R: Wait>(
    rt: &R,
    side: Side<Shown<V>, Shown<V>, View, OneStore>,
    next: &Shown<V>,
) -> (
    Side<Shown<V>, Shown<V>, View, OneStore>,
    Result<(), AllocError>,
)
    requires idle { drop side.behind side.log.items ≡ [] }
    requires store { next.now.store ≡ side.desk.shown.value.store }
    ensures shown { MatchResult result.1 (λ _. result.0.desk.shown.value ≡ next.now)
        (λ _. result.0.desk.shown.value ≡ side.desk.shown.value) }
    ensures place { MatchResult result.1 (λ _. view result.0.desk.place ≡ knower next.now)
        (λ _. view result.0.desk.place ≡ view side.desk.place) }
    ensures idle { IfOk result.1 (λ _. drop result.0.behind result.0.log.items ≡ []) }
{
    let mut side = side;
    match next.again() {
        Ok(next) => match side.append(next) {
            Ok(()) => side.publish_as::<Sees, R>(rt),
            Err(_) => (side, Err(AllocError)),
        },
        Err(refused) => (side, Err(refused)),
    }
}
