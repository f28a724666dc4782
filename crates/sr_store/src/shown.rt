//! What readers take.
ghost use Rattle.std.specs.Prelude.{◌≡◌, IfOk};
ghost use Rattle.std.specs.Arc.{arc_value};
ghost use Rattle.sr_store.specs.Lists.{EndsWith};

use crate::history::Front;
use crate::place::View;
use atomic_table::{Join, Split};
use crossbeam_utils::rule::{Outcome, Protocol};
use left_right::Absorb;
use sr_base::Numbered;
use std::alloc::AllocError;
use std::marker::Model;
use std::sync::Arc;

/// A history and its last version. Contracts see it as the history.
#[derive(Drop)]
pub struct Shown<V: Numbered + Drop> {
    last: Arc<V>,
    front: Front<V>,
}

impl<V: Numbered + Drop> Model for Shown<V> {
    ghost use Rattle.std.specs.Arc.{arc_value};
    ghost use Rattle.sr_store.specs.Histories.{History};
    ghost use Rattle.sr_store.specs.Lists.{EndsWith};

    ghost Value = { History V };

    ghost view = { λ s. s.front };

    ghost invariant = { λ s. EndsWith s.front.versions (arc_value s.last) };
}

impl<V: Numbered + Drop> Shown<V> {
    pub fn new(last: Arc<V>, front: Front<V>) -> Shown<V>
        requires { EndsWith front.versions (arc_value last) }
        ensures { result ≡ front }
    {
        Shown { last, front }
    }

    /// The history.
    pub fn front(&self) -> Front<V>
        ensures { result ≡ self.now }
    {
        self.front.again()
    }

    /// The history and its last version.
    pub fn parts(self) -> (Front<V>, Arc<V>)
        ensures { (result.0 ≡ self) × EndsWith self.versions (arc_value result.1) }
    {
        let Shown { last, front } = self;
        (front, last)
    }

    /// A copy, or out of memory.
    pub fn again(&self) -> Result<Shown<V>, AllocError>
        ensures { IfOk result (λ s. s ≡ self.now) }
    {
        match Arc::try_clone(&self.last) {
            Ok(last) => Ok(Shown::new(last, self.front.again())),
            Err(refused) => Err(refused),
        }
    }

    /// Two copies, or out of memory.
    pub(crate) fn two_copies(&self) -> Result<(Shown<V>, Shown<V>), AllocError>
        ensures { IfOk result (λ t. (t.0 ≡ self.now) × (t.1 ≡ self.now)) }
    {
        let one = self.again()?;
        Ok((one, self.again()?))
    }
}

impl<V: Numbered + Drop> Absorb<Shown<V>> for Shown<V> {
    type State = Front<V>;

    ghost state = { λ s. s };

    ghost applied = { λ s operation. operation };

    fn absorb_first(&mut self, operation: &Shown<V>, _other: &Shown<V>) -> Result<(), AllocError> {
        match operation.again() {
            Ok(next) => {
                *self = next;
                Ok(())
            }
            Err(refused) => Err(refused),
        }
    }
}

/// Each place that knows its store is of the store that is shown.
pub struct OneStore;

impl<V: Numbered + Drop> Protocol<Shown<V>, View> for OneStore {
    ghost use Rattle.sr_store.specs.Places.{AllOf, newcomer};

    ghost holds = { λ x views. AllOf x.store views };

    ghost first = { newcomer };
}

/// A turn tells a place what is shown.
pub struct Sees;

impl<V: Numbered + Drop> Outcome<Shown<V>, View> for Sees {
    ghost use Rattle.sr_store.specs.Places.{Looks};

    ghost then = { λ v x y w. Looks v x y w };
}

/// A note knows as much as the place that it was cut from.
pub struct Twice;

impl Split<View> for Twice {
    ghost left = { λ v. v };

    ghost right = { λ v. v };
}

/// A new place knows what the note tells.
pub struct Informed;

impl Join<View> for Informed {
    ghost use Rattle.sr_store.specs.Places.{newcomer};

    ghost both = { λ v w. w };

    ghost spent = { newcomer };
}
