//! Lists whose items other lists may hold too.
ghost use Rattle.std.specs.Prelude.{◌≡◌, ◌<◌, ◌≤◌, ◌++◌, ◌∷◌, [], length, slice_index_or, IfOk, OnOk};
ghost use Rattle.std.specs.Arc.{arc_value};
ghost use Rattle.sr_spf.specs.Renewed.{AreRenewed, SharesNext};

use std::alloc::{AllocError, Global};
use std::marker::Model;
use std::sync::Arc;

/// Items in order, each of which other lists may hold too. Contracts see them as a list.
#[derive(Debug, Drop)]
pub(crate) struct Shared<T: Drop> {
    items: Vec<Arc<T>>,
}

impl<T: Drop> Model for Shared<T> {
    ghost use Rattle.std.specs.Prelude.{List, map};
    ghost use Rattle.std.specs.Arc.{arc_value};

    ghost Value = { List T };

    ghost view = { λ s. map arc_value s.items.items };
}

impl<T: Drop> Shared<T> {
    /// No items, with room for `count` of them.
    fn with_room(alloc: Global, count: usize) -> Result<Shared<T>, AllocError>
        ensures { IfOk result (λ s. s ≡ []) }
    {
        Ok(Shared {
            items: Vec::with_capacity(alloc, count)?,
        })
    }

    /// How many items there are.
    pub(crate) fn len(&self) -> usize
        ensures { result ≡ length self.now }
    {
        self.items.len()
    }

    /// The item at this place.
    pub(crate) fn get(&self, place: usize) -> &T
        requires { place < length self.now }
        ensures { (default : T) → result.now ≡ slice_index_or self.now place default }
    {
        &self.items[place]
    }

    /// The item at this place, which is held once more then.
    pub(crate) fn held(&self, place: usize) -> Result<Arc<T>, AllocError>
        requires { place < length self.now }
        ensures { (default : T) → IfOk result (λ item. arc_value item ≡ slice_index_or self.now place default) }
    {
        Arc::try_clone(&self.items[place])
    }

    /// Appends an item that no other list holds.
    fn push(&mut self, alloc: Global, item: T) -> Result<(), AllocError>
        ensures { OnOk result (self.new ≡ self.old ++ item ∷ []) }
    {
        self.items.push(Arc::new(alloc, item)?)?;
        Ok(())
    }

    /// Appends the item that the other list has at the next place: both hold it then.
    fn share(&mut self, other: &Shared<T>) -> Result<(), AllocError>
        requires { length self.old < length other.now }
        ensures { OnOk result (SharesNext other.now self.old self.new) }
    {
        let item = Arc::try_clone(&other.items[self.items.len()])?;
        self.items.push(item)?;
        Ok(())
    }

    /// These items, which no other list holds.
    pub(crate) fn of(alloc: Global, items: Vec<T>) -> Result<Shared<T>, AllocError>
        ensures { IfOk result (λ s. s ≡ items.items) }
    {
        let mut shared = Shared::with_room(alloc, items.len())?;
        for item in items {
            shared.push(alloc, item)?;
        }
        Ok(shared)
    }

    /// At each place what was found, else the old item, which is shared then.
    pub(crate) fn renewed(
        alloc: Global,
        old: &Shared<T>,
        found: Vec<Option<T>>,
    ) -> Result<Shared<T>, AllocError>
        requires { length found.items ≤ length old.now }
        ensures { IfOk result (λ s. AreRenewed old.now found.items s) }
    {
        let mut shared = Shared::with_room(alloc, found.len())?;
        for one in found {
            match one {
                Some(item) => shared.push(alloc, item)?,
                None => shared.share(old)?,
            }
        }
        Ok(shared)
    }
}
