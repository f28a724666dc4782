//! Values in order, of which there is mostly one.

ghost use Rattle.std.specs.Prelude.{◌≡◌, ◌++◌, ◌∷◌, [], IfOk, OnErr, OnOk};
ghost use Rattle.std.specs.Mem.{FitsInMemory};

use std::alloc::{AllocError, Global};
use std::marker::Model;

/// Values in order. One alone stands in the list itself and takes no other memory.
#[derive(Debug, Drop)]
pub struct Few<T> {
    one: Option<T>,
    many: Vec<T>,
}

impl<T> Model for Few<T> {
    ghost use Rattle.std.specs.Prelude.{List, MatchOption, ◌≡◌, []};
    ghost use Rattle.sr_seq.specs.Few.{one_or};

    ghost Value = { List T };

    ghost view = { λ f. one_or f.one f.many.items };

    ghost invariant = { λ f. MatchOption f.one (Unit {0}) (λ _. f.many.items ≡ []) };
}

impl<T: Drop> Few<T> {
    /// No values.
    pub fn empty(alloc: Global) -> Few<T>
        ensures { result ≡ [] }
    {
        Few {
            one: None,
            many: Vec::new(alloc),
        }
    }

    /// The values of a vector.
    pub fn new(values: Vec<T>) -> Few<T>
        ensures { result ≡ values.items }
    {
        Few {
            one: None,
            many: values,
        }
    }

    /// No values, with room for `count` of them. Room for one value takes no memory.
    pub fn with_room(alloc: Global, count: usize) -> Result<Few<T>, AllocError>
        ensures { IfOk result (λ few. few ≡ []) }
    {
        if count < 2 {
            return Ok(Few::empty(alloc));
        }
        Ok(Few {
            one: None,
            many: Vec::with_capacity(alloc, count)?,
        })
    }

    /// The values as a slice.
    pub fn as_slice(&self) -> &[T]
        requires { FitsInMemory T.row }
        ensures { result.now ≡ self.now }
    {
        match &self.one {
            Some(value) => std::slice::from_ref(value),
            None => &self.many,
        }
    }

    /// Appends a value; an error leaves the values as they were.
    pub fn push(&mut self, value: T) -> Result<(), AllocError>
        ensures ok { OnOk result (self.new ≡ self.old ++ value ∷ []) }
        ensures err { OnErr result (self.new ≡ self.old) }
    {
        if self.one.is_none() && self.many.capacity() == 0 {
            self.one = Some(value);
            return Ok(());
        }
        match self.one.take() {
            None => {}
            Some(first) => match self.many.push(first) {
                Ok(()) => {}
                Err(failed) => {
                    self.one = Some(failed.value);
                    return Err(AllocError);
                }
            },
        }
        match self.many.push(value) {
            Ok(()) => Ok(()),
            Err(_) => Err(AllocError),
        }
    }
}
