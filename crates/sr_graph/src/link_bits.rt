//! Sets of links as bits.
ghost use Rattle.std.specs.Prelude.{◌≡◌, ◌↔◌, ℕ, ◌<◌, ◌≤◌, ◌/◌, ◌⊎◌, true, [], length, vec_len, IfOk, OnOk};
ghost use Rattle.sr_graph.specs.Bits.{IsIn};

use sr_model::LinkNo;
use std::alloc::{AllocError, Global};
use std::marker::Model;

/// A set of links, a bit for each link number and 64 of them in a word. Contracts see it as its words; past their end no
/// link is in the set.
#[derive(Debug, Drop)]
pub(crate) struct LinkBits {
    words: Vec<u64>,
}

impl Model for LinkBits {
    ghost use Rattle.std.specs.Prelude.{List, ℕ};

    ghost Value = { List ℕ };

    ghost view = { λ a. a.words.items };
}

/// Clears all bits.
fn clear(words: &mut [u64])
    ensures { (l : ℕ) → IsIn words.new l → ⊥ }
{
    for place in 0..words.len() {
        words[place] = 0;
    }
}

/// Sets the bits that are set in the others.
fn unite(words: &mut [u64], others: &[u64])
    requires { length others.now ≤ length words.old }
    ensures { (l : ℕ) → IsIn words.new l ↔ (IsIn words.old l ⊎ IsIn others.now l) }
{
    for place in 0..others.len() {
        words[place] |= others[place];
    }
}

/// Appends cleared words where there are fewer.
fn widen(words: &mut Vec<u64>, count: usize) -> Result<(), AllocError>
    ensures long { OnOk result (count ≤ vec_len words.new) }
    ensures same { OnOk result ((l : ℕ) → IsIn words.new.items l ↔ IsIn words.old.items l) }
{
    if words.len() < count {
        words.resize(count, 0)?;
    }
    Ok(())
}

impl LinkBits {
    /// The same set.
    pub(crate) fn copied(&self, alloc: Global) -> Result<LinkBits, AllocError>
        ensures { IfOk result (λ set. set ≡ self.now) }
    {
        Ok(LinkBits {
            words: Vec::from_slice(alloc, &self.words)?,
        })
    }

    /// The empty set, with no room.
    pub(crate) fn empty(alloc: Global) -> LinkBits
        ensures { result ≡ [] }
    {
        LinkBits {
            words: Vec::new(alloc),
        }
    }

    /// The empty set, with room for links of lower numbers.
    pub(crate) fn with_room(alloc: Global, links: usize) -> Result<LinkBits, AllocError>
        ensures { IfOk result (λ set. (l : ℕ) → l < links → l / 64 < length set) }
    {
        let words = vec![in alloc; 0; links / 64 + 1]?;
        Ok(LinkBits { words })
    }

    /// Takes all links out; the room stays.
    pub(crate) fn clear(&mut self)
        ensures long { length self.new ≡ length self.old }
        ensures empty { (l : ℕ) → IsIn self.new l → ⊥ }
    {
        clear(&mut self.words);
    }

    /// Adds the link, for which there is room.
    pub(crate) fn add(&mut self, link: LinkNo)
        requires { link.0 / 64 < length self.old }
        ensures long { length self.new ≡ length self.old }
        ensures added { (l : ℕ) → IsIn self.new l ↔ (IsIn self.old l ⊎ (l ≡ link.0)) }
    {
        self.words[link.0 as usize / 64] |= 1 << (link.0 % 64);
    }

    /// Adds the links of the other set.
    pub(crate) fn add_all(&mut self, other: &LinkBits) -> Result<(), AllocError>
        ensures { OnOk result ((l : ℕ) → IsIn self.new l ↔ (IsIn self.old l ⊎ IsIn other.now l)) }
    {
        widen(&mut self.words, other.words.len())?;
        unite(&mut self.words, &other.words);
        Ok(())
    }

    /// Whether the link is in the set.
    pub(crate) fn has(&self, link: LinkNo) -> bool
        ensures { (result ≡ true) ↔ IsIn self.now link.0 }
    {
        let place = link.0 as usize / 64;
        place < self.words.len() && (self.words[place] >> (link.0 % 64)) & 1 == 1
    }
}
