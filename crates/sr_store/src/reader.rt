//! The readers of a store, and the notes that they learn.
ghost use Rattle.std.specs.Prelude.{◌≡◌, ◌≢◌, ◌+◌, true, false, Ok, IfOk, IfSome};
ghost use Rattle.std.specs.Arc.{arc_value};
ghost use Rattle.std.specs.Option.{ForSome, IsSomeAnd};
ghost use Rattle.left_right.specs.Sides.{view};
ghost use Rattle.sr_store.specs.Counts.{counted};
ghost use Rattle.sr_store.specs.Histories.{Begins, NumbersRise};
ghost use Rattle.sr_store.specs.Lists.{EndsWith};
ghost use Rattle.sr_store.specs.Places.{KnowsStore, knower};

use crate::edge;
use crate::history::Front;
use crate::place::View;
use crate::shown::{OneStore, Shown};
use left_right::reader::Reader as Place;
use sr_base::Numbered;
use std::alloc::AllocError;
use std::sync::Arc;

/// What a writer told: its list at that time. It takes no memory.
#[derive(Drop)]
pub struct Told<V: Numbered + Drop> {
    pub list: Front<V>,
}

/// A reader of a store: the list that it saw last, the longest list that it was told, and the last version of the former.
#[derive(Drop)]
pub struct Reader<V: Numbered + Drop> {
    place: Option<Place<Shown<V>, View, OneStore>>,
    pub list: Front<V>,
    pub told: Front<V>,
    last: Arc<V>,
    seat: u32,
    turns: u64,
    refused: u64,
    ghost knows: { ForSome place (λ p. KnowsStore (view p.place) list.store) },
    ghost one_store: { told.store ≡ list.store },
    ghost last_is: { EndsWith list.versions (arc_value last) },
}

impl<V: Numbered + Drop> Reader<V> {
    pub(crate) fn new(
        place: Place<Shown<V>, View, OneStore>,
        seat: u32,
        list: Front<V>,
        last: Arc<V>,
    ) -> Reader<V>
        requires place { view place.place ≡ knower list }
        requires last { EndsWith list.versions (arc_value last) }
        ensures lists { (result.list ≡ list) × (result.told ≡ list) }
        ensures seat { result.seat ≡ seat }
        ensures counts { (result.turns ≡ 0) × (result.refused ≡ 0) }
    {
        Reader {
            place: Some(place),
            told: list.again(),
            list,
            last,
            seat,
            turns: 0,
            refused: 0,
        }
    }

    /// How often this reader has grabbed.
    pub fn turns(&self) -> u64
        ensures { result ≡ self.now.turns }
    {
        self.turns
    }

    /// How often a grab of this reader was refused.
    pub fn refused(&self) -> u64
        ensures { result ≡ self.now.refused }
    {
        self.refused
    }

    /// The last version of the list, whose numbers go up by one.
    pub fn last(&self) -> &V
        ensures last { EndsWith self.now.list.versions result.now }
        ensures numbers { NumbersRise V.number_of self.now.list.versions }
    {
        self.list.is_numbered();
        &self.last
    }

    /// Keeps the told list beside its own.
    pub fn learn(&mut self, told: Told<V>)
        requires { told.list.store ≡ self.old.list.store }
        ensures told { Begins told.list self.new.told × Begins self.old.told self.new.told }
        ensures list { self.new.list ≡ self.old.list }
        ensures seat { self.new.seat ≡ self.old.seat }
        ensures counts { (self.new.turns ≡ self.old.turns) × (self.new.refused ≡ self.old.refused) }
    {
        let Told { list } = told;
        self.told = longest(&self.told, list);
    }

    /// Takes the list that is shown. After true the reader's list begins with all that it has seen or was told. After false,
    /// where left_right refused the turn or showed less than before, and after an error, which is out of memory, its list is as before. It waits for nobody.
    pub fn grab(&mut self) -> Result<bool, AllocError>
        ensures seen { result ≡ Ok true → Begins self.old.list self.new.list × Begins self.old.told self.new.list }
        ensures unseen { result ≢ Ok true → self.new.list ≡ self.old.list }
        ensures kept { (self.new.list.store ≡ self.old.list.store) × (self.new.seat ≡ self.old.seat)
            × (self.new.told ≡ self.old.told) }
        ensures turns { self.new.turns ≡ counted (self.old.turns + 1) }
        ensures refused { (result ≡ Ok false → self.new.refused ≡ counted (self.old.refused + 1))
            × (result ≢ Ok false → self.new.refused ≡ self.old.refused) }
    {
        self.turns = self.turns.saturating_add(1);
        match self.look() {
            Some(Ok(shown)) => {
                let (front, last) = shown.parts();
                if self.list.begins(&front) && self.told.begins(&front) {
                    self.list = front;
                    self.last = last;
                    Ok(true)
                } else {
                    Ok(edge::refuse(&mut self.refused))
                }
            }
            Some(Err(refused)) => Err(refused),
            None => Ok(edge::refuse(&mut self.refused)),
        }
    }

    /// The reader's last turn. Where it answers true, the turn saw this list with its mark, and the reader's list begins it. It
    /// takes no memory.
    pub(crate) fn last_turn(&mut self, list: &Front<V>) -> bool
        requires { self.old.list.store ≡ list.now.store }
        ensures list { result ≡ true → Begins self.old.list list.now }
        ensures mark { result ≡ true → IsSomeAnd self.new.place (λ p. (view p.place).closed ≡ true) }
        ensures seat { (self.old.list.store ≡ self.new.list.store) × (self.old.seat ≡ self.new.seat) }
    {
        match self.glance() {
            Some(shown) => shown && self.list.begins(list),
            None => false,
        }
    }

    // Whether the list that is shown has the close mark, where left_right gives a turn.
    fn glance(&mut self) -> Option<bool>
        ensures mark { IfSome result (λ closed. IsSomeAnd self.new.place (λ p. (view p.place).closed ≡ closed)) }
        ensures list { (self.new.list ≡ self.old.list) × (self.new.seat ≡ self.old.seat) }
    {
        let Some(place) = self.place.take() else {
            return None;
        };
        let (place, closed) = edge::glance(place);
        self.place = Some(place);
        closed
    }

    // What is shown now, where left_right gives a turn.
    fn look(&mut self) -> Option<Result<Shown<V>, AllocError>>
        ensures shown { ForSome result (λ r. IfOk r (λ s. s.store ≡ self.old.list.store)) }
        ensures lists { (self.new.list ≡ self.old.list) × (self.new.told ≡ self.old.told)
            × (self.new.last ≡ self.old.last) }
        ensures rest { (self.new.seat ≡ self.old.seat) × (self.new.turns ≡ self.old.turns)
            × (self.new.refused ≡ self.old.refused) }
    {
        let Some(place) = self.place.take() else {
            return None;
        };
        let (place, shown) = edge::look(place);
        self.place = Some(place);
        shown
    }
}

// The longer of two fronts of one store, which both begin.
fn longest<V: Numbered + Drop>(one: &Front<V>, other: Front<V>) -> Front<V>
    requires { other.store ≡ one.now.store }
    ensures { Begins one.now result × Begins other result }
{
    if one.begins(&other) {
        other
    } else {
        one.again()
    }
}
