//! The history of a store: it exists in proofs alone, but for its length and whether it is closed.
ghost use Rattle.std.specs.Prelude.{◌≡◌, ◌+◌, ◌<◌, ◌^◌, ◌++◌, ◌∷◌, [], length, false, IfSome, MatchBool};
ghost use Rattle.sr_store.specs.Histories.{Begins, IsNext, NumbersRise, with_mark, with_version};
ghost use Rattle.sr_store.specs.Rules.{named_head};

use logbook::{Gain, Offer, Plain, Play, Rule, Seen, Start, Word};
use sr_base::Numbered;
use std::marker::Model;

/// What a history holds: its versions, and at its end perhaps the close mark. No value of these is made.
pub enum LogEntry<V> {
    Version(V),
    Mark,
}

/// The rule of the history.
pub struct Law;

impl<V> Rule<LogEntry<V>, u64> for Law {
    ghost use Rattle.std.specs.Prelude.{[]};
    ghost use base.Fml.{ftrue};
    ghost use Rattle.sr_store.specs.Rules.{IsKeptLog};

    ghost holds = { λ cells log. IsKeptLog cells log };

    ghost first = { [] };

    ghost hinted = { λ n log. Unit {0} };

    ghost shows = { λ log. [] };

    ghost keeps = { λ names log. ftrue };

    ghost moves = { λ ask before after answer. Unit {0} };
}

/// Callers trade nothing.
pub struct Nothing;

impl<V> Gain<LogEntry<V>, u64> for Nothing {
    ghost use base.Fml.{ftrue};

    ghost after = { λ names about answer. ftrue };
}

/// A step that adds an entry.
pub struct Add;

impl<V> Play<LogEntry<V>, u64> for Add {
    ghost use Rattle.sr_store.specs.Rules.{AddsEntry};

    ghost then = { AddsEntry };
}

impl<V> Plain<V, LogEntry<V>, u64> for Add {
    ghost use Rattle.std.specs.Prelude.{None};
    ghost use Rattle.sr_store.specs.declared.history.LogEntry.TheVariants.{Version};

    ghost ask = { λ version. Version version };

    ghost state = { λ version. None };
}

/// A step that adds the close mark.
pub struct Finish;

impl<V> Plain<(), LogEntry<V>, u64> for Finish {
    ghost use Rattle.std.specs.Prelude.{None};
    ghost use Rattle.sr_store.specs.declared.history.LogEntry.TheVariants.{Mark};

    ghost ask = { λ nothing. Mark };

    ghost state = { λ nothing. None };
}

/// A beginning of a store's history that was seen. Contracts see it as a `History`; it has no bytes but its length and whether
/// it is closed.
#[derive(Drop)]
pub struct Front<V: Numbered + Drop> {
    count: u64,
    closed: bool,
    seen: Seen<LogEntry<V>, u64, Law>,
}

impl<V: Numbered + Drop> Model for Front<V> {
    ghost use Rattle.sr_store.specs.Entries.{entry_versions};
    ghost use Rattle.sr_store.specs.Fronts.{IsFront};
    ghost use Rattle.sr_store.specs.Histories.{History};

    ghost Value = { History V };

    ghost view = { λ f. record { store = f.seen.book; versions = entry_versions f.seen.log; closed = f.closed } };

    ghost invariant = { λ f. IsFront V.number_of f.count f.seen.log f.closed };
}

impl<V: Numbered + Drop> Front<V> {
    /// A copy.
    pub fn again(&self) -> Front<V>
        ensures { result ≡ self.now }
    {
        Front {
            count: self.count,
            closed: self.closed,
            seen: self.seen.again(),
        }
    }

    /// Whether the history is ended by the close mark.
    pub fn closed(&self) -> bool
        ensures { result ≡ self.now.closed }
    {
        self.closed
    }

    /// The numbers of its versions go up by one from the first.
    pub fn is_numbered(&self)
        ensures { NumbersRise V.number_of self.now.versions }
    {
        let _count = self.count;
    }

    /// Whether this one is the shorter of two fronts of one store: the shorter begins the longer.
    pub fn begins(&self, other: &Front<V>) -> bool
        requires { other.now.store ≡ self.now.store }
        ensures { MatchBool result (Begins self.now other.now) (Begins other.now self.now) }
    {
        let mut both = self.seen.again();
        both.learn(&other.seen);
        self.count <= other.count
    }

    // This front with one more version, where it is the whole history.
    fn extended(&self, head: &Word<LogEntry<V>, u64, Law>, version: &V) -> Option<Front<V>>
        requires head { head.now ≡ named_head self.now.store }
        requires open { self.now.closed ≡ false }
        requires next { IsNext V.number_of self.now.versions version.now }
        ensures { IfSome result (λ front. front ≡ with_version self.now version.now) }
    {
        let _number = version.number();
        let offer = self.seen.plain::<Nothing, V, Add>(version);
        match longer(head, &self.seen, self.count, offer) {
            Some(seen) => Some(Front {
                count: self.count + 1,
                closed: false,
                seen,
            }),
            None => None,
        }
    }

    // This front ended by the close mark, where it is the whole history.
    fn ended(&self, head: &Word<LogEntry<V>, u64, Law>) -> Option<Front<V>>
        requires head { head.now ≡ named_head self.now.store }
        requires open { self.now.closed ≡ false }
        ensures { IfSome result (λ front. front ≡ with_mark self.now) }
    {
        let offer = self.seen.plain::<Nothing, (), Finish>(&());
        match longer(head, &self.seen, self.count, offer) {
            Some(seen) => Some(Front {
                count: self.count + 1,
                closed: true,
                seen,
            }),
            None => None,
        }
    }
}

/// The right to add to a history, which contracts see as the whole of that history.
#[derive(Drop)]
pub struct Author<V: Numbered + Drop> {
    head: Word<LogEntry<V>, u64, Law>,
    front: Front<V>,
}

impl<V: Numbered + Drop> Model for Author<V> {
    ghost use Rattle.std.specs.Prelude.{◌≡◌};
    ghost use Rattle.sr_store.specs.Histories.{History};
    ghost use Rattle.sr_store.specs.Rules.{named_head};

    ghost Value = { History V };

    ghost view = { λ a. a.front };

    ghost invariant = { λ a. a.head ≡ named_head a.front.store };
}

impl<V: Numbered + Drop> Author<V> {
    /// An empty history, of a store of its own.
    pub fn new() -> Author<V>
        ensures { (result.versions ≡ []) × (result.closed ≡ false) }
    {
        let (seen, mut first, _second) = Seen::open(Start::alone(), 0, 0);
        Author {
            head: Word::tracked(0, &mut first),
            front: Front {
                count: 0,
                closed: false,
                seen,
            },
        }
    }

    /// What was written.
    pub fn front(&self) -> Front<V>
        ensures { result ≡ self.now }
    {
        self.front.again()
    }

    /// Adds a version. It answers false, and adds nothing, where another had added an entry, which no clause rules out.
    pub fn add(&mut self, version: &V) -> bool
        requires open { self.old.closed ≡ false }
        requires next { IsNext V.number_of self.old.versions version.now }
        ensures { MatchBool result (self.new ≡ with_version self.old version.now) (self.new ≡ self.old) }
    {
        match self.front.extended(&self.head, version) {
            Some(front) => {
                self.front = front;
                true
            }
            None => false,
        }
    }

    /// Adds the close mark. It answers false, and adds nothing, where another had added an entry, which no clause rules out.
    pub fn mark(&mut self) -> bool
        requires { self.old.closed ≡ false }
        ensures { MatchBool result (self.new ≡ with_mark self.old) (self.new ≡ self.old) }
    {
        match self.front.ended(&self.head) {
            Some(front) => {
                self.front = front;
                true
            }
            None => false,
        }
    }
}

// All that was seen with the offered entry, where nothing was added since.
fn longer<V>(
    head: &Word<LogEntry<V>, u64, Law>,
    seen: &Seen<LogEntry<V>, u64, Law>,
    count: u64,
    offer: Offer<LogEntry<V>, u64, Law, Nothing>,
) -> Option<Seen<LogEntry<V>, u64, Law>>
    requires head { head.now ≡ named_head seen.now.book }
    requires offer { (offer.names ≡ seen.now.names) × (offer.state ≡ None) }
    requires count { (count ≡ length seen.now.log) × (count < 2 ^ 62) }
    ensures { IfSome result (λ s. (s.book ≡ seen.now.book) × (s.log ≡ seen.now.log ++ offer.ask ∷ [])) }
{
    let mut seen = seen.again();
    let mut offer = offer;
    let mut pen = seen.no_pen();
    let found = head.compare_exchange::<Add, Nothing>(
        count,
        count + 1,
        &mut seen,
        &mut offer,
        &mut pen,
    );
    if found == count { Some(seen) } else { None }
}
