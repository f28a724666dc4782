//! The one writer of a store.
ghost use Rattle.std.specs.Prelude.{◌≡◌, [], drop, true, false, MatchResult};
ghost use Rattle.std.specs.Arc.{arc_value};
ghost use Rattle.left_right.specs.Sides.{view};
ghost use Rattle.sr_store.specs.Counts.{spread};
ghost use Rattle.sr_store.specs.Histories.{IsNext, with_mark, with_version};
ghost use Rattle.sr_store.specs.Lists.{EndsWith};
ghost use Rattle.sr_store.specs.Places.{knower};

use crate::history::{Author, Front};
use crate::place::View;
use crate::reader::Told;
use crate::shown::{OneStore, Shown};
use crate::side::show_next;
use crate::usage::Usage;
use core::mem::replace_with;
use left_right::Absorb;
use left_right::writer::Writer as Side;
use sr_base::Numbered;
use std::alloc::AllocError;
use std::sync::{Arc, Wait};

/// The writer of a store: the list that it has published, the number of readers that were given with it, and whether it is stuck.
pub struct Writer<V: Numbered + Drop>
where
    Shown<V>: Absorb<Shown<V>>,
{
    pub(crate) inner: Side<Shown<V>, Shown<V>, View, OneStore>,
    pub list: Front<V>,
    last: Arc<V>,
    author: Author<V>,
    given: usize,
    stuck: bool,
    ghost last_is: { EndsWith list.versions (arc_value last) },
    ghost idle: { stuck ≡ false → drop inner.behind inner.log.items ≡ [] },
    ghost knows: { view inner.desk.place ≡ knower list },
    ghost shown: { inner.desk.shown.value ≡ list },
    ghost one_store: { author.store ≡ list.store },
    ghost whole: { stuck ≡ false → author ≡ list },
    ghost open: { stuck ≡ false → list.closed ≡ false },
}

impl<V: Numbered + Drop> Writer<V> {
    // The writer of what its author wrote, all of which is shown. It is stuck where that has the close mark.
    pub(crate) fn whole(
        inner: Side<Shown<V>, Shown<V>, View, OneStore>,
        author: Author<V>,
        list: Shown<V>,
        given: usize,
    ) -> Writer<V>
        requires idle { drop inner.behind inner.log.items ≡ [] }
        requires knows { view inner.desk.place ≡ knower list }
        requires shown { (inner.desk.shown.value ≡ list) × (author ≡ list) }
        ensures list { (result.list ≡ list) × (result.stuck ≡ list.closed) }
        ensures given { result.given ≡ given }
    {
        let (list, last) = list.parts();
        Writer {
            inner,
            stuck: list.closed(),
            list,
            last,
            author,
            given,
        }
    }

    /// Publishes the next version to all readers at once. It may wait for readers that hold the version before the last. The
    /// only error is out of memory: the list is then as before, and the writer is stuck, so that only `abandon` takes it.
    pub fn publish<R: Wait>(
        &mut self,
        rt: &R,
        version: Arc<V>,
        usage: &mut Usage,
    ) -> Result<(), AllocError>
        requires free { self.old.stuck ≡ false }
        requires next { IsNext V.number_of self.old.list.versions (arc_value version) }
        ensures usage { MatchResult result (λ _. usage.new ≡ spread usage.old) (λ _. usage.new ≡ usage.old) }
        ensures list { MatchResult result
            (λ _. (self.new.list ≡ with_version self.old.list (arc_value version)) × (self.new.stuck ≡ false))
            (λ _. (self.new.list ≡ self.old.list) × (self.new.stuck ≡ true)) }
        ensures given { self.new.given ≡ self.old.given }
    {
        self.stuck = true;
        if !self.author.add(&version) {
            return Err(AllocError);
        }
        let done = replace_with(
            self,
            version,
            |writer: Writer<V>, version: Arc<V>| -> (Writer<V>, Result<(), AllocError>)
                requires idle { drop writer.inner.behind writer.inner.log.items ≡ [] }
                requires last { EndsWith writer.author.versions (arc_value version) }
                ensures list { MatchResult result.1
                    (λ _. (result.0.list ≡ writer.author) × (result.0.stuck ≡ writer.author.closed))
                    (λ _. (result.0.list ≡ writer.list) × (result.0.stuck ≡ true)) }
                ensures given { result.0.given ≡ writer.given }
            { writer.show(rt, version) },
        );
        match done {
            Ok(()) => {
                usage.count_published();
                Ok(())
            }
            Err(refused) => Err(refused),
        }
    }

    /// Whether a `publish` or a `close` was refused.
    pub fn stuck(&self) -> bool
        ensures { result ≡ self.now.stuck }
    {
        self.stuck
    }

    /// A note of the writer's list.
    pub fn tell(&self) -> Told<V>
        ensures { result.list ≡ self.now.list }
    {
        Told {
            list: self.list.again(),
        }
    }

    // Shows what the author wrote last, which this version ends.
    fn show<R: Wait>(self, rt: &R, version: Arc<V>) -> (Writer<V>, Result<(), AllocError>)
        requires idle { drop self.inner.behind self.inner.log.items ≡ [] }
        requires last { EndsWith self.author.versions (arc_value version) }
        ensures list { MatchResult result.1
            (λ _. (result.0.list ≡ self.author) × (result.0.stuck ≡ self.author.closed))
            (λ _. (result.0.list ≡ self.list) × (result.0.stuck ≡ true)) }
        ensures given { result.0.given ≡ self.given }
    {
        let next = Shown::new(version, self.author.front());
        let Writer {
            inner,
            list,
            last,
            author,
            given,
            stuck: _,
        } = self;
        let (inner, done) = show_next(rt, inner, &next);
        match done {
            Ok(()) => (Writer::whole(inner, author, next, given), Ok(())),
            Err(refused) => (held(inner, list, last, author, given), Err(refused)),
        }
    }

    // The writer, from now on stuck.
    pub(crate) fn locked(self) -> Writer<V>
        ensures { (result.list ≡ self.list) × (result.stuck ≡ true) × (result.given ≡ self.given) }
    {
        let mut writer = self;
        writer.stuck = true;
        writer
    }

    // Ends the list by the close mark, and shows it. The writer is stuck from now on.
    pub(crate) fn mark<R: Wait>(self, rt: &R) -> (Writer<V>, Result<(), AllocError>)
        requires free { self.stuck ≡ false }
        ensures list { MatchResult result.1 (λ _. result.0.list ≡ with_mark self.list)
            (λ _. result.0.list ≡ self.list) }
        ensures stuck { (result.0.stuck ≡ true) × (result.0.given ≡ self.given) }
    {
        let mut writer = self;
        writer.stuck = true;
        if !writer.author.mark() {
            return (writer, Err(AllocError));
        }
        match Arc::try_clone(&writer.last) {
            Ok(last) => writer.show(rt, last),
            Err(refused) => (writer, Err(refused)),
        }
    }

    // Notes how many readers were given with this writer.
    pub(crate) fn gave(&mut self, readers: usize)
        ensures { (self.new.list ≡ self.old.list) × (self.new.stuck ≡ self.old.stuck) × (self.new.given ≡ readers) }
    {
        self.given = readers;
    }

    // Waits for the readers, gives up the copies, and hands out the last version and the list.
    pub(crate) fn end<R: Wait>(self, rt: &R) -> (Arc<V>, Front<V>)
        ensures { EndsWith self.list.versions (arc_value result.0) × (result.1 ≡ self.list) }
    {
        let Writer {
            inner,
            list,
            last,
            author: _author,
            given: _,
            stuck: _,
        } = self;
        drop(inner.take(rt));
        (last, list)
    }
}

// A stuck writer of these parts.
fn held<V: Numbered + Drop>(
    inner: Side<Shown<V>, Shown<V>, View, OneStore>,
    list: Front<V>,
    last: Arc<V>,
    author: Author<V>,
    given: usize,
) -> Writer<V>
    requires last { EndsWith list.versions (arc_value last) }
    requires knows { view inner.desk.place ≡ knower list }
    requires shown { (inner.desk.shown.value ≡ list) × (author.store ≡ list.store) }
    ensures { (result.list ≡ list) × (result.stuck ≡ true) × (result.given ≡ given) }
{
    Writer {
        inner,
        list,
        last,
        author,
        given,
        stuck: true,
    }
}
