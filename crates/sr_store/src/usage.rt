//! What was made of stores: how many places were asked for and given, how much was published, and how many turns were taken.
ghost use Rattle.std.specs.Prelude.{◌≡◌};
ghost use Rattle.sr_store.specs.Counts.{opened, spread, usage_turned};

/// Four counts, each of which stops at 2^64 - 1. Only this crate raises one.
#[derive(Drop)]
pub struct Usage {
    places: u64,
    given: u64,
    published: u64,
    turns: u64,
}

impl Usage {
    pub fn new() -> Usage
        ensures { result ≡ record { places = 0; given = 0; published = 0; turns = 0 } }
    {
        Usage {
            places: 0,
            given: 0,
            published: 0,
            turns: 0,
        }
    }

    pub fn places(&self) -> u64
        ensures { result ≡ self.now.places }
    {
        self.places
    }

    pub fn given(&self) -> u64
        ensures { result ≡ self.now.given }
    {
        self.given
    }

    pub fn published(&self) -> u64
        ensures { result ≡ self.now.published }
    {
        self.published
    }

    pub fn turns(&self) -> u64
        ensures { result ≡ self.now.turns }
    {
        self.turns
    }

    pub(crate) fn count_opened(&mut self, places: u32, given: usize)
        ensures { self.new ≡ opened self.old places given }
    {
        self.places = self.places.saturating_add(u64::from(places));
        self.given = self.given.saturating_add(given as u64);
    }

    pub(crate) fn count_published(&mut self)
        ensures { self.new ≡ spread self.old }
    {
        self.published = self.published.saturating_add(1);
    }

    pub(crate) fn count_turns(&mut self, turns: u64)
        ensures { self.new ≡ usage_turned self.old turns }
    {
        self.turns = self.turns.saturating_add(turns);
    }
}
