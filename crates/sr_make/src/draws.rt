//! The numbers of a made script, drawn one after the other.
ghost use Rattle.std.specs.Prelude.{◌≡◌};
ghost use Rattle.sr_make.specs.Draws.{drawn_from, next_state};

/// The factor of the linear congruence.
const FACTOR: u64 = 1_664_525;

/// Its increment.
const INCREMENT: u64 = 1_013_904_223;

/// The state of a generator of numbers. The same state gives the same numbers.
#[derive(Clone, Copy)]
pub(crate) struct Draws {
    pub(crate) state: u32,
}

impl Draws {
    /// Draws a number below 2^16.
    pub(crate) fn draw(&mut self) -> u32
        ensures next { self.new.state ≡ next_state self.old.state }
        ensures drawn { result ≡ drawn_from self.old.state }
    {
        let next = FACTOR * u64::from(self.state) + INCREMENT;
        self.state = (next % (1 << 32)) as u32;
        self.state / 65_536
    }
}
