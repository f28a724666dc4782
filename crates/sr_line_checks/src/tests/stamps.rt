//! A version that is a number alone.

use sr_base::Numbered;

#[derive(Drop)]
pub struct Stamp {
    pub number: u32,
}

impl Numbered for Stamp {
    ghost number_of = { λ stamp. stamp.number };

    fn number(&self) -> u32 {
        self.number
    }
}
