//! Values that are published one after the other.
ghost use Rattle.std.specs.Prelude.{◌≡◌, ℕ};

/// A value that carries its number: each that is published has the number after that of the one before.
pub trait Numbered {
    /// The number.
    ghost number_of: { Self → ℕ };

    /// Tells it.
    fn number(&self) -> u32
        ensures { result ≡ number_of self.now };
}
