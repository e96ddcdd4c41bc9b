ghost use Rattle.std.specs.Prelude.{◌≡◌, ℕ};

/// An object of the outside that counts its faults. Code that is generic over it can't raise the count.
pub trait Faults {
    /// How many faults there have been. It never falls, and stands still at the last value of a `u64`.
    ghost faults: { Self → ℕ };

    /// How many faults there have been.
    fn faults(&self) -> u64
        ensures { result ≡ faults self.now };
}
