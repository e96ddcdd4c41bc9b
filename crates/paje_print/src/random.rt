//! Random values.
ghost use Rattle.std.specs.Prelude.{◌≡◌, ◌/◌, ◌^◌};
ghost use Rattle.paje_print.specs.Generated.{next_random};

/// A linear congruence over 64 bits.
#[derive(Drop)]
pub struct Random {
    pub value: u64,
}

impl Random {
    /// Makes a step, and gives the kernel that its value stands for, one of eight.
    pub fn kernel(&mut self) -> u8
        ensures value { self.new.value ≡ next_random self.old.value }
        ensures kernel { result ≡ self.new.value / 2 ^ 61 }
    {
        self.value = self
            .value
            .wrapping_mul(6_364_136_223_846_793_005)
            .wrapping_add(1_442_695_040_888_963_407);
        (self.value / (1 << 61)) as u8
    }
}
