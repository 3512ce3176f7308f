//! Laws of devices, each stated as the contract of an empty function.
ghost use Rattle.std.specs.Prelude.{◌≡◌, ◌<◌, ◌-◌, ◌^◌, ℕ};
ghost use Rattle.shore_disk.specs.Device.{Rose};

/// A failure is counted: the count is higher after it, or saturated.
pub fn failures_are_counted()
    ensures rises { (old new : ℕ) → Rose old new → old < 2 ^ 64 - 1 → old < new }
    ensures saturates { (new : ℕ) → Rose (2 ^ 64 - 1) new → new < 2 ^ 64 → new ≡ 2 ^ 64 - 1 }
{}
