//! Fuses, by which a script makes devices fail.
ghost use Rattle.std.specs.Prelude.{◌≡◌};
ghost use Rattle.shore_types.specs.declared.faults.Device.TheVariants as device;

use shore_types::Device;

/// A fuse of a device: so many more writes and syncs of it pass, then every call of it fails.
#[derive(Clone, Copy)]
pub struct Fuse {
    /// The device that it is set for.
    pub device: Device,
    /// How many writes and syncs pass.
    pub calls: u64,
}

/// How many writes and syncs of each device pass.
#[derive(Clone, Copy)]
pub struct Fuses {
    /// How many of the log device pass.
    pub log: u64,
    /// How many of the volume pass.
    pub volume: u64,
}

impl Fuses {
    /// Fuses that no run of the program blows.
    pub const NONE: Fuses = Fuses {
        log: u64::MAX,
        volume: u64::MAX,
    };

    /// Puts a fuse in the place of the one that its device has.
    pub fn set(&mut self, fuse: Fuse)
        ensures log { fuse.device ≡ device.Log → (self.new.log ≡ fuse.calls) × (self.new.volume ≡ self.old.volume) }
        ensures volume { fuse.device ≡ device.Volume → (self.new.volume ≡ fuse.calls) × (self.new.log ≡ self.old.log) }
    {
        match fuse.device {
            Device::Log => self.log = fuse.calls,
            Device::Volume => self.volume = fuse.calls,
        }
    }
}
