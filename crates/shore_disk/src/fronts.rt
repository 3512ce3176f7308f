//! The front of a file, by which it is known whether it may be made anew.
ghost use Rattle.std.specs.Prelude.{◌≡◌, ◌↔◌, IsTrue, length, MatchOption};
ghost use Rattle.shore_types.specs.declared.versions.Version.{Version};
ghost use Rattle.shore_disk.specs.Fronts.{are_zero, EndsInZeros, IsFrontOfOurs, IsLabelFront, IsLabelHead, label_head_of};

use shore_types::Device;

/// The bytes by which a file is known: as many as a label has.
pub(crate) const FRONT_BYTES: usize = 512;

/// Where a label's stores begin.
const STORES_AT: usize = 32;

/// The most stores of a label.
const MOST_STORES: usize = 64;

/// The kind of a log, and of a volume, with a version and the length of its page that follow it.
const LOG_HEAD_ONE: [u8; 7] = [0x4C, 1, 0, 0, 0x20, 0, 0];

const VOLUME_HEAD_ONE: [u8; 7] = [0x56, 1, 0, 0, 0x20, 0, 0];

const LOG_HEAD_TWO: [u8; 7] = [0x4C, 2, 0, 0, 0x40, 0, 0];

const VOLUME_HEAD_TWO: [u8; 7] = [0x56, 2, 0, 0, 0x40, 0, 0];

/// Whether these bytes are zeros or a label, whose gate may be open or not.
pub(crate) fn is_front_of_ours(front: &[u8]) -> bool
    requires { length front.now ≡ FRONT_BYTES }
    ensures { IsTrue result ↔ IsFrontOfOurs front.now }
{
    are_zero(front) || is_label(front)
}

fn is_label(front: &[u8]) -> bool
    requires { length front.now ≡ FRONT_BYTES }
    ensures { IsTrue result ↔ IsLabelFront front.now }
{
    device_of_head(&front[1..8]).is_some() && ends_in_zeros(front, front[28] as usize)
}

/// Whose label goes on so behind its gate, by the seven bytes of its kind, its version and the length of a page.
pub fn device_of_head(head: &[u8]) -> Option<Device>
    ensures { MatchOption result (¬ IsLabelHead head.now) (λ device. (version : Version) × (head.now ≡ label_head_of device version)) }
{
    if head == LOG_HEAD_ONE.as_slice() || head == LOG_HEAD_TWO.as_slice() {
        return Some(Device::Log);
    }
    if head == VOLUME_HEAD_ONE.as_slice() || head == VOLUME_HEAD_TWO.as_slice() {
        return Some(Device::Volume);
    }
    None
}

// Whether there may be so many stores, and nothing is behind them.
fn ends_in_zeros(front: &[u8], stores: usize) -> bool
    requires { length front.now ≡ FRONT_BYTES }
    ensures { IsTrue result ↔ EndsInZeros stores front.now }
{
    stores <= MOST_STORES
        && are_zero(&front[29..STORES_AT])
        && are_zero(&front[STORES_AT + 4 * stores..])
}

#[tactic(auto, unfolding(crate::specs::Fronts::are_zero))]
fn are_zero(bytes: &[u8]) -> bool
    ensures { result ≡ are_zero bytes.now }
{
    bytes.iter().all(|byte| *byte == 0)
}
