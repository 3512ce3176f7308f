//! What the records of a log cost, and whether they leave room for more.
ghost use Rattle.std.specs.Prelude.{◌≡◌, ◌↔◌, ◌++◌, ◌∷◌, ◌^◌, ◌-◌, ◌+◌, ◌<◌, ◌≤◌, [], ℕ, List, All, IsSome, IsTrue, IfSome, min, length};
ghost use Rattle.shore_model.specs.declared.log_records.LogRecord.{LogRecord};
ghost use Rattle.shore_logrec.specs.Text.{Fits, cost_of};
ghost use Rattle.laws_calls.specs.States.{cost_of_log};
ghost use Rattle.shore_types.specs.declared.layout.TheConstants.{LAST_OPENED, LONGEST_FRAME, MAX_LOG_BYTES};
ghost use Rattle.shore_analysis.specs.Padded.{padded};
ghost use Rattle.shore_restart.specs.Doubts.{reserved_told};
ghost use Rattle.shore_restart.specs.Room.{HasSums, IsRoomBehind, LeavesRoom};

use shore_logrec::{LogRecord, encoded_len};
use shore_txn::LogRoom;
use shore_types::Lsn;
use shore_types::layout::{FRAME_SHARE, LAST_OPENED};

/// What the records cost together, each its text and its share of a frame. Saturates at
/// `u64::MAX`.
pub fn cost_of_all(log: &[LogRecord]) -> u64
    requires { All Fits log.now }
    ensures { result ≡ min (cost_of_log log.now) (2 ^ 64 - 1) }
{
    let mut sum = 0u64;
    for logged in log {
        sum = sum.saturating_add(cost(logged));
    }
    sum
}

// What a record costs.
fn cost(logged: &LogRecord) -> u64
    requires { Fits logged.now }
    ensures { result ≡ cost_of logged.now.payload }
{
    FRAME_SHARE + encoded_len(logged) as u64
}

/// The room of a log of which these records are kept, with nothing reserved. None if it leaves none for the longest frame.
pub fn room_of(kept: &[LogRecord], stream_bytes: u64) -> Option<LogRoom>
    requires { All Fits kept.now }
    ensures some { IfSome result (HasSums stream_bytes (cost_of_log kept.now) 0) }
    ensures none { IsSome result ↔ ((cost_of_log kept.now + LONGEST_FRAME ≤ stream_bytes) × (stream_bytes ≤ MAX_LOG_BYTES)) }
{
    LogRoom::new(stream_bytes, cost_of_all(kept))
}

/// Whether a log whose last record has this number has numbers for one more, and for all that is reserved.
pub fn has_numbers(room: &LogRoom, last: Lsn) -> bool
    ensures { IsTrue result ↔ (last + room.now.reserved < LAST_OPENED) }
{
    last.0 < LAST_OPENED && room.reserved < LAST_OPENED - last.0
}

/// The room behind a record more, by that before it, which is of a log with a last record of this number. As much is reserved. None if there is none.
pub fn room_with(room: &LogRoom, logged: &LogRecord, last: Lsn) -> Option<LogRoom>
    requires fit { Fits logged.now }
    requires few { last < LAST_OPENED }
    ensures some { (cut : ℕ) (kept : List LogRecord) (stream_bytes : ℕ) → IsRoomBehind cut kept stream_bytes room.now → last ≡ cut + length kept
        → reserved_told (padded cut (kept ++ logged.now ∷ [])) ≡ reserved_told (padded cut kept) → IfSome result (IsRoomBehind cut (kept ++ logged.now ∷ []) stream_bytes) }
    ensures none { (cut : ℕ) (kept : List LogRecord) (stream_bytes : ℕ) → IsRoomBehind cut kept stream_bytes room.now → last ≡ cut + length kept
        → reserved_told (padded cut (kept ++ logged.now ∷ [])) ≡ reserved_told (padded cut kept) → (IsSome result ↔ LeavesRoom cut (kept ++ logged.now ∷ []) stream_bytes) }
{
    if !has_numbers(room, Lsn(last.0 + 1)) {
        return None;
    }
    room.with_record(cost(logged))
}
