//! What an acquire may do, and what it is answered.
use shore_types::Granule;

/// What to do if another transaction is in the way: wait for it, or refuse.
#[derive(Clone, Copy, PartialEq)]
pub enum OnConflict {
    Wait,
    Refuse,
}

/// What became of an acquire. Done: the granule is held in the mode, or a mode held above covers it. Waiting: the transaction waits
/// for this granule of the path, and asks again once it waits no more.
#[derive(Clone, Copy, PartialEq)]
pub enum Acquired {
    Done,
    Waiting(Granule),
}
