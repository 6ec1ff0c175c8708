ghost use Rattle.std.specs.Prelude.{◌≡◌, None};

use cache_types::Store;

/// What a seat keeps from one operation to the next. A state that keeps a store belongs to that store's
/// requests.
#[derive(Debug, Drop)]
pub struct SeatState {
    pub(crate) store: Option<Store>,
}

impl SeatState {
    /// A state that keeps no store. Takes no memory.
    pub fn new() -> SeatState
        ensures { result ≡ record { store = None } }
    {
        SeatState { store: None }
    }
}
