use hall_history::AskIds;

/// What a plain hall keeps of a pin.
#[derive(Clone, Copy)]
pub struct KeptPin {
    pub ids: AskIds,
    pub place: u64,
}
