/// The number of the registry among the rooms of a hall, behind those of the store and of the memo.
pub const REGISTRY_ROOM: u64 = 20;
