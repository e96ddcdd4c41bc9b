use whole_profiles::MemoKind;

/// What an entry is found by.
#[derive(Clone, Copy, PartialEq, Eq, Hash)]
pub(crate) struct MemoKey {
    pub(crate) number: u64,
    pub(crate) kind: MemoKind,
}
