//! Which words a part may have.

/// Whether SOR may stand at the front of a part, and whether BEFORE or AFTER may be the whole of
/// it.
#[derive(Clone, Copy, PartialEq, Eq)]
pub(crate) struct Leave {
    pub sor: bool,
    pub edge: bool,
}

/// No leave: a part that is not the first of the module's.
pub(crate) const NO_LEAVE: Leave = Leave {
    sor: false,
    edge: false,
};
