//! What calls on a core are answered.

use lay_shape::CellKey;

/// What comes of publishing.
#[derive(Clone, Copy)]
pub enum Publish {
    /// This version is published. It is the present one.
    Published(u64),
    /// The cell of this key is the first that is dirty.
    Unsettled(CellKey),
    /// Memory ran out.
    NoMemory,
}
