//! What says where a formatting context stands.

use crate::AbsoluteSetting;
use lay_sizes::ContainingBlock;

/// What says where a formatting context stands.
#[derive(Clone, Copy)]
pub enum OwnPlace {
    /// The one around it.
    Inner,
    /// The viewport, of which the root's stands at the corner.
    Root(ContainingBlock),
    /// What an absolutely positioned one is given from outside.
    Absolute(AbsoluteSetting),
}
