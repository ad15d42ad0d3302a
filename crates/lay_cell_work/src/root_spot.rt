//! Where an anonymous table or cell stands.

/// Where the box of an anonymous root stands in its context: the root around it, counted from the context's own, and the place of the
/// box among the boxes of that.
#[derive(Clone, Copy, PartialEq, Eq)]
pub struct RootSpot {
    pub root: usize,
    pub place: usize,
}
