//! What the threads of a run share.

use crate::progress::Progress;
use lay_board::Engine;
use std::alloc::Global;

/// An engine, how far its editors are, and where memory comes from.
#[derive(Drop)]
pub(crate) struct Session {
    pub(crate) engine: Engine,
    pub(crate) progress: Progress,
    pub(crate) alloc: Global,
}
