//! What a call is made with.

use lay_outside::Gate;
use std::alloc::Global;
use std::sync::Wait;
use std::thread::Threads;

/// What a call is made with beside its words and streams: a runtime whose threads may come to wait, memory, and the gate that
/// editors and workers pass.
#[derive(Drop)]
pub struct Means<'a, R: Threads + Wait + Sync, G: Gate + Sync> {
    pub rt: &'a R,
    pub alloc: Global,
    pub gate: &'a G,
}
