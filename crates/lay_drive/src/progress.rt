//! How far a run is, for workers that wait for more to do.

use std::sync::{Condvar, Mutex, Wait};

/// How often something has changed that may make work or end it, whether all editors have ended, how many workers don't wait, and
/// whether nothing can change any more.
#[derive(Drop)]
struct State {
    changes: u64,
    edited: bool,
    awake: u32,
    over: bool,
}

/// What editors and workers tell, and workers wait for.
#[derive(Drop)]
pub(crate) struct Progress {
    state: Mutex<State>,
    changed: Condvar,
}

impl Progress {
    /// Nothing has changed, and no worker is there.
    pub(crate) fn new() -> Progress {
        Progress {
            state: Mutex::new(State {
                changes: 0,
                edited: false,
                awake: 0,
                over: false,
            }),
            changed: Condvar::new(),
        }
    }

    /// A call or an editor has ended: a worker is to see what there is to claim.
    pub(crate) fn tell<R: Wait>(&self, rt: &R) {
        let mut state = self.state.lock(rt);
        state.changes = state.changes.wrapping_add(1);
        self.changed.notify_one();
    }

    /// A worker has claims that others may steal.
    pub(crate) fn share<R: Wait>(&self, rt: &R) {
        let mut state = self.state.lock(rt);
        state.changes = state.changes.wrapping_add(1);
        self.changed.notify_all();
    }

    /// All editors have ended.
    pub(crate) fn end<R: Wait>(&self, rt: &R) {
        let mut state = self.state.lock(rt);
        state.changes = state.changes.wrapping_add(1);
        state.edited = true;
        self.changed.notify_all();
    }

    /// A worker comes.
    pub(crate) fn come<R: Wait>(&self, rt: &R) {
        let mut state = self.state.lock(rt);
        state.awake = state.awake.wrapping_add(1);
    }

    /// A worker goes.
    pub(crate) fn go<R: Wait>(&self, rt: &R) {
        let mut state = self.state.lock(rt);
        state.awake = state.awake.wrapping_sub(1);
        state.changes = state.changes.wrapping_add(1);
        self.changed.notify_all();
    }

    /// How often something has changed so far.
    pub(crate) fn changes<R: Wait>(&self, rt: &R) -> u64 {
        self.state.lock(rt).changes
    }

    /// A worker with nothing to do waits until something has changed since there were so many changes. False where nothing can change
    /// any more: all editors have ended, and all other workers wait as well.
    pub(crate) fn wait_past<R: Wait>(&self, rt: &R, seen: u64) -> bool {
        let mut state = self.state.lock(rt);
        if state.changes == seen {
            state.awake = state.awake.wrapping_sub(1);
            if state.awake == 0 && state.edited {
                state.over = true;
                self.changed.notify_all();
            }
            state = self
                .changed
                .wait_while(rt, state, |s| s.changes == seen && !s.over);
            state.awake = state.awake.wrapping_add(1);
        }
        !state.over
    }
}
