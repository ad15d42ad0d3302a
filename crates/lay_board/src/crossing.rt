//! Which types go from thread to thread: where a field of one is in the way, the check fails here.

use crate::engine::Engine;
use crate::pass::Pass;
use crate::starting::Closer;
use lay_core::Core;

fn sends<T: Send>(_value: &T) {}

fn shares<T: Sync>(_value: &T) {}

/// Threads share an engine, whose core goes from one to another; passes, and who closes, go along with the thread that has them.
pub(crate) fn cross(core: &Core, engine: &Engine, pass: &Pass, closer: &Closer) {
    sends(core);
    shares(core);
    sends(engine);
    shares(engine);
    sends(pass);
    sends(closer);
}
