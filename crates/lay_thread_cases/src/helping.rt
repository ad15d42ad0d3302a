//! A call that helps to lay out.

use crate::closing::{Early, shown, started};
use crate::core_calls::sync;
use lay_outside::Gate;
use lay_run::RunDoc;
use lay_units::NoMemory;
use std::alloc::Global;
use std::sync::Wait;

/// Has an editor of an engine without workers make a `sync`. The answer says what it was shown.
pub(crate) fn synced<R: Wait, G: Gate>(
    rt: &R,
    alloc: Global,
    run: RunDoc,
    gate: &G,
) -> Result<Option<String>, NoMemory> {
    let Some(early) = started(alloc, run)? else {
        return Ok(None);
    };
    let Early { engine, out, .. } = early;
    let (reply, _pass) = sync(rt, alloc, &engine, out, gate);
    Ok(Some(shown(alloc, reply)?))
}
