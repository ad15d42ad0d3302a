//! A gate under which a run has one report.

use lay_core::{Core, Publish};
use lay_outside::{Gate, Point};
use lay_run::RunDoc;
use lay_units::NoMemory;
use std::alloc::Global;
use std::sync::atomic::{AtomicBool, AtomicU64, Ordering};
use std::thread;

/// After so many turns a thread that is held goes on.
const TURNS: u32 = 100_000_000;

/// Once in so many turns a thread that is held lets others run.
const TURNS_AT_ONCE: u32 = 131_072;

/// Has the editors of a run take turns: the first command of each, in rising order of editors, then the second ones, and so on. The first
/// claim of all is begun before the first call, and its layout is held until the last call has ended. So nothing is cleaned beside the
/// editors but what they lay out themselves, and whatever runs first, the report is the same. Where nothing is to be laid out before the
/// first edit no claim is waited for, and none is held. It holds one worker, so a run under it has one (`--workers 1`).
#[derive(Drop)]
pub(crate) struct TurnGate {
    /// How many commands each editor has.
    commands: Vec<usize>,
    /// Whether the layout of a claim was begun, or there is none to wait for.
    begun: AtomicBool,
    /// How many calls have ended, and one more where the layout of a claim was begun or there is none to wait for.
    moved: AtomicU64,
}

impl TurnGate {
    /// For this run, if there is one.
    pub(crate) fn new(alloc: Global, run: Option<RunDoc>) -> Result<TurnGate, NoMemory> {
        let mut commands = Vec::new(alloc);
        let mut begun = false;
        if let Some(run) = run {
            for script in run.scripts().as_slice() {
                commands.push(script.len())?;
            }
            begun = has_none_dirty(alloc, run)?;
        }
        Ok(TurnGate {
            commands,
            begun: AtomicBool::new(begun),
            moved: AtomicU64::new(u64::from(begun)),
        })
    }

    /// How many calls stand before this one where editors take turns.
    fn calls_before(&self, editor: u32, index: u32) -> u64 {
        let mut calls = 0u64;
        let mut number = 1u32;
        for count in &self.commands {
            let turns = index as u64 + u64::from(number < editor);
            calls = calls.saturating_add(turns.min(*count as u64));
            number = number.saturating_add(1);
        }
        calls
    }

    /// Waits until so many calls have ended, and a claim was begun.
    fn wait_past(&self, calls: u64) {
        for turn in 0..TURNS {
            if self.moved.load(Ordering::SeqCst) > calls {
                return;
            }
            if turn % TURNS_AT_ONCE == 0 {
                thread::yield_now();
            }
        }
    }
}

/// Whether nothing is to be laid out before the first edit of a run.
fn has_none_dirty(alloc: Global, run: RunDoc) -> Result<bool, NoMemory> {
    let (doc, face, _scripts, _listed) = run.into_parts();
    let mut core = Core::new(alloc, doc, face, 0)?;
    Ok(!matches!(core.publish(), Publish::Unsettled(_)))
}

impl Gate for TurnGate {
    fn at(&self, point: Point) {
        match point {
            Point::LayStart(_) => {
                if !self.begun.swap(true, Ordering::SeqCst) {
                    self.moved.fetch_add(1, Ordering::SeqCst);
                    self.wait_past(self.calls_before(0, u32::MAX));
                }
            }
            Point::LayEnd(_) => {}
            Point::CallStart(editor, index) => self.wait_past(self.calls_before(editor, index)),
            Point::CallEnd(_, _) => {
                self.moved.fetch_add(1, Ordering::SeqCst);
            }
        }
    }
}
