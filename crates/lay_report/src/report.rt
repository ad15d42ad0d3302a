//! The report of a run.

ghost use Rattle.std.specs.Prelude.{◌≡◌, ◌≤◌, IfErr, OnErr, OnOk, length, if◌then◌else◌};
ghost use Rattle.lay_history.specs.Histories.{accepted, list_in, shown_by, shown_version};
ghost use Rattle.lay_history.specs.Trees.{tree_at};
ghost use Rattle.lay_outside.specs.Outside.{Rose, Took, TookFront};
ghost use Rattle.lay_report.specs.Report.{entry_text, final_text, history_text, run_report, scratch_report, shown_lines, tree_lines};
ghost use Rattle.lay_report.specs.Writing.{Pushes};

use crate::buffer::{hand_on, hold_entry, hold_number};
use crate::fault::ReportFault;
use crate::pieces::{push_tree, push_tree_after};
use crate::tree_text::TreeText;
use lay_frag::Tree;
use lay_history::edits::{Entry, Reply};
use lay_history::{PublishedTree, tree_at};
use lay_outside::Sink;
use std::alloc::Global;

/// The trees that a history shows, and the allocator for the text of the last one.
#[derive(Drop)]
struct Shown<'a> {
    alloc: Global,
    trees: &'a [PublishedTree],
}

/// Writes the report of a run of editors: its history with the trees that it shows, the last version with its tree, and
/// how much was laid out. WriteFault comes only where the sink's count of faults rose; after an error the sink has taken
/// a front of the report.
pub fn write_run<K: Sink>(
    alloc: Global,
    history: &[Entry],
    trees: &[PublishedTree],
    laid: u64,
    sink: &mut K,
) -> Result<(), ReportFault>
    ensures ok { OnOk result (Took (K.taken sink.old) (K.taken sink.new) (run_report history.now trees.now laid)) }
    ensures front { OnErr result (TookFront (K.taken sink.old) (K.taken sink.new) (run_report history.now trees.now laid)) }
    ensures failed { IfErr result (λ e. e ≡ ReportFault.WriteFault → Rose (K.faults sink.old) (K.faults sink.new)) }
    ensures never_falls { K.faults sink.old ≤ K.faults sink.new }
{
    let mut buffer = Vec::new(alloc);
    push_history(alloc, history, trees, &mut buffer, sink)?;
    hold_number(alloc, "laid ", laid, &mut buffer)?;
    hand_on(&mut buffer, sink)
}

/// Writes the report of a run without editors: version 0 is published, with this tree, and nothing says how much was
/// laid out. WriteFault comes only where the sink's count of faults rose; after an error the sink has taken a front of
/// the report.
pub fn write_scratch<K: Sink>(alloc: Global, tree: &Tree, sink: &mut K) -> Result<(), ReportFault>
    ensures ok { OnOk result (Took (K.taken sink.old) (K.taken sink.new) (scratch_report tree.now)) }
    ensures front { OnErr result (TookFront (K.taken sink.old) (K.taken sink.new) (scratch_report tree.now)) }
    ensures failed { IfErr result (λ e. e ≡ ReportFault.WriteFault → Rose (K.faults sink.old) (K.faults sink.new)) }
    ensures never_falls { K.faults sink.old ≤ K.faults sink.new }
{
    let mut buffer = Vec::new(alloc);
    hold_entry(alloc, &Entry::Publish { version: 0 }, &mut buffer)?;
    hold_number(alloc, "final ", 0, &mut buffer)?;
    push_tree(tree, &mut buffer, sink)?;
    hand_on(&mut buffer, sink)
}

/// Writes a history with the trees that it shows, and the last version with its tree.
fn push_history<K: Sink>(
    alloc: Global,
    history: &[Entry],
    trees: &[PublishedTree],
    buffer: &mut Vec<u8>,
    sink: &mut K,
) -> Result<(), ReportFault>
    ensures { Pushes (record { taken = K.taken sink.old; faults = K.faults sink.old; held = buffer.old.items })
        (record { taken = K.taken sink.new; faults = K.faults sink.new; held = buffer.new.items })
        (history_text history.now trees.now) result }
{
    let shown = Shown { alloc, trees };
    let mut last = None;
    for entry in history {
        push_entry_text(&shown, entry, &mut last, buffer, sink)?;
    }
    push_final(&shown, accepted(history), &mut last, buffer, sink)
}

/// Writes the last version and its tree.
fn push_final<'a, K: Sink>(
    shown: &Shown<'a>,
    version: u64,
    last: &mut Option<TreeText<'a>>,
    buffer: &mut Vec<u8>,
    sink: &mut K,
) -> Result<(), ReportFault>
    ensures { Pushes (record { taken = K.taken sink.old; faults = K.faults sink.old; held = buffer.old.items })
        (record { taken = K.taken sink.new; faults = K.faults sink.new; held = buffer.new.items })
        (final_text version shown.now.trees.now) result }
{
    hold_number(shown.alloc, "final ", version, buffer)?;
    push_shown(shown, Some(version), last, buffer, sink)
}

/// Writes the line of an entry, and the lines of the tree that it shows.
fn push_entry_text<'a, K: Sink>(
    shown: &Shown<'a>,
    entry: &Entry,
    last: &mut Option<TreeText<'a>>,
    buffer: &mut Vec<u8>,
    sink: &mut K,
) -> Result<(), ReportFault>
    ensures { Pushes (record { taken = K.taken sink.old; faults = K.faults sink.old; held = buffer.old.items })
        (record { taken = K.taken sink.new; faults = K.faults sink.new; held = buffer.new.items })
        (entry_text shown.now.trees.now entry.now) result }
{
    hold_entry(shown.alloc, entry, buffer)?;
    push_shown(shown, shown_version(entry), last, buffer, sink)
}

/// Writes the lines of the tree of a version that is shown.
fn push_shown<'a, K: Sink>(
    shown: &Shown<'a>,
    version: Option<u64>,
    last: &mut Option<TreeText<'a>>,
    buffer: &mut Vec<u8>,
    sink: &mut K,
) -> Result<(), ReportFault>
    ensures { Pushes (record { taken = K.taken sink.old; faults = K.faults sink.old; held = buffer.old.items })
        (record { taken = K.taken sink.new; faults = K.faults sink.new; held = buffer.new.items })
        (shown_lines shown.now.trees.now version) result }
{
    match version {
        Some(version) => push_tree_at(shown, version, last, buffer, sink),
        None => Ok(()),
    }
}

/// Writes the lines of the tree of a version.
fn push_tree_at<'a, K: Sink>(
    shown: &Shown<'a>,
    version: u64,
    last: &mut Option<TreeText<'a>>,
    buffer: &mut Vec<u8>,
    sink: &mut K,
) -> Result<(), ReportFault>
    ensures { Pushes (record { taken = K.taken sink.old; faults = K.faults sink.old; held = buffer.old.items })
        (record { taken = K.taken sink.new; faults = K.faults sink.new; held = buffer.new.items })
        (tree_lines (tree_at version shown.now.trees.now)) result }
{
    match tree_at(shown.trees, version) {
        Some(tree) => push_tree_after(shown.alloc, tree, last, buffer, sink),
        None => Ok(()),
    }
}

/// The version that an entry shows.
fn shown_version(entry: &Entry) -> Option<u64>
    ensures { result ≡ shown_version entry.now }
{
    match entry {
        Entry::Latest { reply, .. } | Entry::Sync { reply, .. } => shown_by(*reply),
        _ => None,
    }
}

fn shown_by(reply: Reply) -> Option<u64>
    ensures { result ≡ shown_by reply }
{
    match reply {
        Reply::Shown(version) => Some(version),
        _ => None,
    }
}

/// How many lists of edits a history has accepted.
fn accepted(history: &[Entry]) -> u64
    ensures { result ≡ accepted history.now }
{
    let mut count = 0;
    for entry in history {
        if is_accepted(entry) {
            count += 1;
        }
    }
    count
}

fn is_accepted(entry: &Entry) -> bool
    ensures { (if result then 1 else 0) ≡ length (list_in entry.now) }
{
    matches!(
        entry,
        Entry::Edit {
            reply: Reply::Accepted(_),
            ..
        }
    )
}
