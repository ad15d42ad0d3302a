//! Runs of adjoining margins (CSS 2.2, 8.3.1).

ghost use Rattle.std.specs.Prelude.{◌≡◌, ◌+◌, ◌^◌, ◌<◌, ◌≤◌, length, slice_get, Some, IfOk, OnOk};
ghost use Rattle.lay_margins.specs.Runs.{AreRuns};
ghost use Rattle.lay_margins.specs.RunsTo.{RunsTo, runs_closed};

use crate::edge::{Edge, Run, RunList};
use lay_units::NoMemory;
use std::alloc::Global;

/// The runs of adjoining margins of a block formatting context, in order. There are fewer than 2^32 edges.
/// No program calls it: the pass of lay_flow follows the runs as it goes.
pub fn runs(alloc: Global, edges: &[Edge]) -> Result<RunList, NoMemory>
    requires { length edges.now < 2 ^ 32 }
    ensures { IfOk result (λ runs. AreRuns edges.now runs) }
{
    let mut runs = Vec::new(alloc);
    let mut first = 0;
    for k in 0..edges.len() {
        first = pass(edges, &mut runs, first, k)?;
    }
    close(&mut runs, first, edges.len())?;
    Ok(RunList::new(runs))
}

/// Passes the edge at k, where the open run begins at `first`, and answers where it begins after that.
fn pass(edges: &[Edge], runs: &mut Vec<Run>, first: usize, k: usize) -> Result<usize, NoMemory>
    requires few { length edges.now < 2 ^ 32 }
    requires place { k < length edges.now }
    requires known { RunsTo edges.now runs.old.items first k }
    ensures { IfOk result (λ next. RunsTo edges.now runs.new.items next (k + 1)) }
{
    match edge_at(edges, k) {
        Edge::Solid(_) => {
            close(runs, first, k)?;
            Ok(k + 1)
        }
        Edge::Clear(_) => {
            close(runs, first, k)?;
            Ok(k)
        }
        Edge::Margin(_) | Edge::Mark(_) => Ok(first),
    }
}

fn edge_at(edges: &[Edge], k: usize) -> Edge
    requires { k < length edges.now }
    ensures { slice_get edges.now k ≡ Some result }
{
    edges[k]
}

/// Adds the run from `first` to the place `end`, unless it is empty.
fn close(runs: &mut Vec<Run>, first: usize, end: usize) -> Result<(), NoMemory>
    requires order { first ≤ end }
    requires few { end < 2 ^ 32 }
    ensures { OnOk result (runs.new.items ≡ runs_closed runs.old.items first end) }
{
    if first < end {
        runs.push(Run {
            first: first as u32,
            len: (end - first) as u32,
        })?;
    }
    Ok(())
}
