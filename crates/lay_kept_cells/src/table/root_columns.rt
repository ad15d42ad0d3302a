//! Which root of which context each formatting context is.

ghost use Rattle.std.specs.Prelude.{◌≡◌, ◌<◌, ◌+◌, IfOk, OnOk, length, slice_index};
ghost use Rattle.lay_contexts.specs.FormattingContextList.{AreFormattingContextsOf};
ghost use Rattle.lay_contexts.specs.FormattingContexts.{formatting_context_at};
ghost use Rattle.lay_kept_cells.specs.Table.RootColumns.{AreRootColumns, AreRootColumnsTo, with_first};

use crate::table::context_root::ContextRoot;
use lay_contexts::{Contexts, FormattingContexts};
use lay_units::NoMemory;
use std::alloc::Global;

/// For each formatting context which root it is, and for each context the number of its first one, with the number behind them all.
#[derive(Drop)]
pub(crate) struct RootColumns {
    pub roots: Vec<ContextRoot>,
    pub firsts: Vec<usize>,
}

/// Those of the formatting contexts of these contexts.
pub(crate) fn root_columns(
    alloc: Global,
    contexts: &Contexts,
    all: &FormattingContexts,
) -> Result<RootColumns, NoMemory>
    requires { AreFormattingContextsOf contexts.now all.now }
    ensures { IfOk result (λ r. AreRootColumns contexts.now all.now r.roots.items r.firsts.items) }
{
    let mut columns = RootColumns {
        roots: Vec::with_capacity(alloc, all.len())?,
        firsts: Vec::with_capacity(alloc, contexts.len() + 1)?,
    };
    for i in 0..all.len() {
        push_root(contexts, all, i, &mut columns)?;
    }
    columns.firsts.push(all.len())?;
    Ok(columns)
}

/// Adds that of the formatting context with the number i.
fn push_root(
    contexts: &Contexts,
    all: &FormattingContexts,
    i: usize,
    columns: &mut RootColumns,
) -> Result<(), NoMemory>
    requires are { AreFormattingContextsOf contexts.now all.now }
    requires within { i < length all.now }
    requires before { AreRootColumnsTo contexts.now columns.old.roots.items columns.old.firsts.items i }
    ensures { OnOk result (AreRootColumnsTo contexts.now columns.new.roots.items columns.new.firsts.items (i + 1)) }
{
    let _ = contexts.len();
    push_first(all, i, &mut columns.firsts)?;
    let context = columns.firsts.len() - 1;
    let root = i - number_in(&columns.firsts, context);
    columns.roots.push(ContextRoot { context, root })?;
    Ok(())
}

/// Adds its number where it is the first one of its context.
fn push_first(all: &FormattingContexts, i: usize, firsts: &mut Vec<usize>) -> Result<(), NoMemory>
    requires { i < length all.now }
    ensures { OnOk result (firsts.new.items ≡ with_first (formatting_context_at all.now i).anonymous i firsts.old.items) }
{
    if !all.at(i).is_anonymous() {
        firsts.push(i)?;
    }
    Ok(())
}

/// The number at k in a column.
pub(crate) fn number_in(numbers: &[usize], k: usize) -> usize
    requires { k < length numbers.now }
    ensures { result ≡ slice_index numbers.now k }
{
    numbers[k]
}
