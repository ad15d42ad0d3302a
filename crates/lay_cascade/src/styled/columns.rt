//! Which nodes the long selectors of a sheet match.

ghost use Rattle.std.specs.Prelude.{◌≡◌, IfOk};
ghost use Rattle.std.specs.List.{slice_get};
ghost use Rattle.lay_cascade.specs.Rising.{IsNamed};
ghost use Rattle.lay_cascade.specs.Styled.Told.{IsTold, AreTold, AreColumns, column_at};

use crate::styled::entry::Entry;
use crate::styled::selector_index::{rule_at, steps_at};
use crate::{Named, matched_nodes};
use lay_sheet::{Rule, Step};
use lay_units::NoMemory;
use std::alloc::Global;
use std::marker::Model;

/// A selector of more steps is asked about all nodes at once, each step about each node, and not about one node after the other.
const FEW: usize = 64;

/// For each node whether a selector matches it, or nothing.
#[derive(Drop)]
pub(crate) struct Column {
    told: Vec<bool>,
}

impl Model for Column {
    ghost use Rattle.std.specs.Prelude.{List, Bool};

    ghost Value = { List Bool };

    ghost view = { λ c. c.told.items };
}

/// The columns of a rule set's selectors, in order.
#[derive(Drop)]
pub(crate) struct ColumnList {
    items: Vec<Column>,
}

impl Model for ColumnList {
    ghost use Rattle.std.specs.Prelude.{List, Bool};

    ghost Value = { List (List Bool) };

    ghost view = { λ l. l.items.items };
}

/// The column of a selector, which is empty for one of few steps.
fn column_for(alloc: Global, named: Named<'_>, steps: &[Step]) -> Result<Column, NoMemory>
    requires { IsNamed named.nodes.now named.names.now named.adjacent.now named.sets.now }
    ensures { IfOk result (IsTold named.entry.nodes.now named.entry.names.now steps.now) }
{
    if steps.len() <= FEW {
        return Ok(Column {
            told: Vec::new(alloc),
        });
    }
    let told = matched_nodes(alloc, named, steps)?;
    Ok(Column { told })
}

/// The columns of a rule set's selectors.
fn columns_for(alloc: Global, named: Named<'_>, rule: &Rule) -> Result<ColumnList, NoMemory>
    requires { IsNamed named.nodes.now named.names.now named.adjacent.now named.sets.now }
    ensures { IfOk result (AreTold named.entry.nodes.now named.entry.names.now rule.now.selectors) }
{
    let mut items = Vec::new(alloc);
    for s in 0..rule.selectors().len() {
        let column = column_for(alloc, named, steps_at(rule, s))?;
        items.push(column)?;
    }
    Ok(ColumnList { items })
}

/// The columns of the selectors of a sheet's rule sets.
pub(crate) fn columns_of(
    alloc: Global,
    named: Named<'_>,
    rules: &[Rule],
) -> Result<Vec<ColumnList>, NoMemory>
    requires { IsNamed named.nodes.now named.names.now named.adjacent.now named.sets.now }
    ensures { IfOk result (λ v. AreColumns rules.now named.entry.nodes.now named.entry.names.now v.items) }
{
    let mut columns = Vec::new(alloc);
    for r in 0..rules.len() {
        let list = columns_for(alloc, named, rule_at(rules, r))?;
        columns.push(list)?;
    }
    Ok(columns)
}

/// What the column of a selector says of the node at a place, or nothing.
pub(crate) fn told(columns: &[ColumnList], entry: Entry, k: usize) -> Option<bool>
    ensures { result ≡ slice_get (column_at columns.now entry) k }
{
    let list = columns.get(entry.rule)?;
    let column = list.items.as_slice().get(entry.selector)?;
    column.told.as_slice().get(k).copied()
}
