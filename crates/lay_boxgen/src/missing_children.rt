//! Missing child wrappers are generated (CSS 2.2, 17.2.1, the second stage).

ghost use Rattle.std.specs.Prelude.{◌≡◌, ◌++◌, OnOk, IfOk};
ghost use Rattle.lay_boxgen.specs.declared.facts.Facts.{Facts};
ghost use Rattle.lay_boxgen.specs.Boxes.{in_box};
ghost use Rattle.lay_boxgen.specs.MissingChildren.{is_no_proper_table_child, is_no_row, is_no_cell, cell_round, row_round};
ghost use Rattle.lay_boxgen.specs.MissingChildren.{in_cells, child_wrapped};

use crate::facts::{Facts, Form};
use crate::forms::{is_cell, is_in_flow, is_proper_table_child, is_row, is_row_group, is_table};
use crate::runs::{RunRule, anonymous_box, gather, has_faulty};
use crate::subtree::{BoxRule, Subtree};
use lay_units::NoMemory;
use std::alloc::Global;

/// In a row, cells go round what is no cell.
#[derive(Clone, Copy)]
struct CellRound {
    parent: Facts,
}

impl RunRule for CellRound {
    ghost faulty = { λ rule. is_no_cell };

    ghost closed = { λ rule. cell_round rule.parent };

    fn is_faulty(&self, child: Facts) -> bool {
        !(is_in_flow(child.flow) && is_cell(child.form))
    }

    fn close(
        &self,
        _alloc: Global,
        run: Vec<Subtree>,
        out: &mut Vec<Subtree>,
    ) -> Result<(), NoMemory> {
        let cell = Form::Cell {
            colspan: 1,
            rowspan: 1,
        };
        out.push(anonymous_box(self.parent, cell, run))?;
        Ok(())
    }
}

/// The children of a row, in cells.
fn in_cells(alloc: Global, facts: Facts, children: Vec<Subtree>) -> Result<Vec<Subtree>, NoMemory>
    ensures { IfOk result (λ v. v.items ≡ in_cells facts children.items) }
{
    gather(alloc, &CellRound { parent: facts }, children)
}

/// Puts an anonymous row round a run at the end of `out`.
fn put_row_round(
    alloc: Global,
    parent: Facts,
    run: Vec<Subtree>,
    out: &mut Vec<Subtree>,
) -> Result<(), NoMemory>
    ensures { OnOk result (out.new.items ≡ out.old.items ++ row_round parent run.items) }
{
    let cells = in_cells(alloc, parent, run)?;
    out.push(anonymous_box(parent, Form::Row, cells))?;
    Ok(())
}

/// In a table, rows go round what is no proper table child.
#[derive(Clone, Copy)]
struct RowRoundInTable {
    parent: Facts,
}

impl RunRule for RowRoundInTable {
    ghost faulty = { λ rule. is_no_proper_table_child };

    ghost closed = { λ rule. row_round rule.parent };

    fn is_faulty(&self, child: Facts) -> bool {
        !(is_in_flow(child.flow) && is_proper_table_child(child.form))
    }

    fn close(
        &self,
        alloc: Global,
        run: Vec<Subtree>,
        out: &mut Vec<Subtree>,
    ) -> Result<(), NoMemory> {
        put_row_round(alloc, self.parent, run, out)
    }
}

/// In a row group, rows go round what is no row.
#[derive(Clone, Copy)]
struct RowRoundInGroup {
    parent: Facts,
}

impl RunRule for RowRoundInGroup {
    ghost faulty = { λ rule. is_no_row };

    ghost closed = { λ rule. row_round rule.parent };

    fn is_faulty(&self, child: Facts) -> bool {
        !(is_in_flow(child.flow) && is_row(child.form))
    }

    fn close(
        &self,
        alloc: Global,
        run: Vec<Subtree>,
        out: &mut Vec<Subtree>,
    ) -> Result<(), NoMemory> {
        put_row_round(alloc, self.parent, run, out)
    }
}

/// The children of a box with the child wrappers that were missing.
fn child_wrapped(
    alloc: Global,
    facts: Facts,
    children: Vec<Subtree>,
) -> Result<Vec<Subtree>, NoMemory>
    ensures { IfOk result (λ v. v.items ≡ child_wrapped facts children.items) }
{
    if is_table(facts.form) {
        gather(alloc, &RowRoundInTable { parent: facts }, children)
    } else if is_row_group(facts.form) {
        gather(alloc, &RowRoundInGroup { parent: facts }, children)
    } else if is_row(facts.form) {
        in_cells(alloc, facts, children)
    } else {
        Ok(children)
    }
}

/// Generates missing child wrappers.
pub struct WrapChildren;

impl BoxRule for WrapChildren {
    ghost made = { in_box child_wrapped };

    fn keeps(facts: Facts, children: &[Subtree]) -> bool {
        if is_table(facts.form) {
            !has_faulty(&RowRoundInTable { parent: facts }, children)
        } else if is_row_group(facts.form) {
            !has_faulty(&RowRoundInGroup { parent: facts }, children)
        } else {
            !is_row(facts.form) || !has_faulty(&CellRound { parent: facts }, children)
        }
    }

    fn make(
        alloc: Global,
        facts: Facts,
        children: Vec<Subtree>,
        out: &mut Vec<Subtree>,
    ) -> Result<(), NoMemory> {
        let children = child_wrapped(alloc, facts, children)?;
        out.push(Subtree::new(facts, children))?;
        Ok(())
    }
}
