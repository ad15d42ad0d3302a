//! Missing parents are generated (CSS 2.2, 17.2.1, the third stage).

ghost use Rattle.std.specs.Prelude.{◌≡◌, IfOk};
ghost use Rattle.lay_boxgen.specs.declared.facts.Facts.{Facts};
ghost use Rattle.lay_boxgen.specs.Boxes.{in_box};
ghost use Rattle.lay_boxgen.specs.MissingParents.{is_cell_in_flow, row_of_cells, cells_in_rows, is_misparented_row};
ghost use Rattle.lay_boxgen.specs.MissingParents.{is_misparented_column, is_misparented_group_or_caption};
ghost use Rattle.lay_boxgen.specs.MissingParents.{is_misparented, table_round, parented};

use crate::facts::{Facts, Form};
use crate::forms::{
    is_caption, is_cell, is_column, is_column_group, is_in_flow, is_inline, is_row, is_row_group,
    is_table,
};
use crate::runs::{RunRule, anonymous_box, gather, has_faulty};
use crate::subtree::{BoxRule, Subtree};
use lay_units::NoMemory;
use std::alloc::Global;

/// Rows go round cells.
#[derive(Clone, Copy)]
struct RowRoundCells {
    parent: Facts,
}

impl RunRule for RowRoundCells {
    ghost faulty = { λ rule. is_cell_in_flow };

    ghost closed = { λ rule. row_of_cells rule.parent };

    fn is_faulty(&self, child: Facts) -> bool {
        is_in_flow(child.flow) && is_cell(child.form)
    }

    fn close(
        &self,
        _alloc: Global,
        run: Vec<Subtree>,
        out: &mut Vec<Subtree>,
    ) -> Result<(), NoMemory> {
        out.push(anonymous_box(self.parent, Form::Row, run))?;
        Ok(())
    }
}

/// The children of a box, with cells in rows where it is none.
fn cells_in_rows(
    alloc: Global,
    facts: Facts,
    children: Vec<Subtree>,
) -> Result<Vec<Subtree>, NoMemory>
    ensures { IfOk result (λ v. v.items ≡ cells_in_rows facts children.items) }
{
    if is_row(facts.form) {
        Ok(children)
    } else {
        gather(alloc, &RowRoundCells { parent: facts }, children)
    }
}

fn is_misparented_row(parent: Form, form: Form) -> bool
    ensures { result ≡ is_misparented_row parent form }
{
    is_row(form) && !(is_row_group(parent) || is_table(parent))
}

fn is_misparented_column(parent: Form, form: Form) -> bool
    ensures { result ≡ is_misparented_column parent form }
{
    is_column(form) && !(is_column_group(parent) || is_table(parent))
}

fn is_misparented_group_or_caption(parent: Form, form: Form) -> bool
    ensures { result ≡ is_misparented_group_or_caption parent form }
{
    (is_row_group(form) || is_column_group(form) || is_caption(form)) && !is_table(parent)
}

/// Whether a child of such a box is misparented.
fn is_misparented(parent: Form, child: Facts) -> bool
    ensures { result ≡ is_misparented parent child }
{
    is_in_flow(child.flow)
        && (is_misparented_row(parent, child.form)
            || is_misparented_column(parent, child.form)
            || is_misparented_group_or_caption(parent, child.form))
}

/// Tables go round what is misparented: in an inline box inline-tables.
#[derive(Clone, Copy)]
struct TableRound {
    parent: Facts,
}

impl RunRule for TableRound {
    ghost faulty = { λ rule. is_misparented rule.parent.form };

    ghost closed = { λ rule. table_round rule.parent };

    fn is_faulty(&self, child: Facts) -> bool {
        is_misparented(self.parent.form, child)
    }

    fn close(
        &self,
        _alloc: Global,
        run: Vec<Subtree>,
        out: &mut Vec<Subtree>,
    ) -> Result<(), NoMemory> {
        let table = if is_inline(self.parent.form) {
            Form::InlineWrapper
        } else {
            Form::Wrapper
        };
        out.push(anonymous_box(self.parent, table, run))?;
        Ok(())
    }
}

/// The children of a box with the parents that were missing.
fn parented(alloc: Global, facts: Facts, children: Vec<Subtree>) -> Result<Vec<Subtree>, NoMemory>
    ensures { IfOk result (λ v. v.items ≡ parented facts children.items) }
{
    let rows = cells_in_rows(alloc, facts, children)?;
    gather(alloc, &TableRound { parent: facts }, rows)
}

/// Generates missing parents.
pub struct AddParents;

impl BoxRule for AddParents {
    ghost made = { in_box parented };

    fn keeps(facts: Facts, children: &[Subtree]) -> bool {
        (is_row(facts.form) || !has_faulty(&RowRoundCells { parent: facts }, children))
            && !has_faulty(&TableRound { parent: facts }, children)
    }

    fn make(
        alloc: Global,
        facts: Facts,
        children: Vec<Subtree>,
        out: &mut Vec<Subtree>,
    ) -> Result<(), NoMemory> {
        let children = parented(alloc, facts, children)?;
        out.push(Subtree::new(facts, children))?;
        Ok(())
    }
}
