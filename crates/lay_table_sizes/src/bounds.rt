//! How narrow and how wide a table of the automatic layout asks to be.

ghost use Rattle.std.specs.Prelude.{◌≡◌, ◌≤◌, ◌-ℤ◌, ◌≤ℤ◌, All, IfOk, length};
ghost use Rattle.lay_units.specs.Units.{IsSize};
ghost use Rattle.lay_grid.specs.Automatic.AutoColumns.{AreAutoColumns};
ghost use Rattle.lay_grid.specs.Automatic.Bounds.{bound_at};
ghost use Rattle.lay_grid.specs.Automatic.Fit.{BoundFits};
ghost use Rattle.lay_table_grid.specs.GridBounds.{PlacesAreBelow};
ghost use Rattle.lay_table_sizes.specs.ColumnBounds.{least_content, spaces};
ghost use Rattle.lay_table_sizes.specs.Bounds.{most_columns};
ghost use Rattle.lay_table_sizes.specs.TableBounds.{HasBounds, TableBoundsFit, bounds_of_columns, columns_or_none, first_bounds, no_bounds};

use crate::caption_widths::captions_minimum;
use crate::column_bounds::{auto_columns, table_bounds};
use lay_box_tree::BoxNode;
use lay_grid::automatic::{Bound, BoundList};
use lay_measure::PreferredWidths;
use lay_table_grid::TableGrid;
use lay_units::{NoMemory, Unit, UnitList};
use std::alloc::Global;
use std::marker::Model;
use std::sync::Arc;

/// How narrow and how wide the columns of a table ask to be, and how narrow its captions can be with their margins, in 1/64 px. Whoever
/// is given them shares them. There are no columns where a table isn't laid out by the automatic algorithm.
#[derive(Drop)]
pub struct TableBounds {
    columns: Option<Arc<BoundList>>,
    captions: Unit,
}

impl Model for TableBounds {
    ghost use Rattle.lay_table_sizes.specs.TableBounds.{TableBoundsFit, TableBoundsValue, columns_or_none};

    ghost Value = { TableBoundsValue };

    ghost view = { λ t. record { columns = columns_or_none t.columns; captions = t.captions } };

    ghost invariant = { λ t. TableBoundsFit (record { columns = columns_or_none t.columns; captions = t.captions }) };
}

impl TableBounds {
    /// Those of what is no such table.
    pub fn none() -> TableBounds
        ensures { result ≡ no_bounds }
    {
        TableBounds {
            columns: None,
            captions: Unit(0),
        }
    }

    /// These.
    pub(crate) fn new(
        alloc: Global,
        columns: BoundList,
        captions: Unit,
    ) -> Result<TableBounds, NoMemory>
        requires { All BoundFits columns }
        ensures { IfOk result (λ t. t ≡ record { columns = columns; captions = captions }) }
    {
        let columns = Arc::new(alloc, columns)?;
        Ok(TableBounds {
            columns: Some(columns),
            captions,
        })
    }

    /// The bounds of its columns, in order.
    pub fn columns(&self) -> &[Bound]
        ensures columns { result.now ≡ self.now.columns }
        ensures fit { TableBoundsFit self.now }
    {
        match &self.columns {
            Some(columns) => columns.as_slice(),
            None => &[],
        }
    }

    /// The widths of the columns of a table that is so wide, which is no less than at their minimums with the spacings.
    pub(crate) fn columns_in(
        &self,
        alloc: Global,
        grid: &TableGrid,
        width: Unit,
    ) -> Result<UnitList, NoMemory>
        requires few { grid.now.columns ≤ most_columns }
        requires count { length self.now.columns ≡ grid.now.columns }
        requires width { IsSize width.0 }
        requires least { least_content grid.now self.now.columns ≤ℤ width.0 }
        ensures { IfOk result (AreAutoColumns self.now.columns (width.0 -ℤ spaces grid.now)) }
    {
        match &self.columns {
            Some(columns) => auto_columns(alloc, grid, columns, width),
            None => auto_columns(alloc, grid, &BoundList::new(Vec::new(alloc)), width),
        }
    }

    /// How narrow its captions can be.
    pub fn captions(&self) -> Unit
        ensures { result ≡ self.now.captions }
    {
        self.captions
    }

    /// The bounds of so many columns: the first of these, and columns of which nothing is asked where there are fewer.
    pub(crate) fn of_columns(&self, alloc: Global, count: usize) -> Result<TableBounds, NoMemory>
        ensures { IfOk result (λ t. t ≡ bounds_of_columns count self.now) }
    {
        let columns = first_bounds(alloc, self.columns(), count)?;
        TableBounds::new(alloc, columns, self.captions)
    }

    /// The bounds, shared: none is copied.
    pub fn share(&self) -> Result<TableBounds, NoMemory>
        ensures { IfOk result (λ t. t ≡ self.now) }
    {
        let columns = self.shared_columns()?;
        Ok(TableBounds {
            columns,
            captions: self.captions,
        })
    }

    fn shared_columns(&self) -> Result<Option<Arc<BoundList>>, NoMemory>
        ensures { IfOk result (λ c. columns_or_none c ≡ self.now.columns) }
    {
        match &self.columns {
            Some(columns) => Ok(Some(columns.clone()?)),
            None => Ok(None),
        }
    }
}

/// The first so many of these bounds.
fn first_bounds(alloc: Global, bounds: &[Bound], count: usize) -> Result<BoundList, NoMemory>
    requires { All BoundFits bounds.now }
    ensures bounds { IfOk result (λ v. v ≡ first_bounds bounds.now count) }
    ensures fit { IfOk result (All BoundFits) }
{
    let mut first = Vec::with_capacity(alloc, count)?;
    for k in 0..count {
        first.push(bound_at(bounds, k))?;
    }
    Ok(BoundList::new(first))
}

/// The bounds at k. Behind the last ones nothing is asked.
fn bound_at(bounds: &[Bound], k: usize) -> Bound
    ensures { result ≡ bound_at bounds.now k }
{
    match bounds.get(k) {
        Some(bound) => *bound,
        None => Bound {
            min: Unit(0),
            max: Unit(0),
        },
    }
}

/// Those of the table of these boxes, beside the preferred widths of the content of its cells and captions.
pub(crate) fn bounds_of(
    alloc: Global,
    boxes: &[BoxNode],
    inner: &[PreferredWidths],
    grid: &TableGrid,
) -> Result<TableBounds, NoMemory>
    requires places { PlacesAreBelow (length boxes.now) grid.now }
    requires few { grid.now.columns ≤ most_columns }
    ensures { IfOk result (HasBounds boxes.now inner.now grid.now) }
{
    let columns = table_bounds(alloc, boxes, inner, grid)?;
    TableBounds::new(alloc, columns, captions_minimum(boxes, inner)?)
}
