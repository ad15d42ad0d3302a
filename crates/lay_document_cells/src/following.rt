//! What an edit does to cells.

ghost use Rattle.std.specs.Prelude.{◌≡◌, ◌≤◌, ◌+◌, ◌^◌, IfOk, IfSome, IsTrue, OnErr, OnOk, map};
ghost use Rattle.lay_cells.specs.Progress.Grants.{laid_of_all};
ghost use Rattle.lay_shape.specs.Keys.{AreOfOwnNodes};
ghost use Rattle.lay_cells.specs.Rows.{entry_of};
ghost use Rattle.lay_shape.specs.Shapes.{shape_of};
ghost use Rattle.lay_shape.specs.KeptShapes.KeptBoxes.{AreOfSameNodes, KeepBoxes, KeepCells};
ghost use Rattle.lay_after_edits.specs.Contexts.Links.{AreRestyled};
ghost use Rattle.lay_document_cells.specs.Edits.{FollowsLists};

use crate::document_table::DocumentTable;
use lay_cell_work::Layout;
use lay_cells::progress::{marks_count, reshapes_count, reshapes_draw};
use lay_cells::{Cells, Shape, present_shape_keeps};
use lay_shape::CellKey;
use lay_shape::kept_shapes::{
    are_of_same_nodes, changed_flags, keys_of_touched, restyled_keep_cells,
};
use lay_shape::touched::changed_keys;
use lay_units::NoMemory;
use std::alloc::Global;

/// The cells of the contexts before an edit become those of the contexts after it, of which it may be known that just these boxes were made
/// anew. Answers for each context whether its boxes may have changed, where the cells keep their shape. On an error they are as before.
pub(crate) fn follow_lists(
    alloc: Global,
    cells: &mut Cells<Layout>,
    before: &DocumentTable,
    later: &DocumentTable,
    made: Option<Vec<bool>>,
) -> Result<Option<Vec<bool>>, NoMemory>
    requires apart { AreOfOwnNodes before.now.lists.contexts }
    requires later_apart { AreOfOwnNodes later.now.lists.contexts }
    requires shaped { map entry_of cells.old.rows ≡ shape_of before.now.lists.contexts }
    requires made { IfSome made (λ v. AreRestyled before.now.lists.contexts later.now.lists.contexts v.items) }
    requires draws { cells.old.draws ≤ 2 ^ 63 + 2 ^ 51 }
    ensures ok { OnOk result (FollowsLists before.now.lists later.now.lists cells.old cells.new) }
    ensures kept { IfOk result (λ o. IfSome o (λ v. KeepCells before.now.lists.contexts later.now.lists.contexts v.items)) }
    ensures few { cells.new.draws ≤ cells.old.draws + 2 ^ 18 }
    ensures counted { laid_of_all cells.new.rows ≤ laid_of_all cells.old.rows }
    ensures drawn { cells.old.draws ≤ cells.new.draws }
    ensures err { OnErr result (cells.new ≡ cells.old) }
{
    let Some(made) = made else {
        return follow_any(alloc, cells, before, later);
    };
    follow_styles(alloc, cells, before, later, &made)?;
    Ok(Some(made))
}

/// The same where the contexts keep their links, and these flags say of which the boxes were made anew.
fn follow_styles(
    alloc: Global,
    cells: &mut Cells<Layout>,
    before: &DocumentTable,
    later: &DocumentTable,
    made: &[bool],
) -> Result<(), NoMemory>
    requires apart { AreOfOwnNodes before.now.lists.contexts }
    requires shaped { map entry_of cells.old.rows ≡ shape_of before.now.lists.contexts }
    requires made { AreRestyled before.now.lists.contexts later.now.lists.contexts made.now }
    ensures ok { OnOk result (FollowsLists before.now.lists later.now.lists cells.old cells.new) }
    ensures kept { KeepCells before.now.lists.contexts later.now.lists.contexts made.now }
    ensures draws { cells.new.draws ≡ cells.old.draws }
    ensures counted { laid_of_all cells.new.rows ≤ laid_of_all cells.old.rows }
    ensures err { OnErr result (cells.new ≡ cells.old) }
{
    restyled_keep_cells();
    follow_boxes(alloc, cells, before, later, made)
}

/// The same where the cells keep their shape, and of contexts without such a flag the boxes stay.
fn follow_boxes(
    alloc: Global,
    cells: &mut Cells<Layout>,
    before: &DocumentTable,
    later: &DocumentTable,
    changed: &[bool],
) -> Result<(), NoMemory>
    requires apart { AreOfOwnNodes before.now.lists.contexts }
    requires shaped { map entry_of cells.old.rows ≡ shape_of before.now.lists.contexts }
    requires boxes { KeepBoxes before.now.lists.contexts later.now.lists.contexts changed.now }
    requires shape { shape_of later.now.lists.contexts ≡ shape_of before.now.lists.contexts }
    ensures ok { OnOk result (FollowsLists before.now.lists later.now.lists cells.old cells.new) }
    ensures draws { cells.new.draws ≡ cells.old.draws }
    ensures counted { laid_of_all cells.new.rows ≤ laid_of_all cells.old.rows }
    ensures err { OnErr result (cells.new ≡ cells.old) }
{
    present_shape_keeps::<Layout>();
    marks_count::<Layout>();
    cells.sound();
    let keys = keys_of_touched(
        alloc,
        &before.measured_list(),
        &later.measured_list(),
        changed,
    )?;
    cells.mark(&keys);
    Ok(())
}

/// The same for any contexts.
fn follow_any(
    alloc: Global,
    cells: &mut Cells<Layout>,
    before: &DocumentTable,
    later: &DocumentTable,
) -> Result<Option<Vec<bool>>, NoMemory>
    requires apart { AreOfOwnNodes before.now.lists.contexts }
    requires later_apart { AreOfOwnNodes later.now.lists.contexts }
    requires shaped { map entry_of cells.old.rows ≡ shape_of before.now.lists.contexts }
    requires draws { cells.old.draws ≤ 2 ^ 63 + 2 ^ 51 }
    ensures ok { OnOk result (FollowsLists before.now.lists later.now.lists cells.old cells.new) }
    ensures kept { IfOk result (λ o. IfSome o (λ v. KeepCells before.now.lists.contexts later.now.lists.contexts v.items)) }
    ensures few { cells.new.draws ≤ cells.old.draws + 2 ^ 18 }
    ensures counted { laid_of_all cells.new.rows ≤ laid_of_all cells.old.rows }
    ensures drawn { cells.old.draws ≤ cells.new.draws }
    ensures err { OnErr result (cells.new ≡ cells.old) }
{
    let shape = later.cells().shape(alloc)?;
    if is_shape_kept(cells, before, later, &shape) {
        let changed = changed_boxes(alloc, before, later)?;
        follow_boxes(alloc, cells, before, later, &changed)?;
        return Ok(Some(changed));
    }
    follow_shape(alloc, cells, before, later, shape)?;
    Ok(None)
}

/// Whether the contexts are of the nodes of those before, one by one, and this shape is the one that the cells have.
fn is_shape_kept(
    cells: &Cells<Layout>,
    before: &DocumentTable,
    later: &DocumentTable,
    shape: &Shape<CellKey>,
) -> bool
    ensures nodes { IsTrue result → AreOfSameNodes before.now.lists.contexts later.now.lists.contexts }
    ensures shape { IsTrue result → map entry_of cells.now.rows ≡ shape.now }
{
    are_of_same_nodes(before.cells().contexts(), later.cells().contexts())
        && cells.entries_equal(shape)
}

/// For each context whether its boxes changed, where the contexts are of the same nodes.
fn changed_boxes(
    alloc: Global,
    before: &DocumentTable,
    later: &DocumentTable,
) -> Result<Vec<bool>, NoMemory>
    requires { AreOfSameNodes before.now.lists.contexts later.now.lists.contexts }
    ensures { IfOk result (λ v. KeepBoxes before.now.lists.contexts later.now.lists.contexts v.items) }
{
    let flags = changed_flags(alloc, before.cells().contexts(), later.cells().contexts())?;
    Ok(flags)
}

/// The same where the cells take this shape.
fn follow_shape(
    alloc: Global,
    cells: &mut Cells<Layout>,
    before: &DocumentTable,
    later: &DocumentTable,
    shape: Shape<CellKey>,
) -> Result<(), NoMemory>
    requires apart { AreOfOwnNodes before.now.lists.contexts }
    requires shape { shape ≡ shape_of later.now.lists.contexts }
    requires draws { cells.old.draws ≤ 2 ^ 63 + 2 ^ 51 }
    ensures ok { OnOk result (FollowsLists before.now.lists later.now.lists cells.old cells.new) }
    ensures few { cells.new.draws ≤ cells.old.draws + 2 ^ 18 }
    ensures counted { laid_of_all cells.new.rows ≤ laid_of_all cells.old.rows }
    ensures drawn { cells.old.draws ≤ cells.new.draws }
    ensures err { OnErr result (cells.new ≡ cells.old) }
{
    marks_count::<Layout>();
    reshapes_count::<Layout>();
    reshapes_draw::<Layout>();
    let keys = changed_keys(alloc, &before.contexts(), &later.contexts())?;
    shape.shaped();
    cells.reshape(shape, &[])?;
    cells.mark(&keys);
    Ok(())
}
