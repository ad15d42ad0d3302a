//! The kind of work that the cells of a layout keep.

use crate::cell_input::CellInput;
use crate::cell_value::CellValue;
use crate::claim::Claim;
use crate::same::same_cell_input;
use lay_cells::{Done, Work};
use lay_shape::CellKey;

/// A layout by cells: a phase of a context is worked out of what its roots are given.
pub struct Layout;

impl Work for Layout {
    ghost use Rattle.std.proofs.Common.{rules};
    ghost use Rattle.lay_cell_work.specs.CellLocal.{IsCellLocal};

    type Key = CellKey;

    type Input = CellInput;

    type Value = CellValue;

    ghost relates = { IsCellLocal };

    fn same(a: &CellInput, b: &CellInput) -> bool {
        same_cell_input(a, b)
    }

    ghost exact = { Prim.search rules };
}

/// What is worked out can be given to another thread, and be shared with it.
pub fn work_crosses_threads() {
    crosses::<CellInput>();
    crosses::<CellValue>();
    crosses::<Claim>();
    crosses::<Done<Layout>>();
}

fn crosses<T: Send + Sync>() {}
