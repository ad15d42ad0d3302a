//! The laws of outcomes.

ghost use Rattle.lay_cell_work.specs.OutcomeLaws.Laws.{BatchesAreOneByOne, OneWork};

use crate::cell_laws::one_cell_local;

/// A claim has one work.
pub fn one_work()
    ensures { OneWork }
{
    one_cell_local();
}

/// What a batch has done for a claim is what the claim comes to by itself.
pub fn batches_are_one_by_one()
    ensures { BatchesAreOneByOne }
{
    one_work();
}
