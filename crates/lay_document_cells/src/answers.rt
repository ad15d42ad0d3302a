//! What claims of the cells of a document are answered.

use lay_cell_work::Claim;
use lay_shape::CellKey;

/// What a claim of a key comes to.
#[derive(Drop)]
pub enum Answer {
    /// The caller is to compute the value, and to finish it.
    Granted(Claim),
    /// The kept value is that of what the cell is given now, and the cell is clean.
    Reused,
    /// The cell is clean.
    Clean,
    /// The cell depends on this one, which is dirty, and on none before it that is.
    Waiting(CellKey),
    /// The open claim of this number is for what the cell is given now.
    Taken(u64),
    /// No cell has the key.
    Gone,
    /// Too many numbers are drawn for another claim.
    Spent,
    /// Memory ran out, and nothing has changed.
    NoMemory,
}

/// What a claim of the next cell comes to.
#[derive(Drop)]
pub enum Next {
    /// The caller is to compute the value, and to finish it.
    Granted(Claim),
    /// No cell is dirty.
    Settled,
    /// Each cell that is ready is claimed, and this is the least number of their claims.
    Busy(u64),
    /// Too many numbers are drawn for another claim.
    Spent,
    /// Memory ran out, and no claim was granted.
    NoMemory,
}
