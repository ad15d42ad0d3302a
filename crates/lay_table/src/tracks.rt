//! Rows below each other, and columns beside each other.

ghost use Rattle.std.specs.Prelude.{◌≡◌, ◌+◌, ◌≤◌, ◌<◌, length, IfOk};
ghost use Rattle.lay_units.specs.Units.{IsNear};
ghost use Rattle.lay_flow.specs.Blocks.Lengths.{length_at};
ghost use Rattle.lay_table.specs.Tracks.{end_of, extent_of, start_of};
ghost use Rattle.lay_table.specs.TrackStarts.{AreStarts};

use crate::near::near_difference;
use lay_placements::near_sum;
use lay_units::{NoMemory, Unit};
use std::alloc::Global;
use std::marker::Model;

/// The rows or the columns of a table (CSS 2.2, 17.5 and 17.6.1): how high or wide each is, what is between them, and where each
/// begins, in 1/64 px.
#[derive(Drop)]
pub struct Tracks {
    lengths: Vec<Unit>,
    spacing: Unit,
    /// Of each track, and where the next one would begin.
    starts: Vec<Unit>,
}

impl Model for Tracks {
    ghost use Rattle.std.specs.Prelude.{length};
    ghost use Rattle.lay_table.specs.TrackStarts.{AreStarts};
    ghost use Rattle.lay_table.specs.Tracks.{Tracks as Plain};

    ghost Value = { Plain };

    ghost view = { λ t. record { lengths = t.lengths.items; spacing = t.spacing } };

    ghost invariant = { λ t.
        AreStarts (record { lengths = t.lengths.items; spacing = t.spacing }) (length t.lengths.items) t.starts.items };
}

impl Tracks {
    /// Tracks of these lengths. NoMemory is also the answer where one begins more than 2^60 units away.
    pub fn new(alloc: Global, lengths: Vec<Unit>, spacing: Unit) -> Result<Tracks, NoMemory>
        ensures { IfOk result (λ t. t ≡ record { lengths = lengths.items; spacing = spacing }) }
    {
        let starts = starts_of(alloc, &lengths, spacing)?;
        Ok(Tracks {
            lengths,
            spacing,
            starts,
        })
    }

    /// How many there are.
    pub fn len(&self) -> usize
        ensures { result ≡ length self.now.lengths }
    {
        self.lengths.len()
    }

    /// How high or wide the track k is.
    pub fn length(&self, k: usize) -> Unit
        requires { k < length self.now.lengths }
        ensures { result ≡ record { 0 = length_at self.now.lengths k } }
    {
        self.lengths[k]
    }

    /// Where the track k begins, or the next one after all would.
    pub fn start(&self, k: usize) -> Unit
        requires { k ≤ length self.now.lengths }
        ensures value { result ≡ record { 0 = start_of self.now k } }
        ensures near { IsNear result.0 }
    {
        start_at(&self.starts, k)
    }

    /// Where the next one would begin.
    pub(crate) fn end(&self) -> Unit
        ensures { result ≡ record { 0 = end_of self.now } }
    {
        self.start(self.len())
    }

    /// How far so many tracks reach, from this one on. NoMemory is the answer where it is more than 2^60 units, or there are
    /// fewer tracks.
    pub fn extent(&self, first: usize, count: usize) -> Result<Unit, NoMemory>
        ensures value { IfOk result (λ u. u ≡ record { 0 = extent_of self.now first count }) }
        ensures near { IfOk result (λ u. IsNear u.0) }
    {
        if first > self.len() || count > self.len() - first {
            return Err(NoMemory);
        }
        let end = near_difference(self.start(first + count), self.spacing)?;
        near_difference(end, self.start(first))
    }
}

fn start_at(starts: &[Unit], k: usize) -> Unit
    requires { k < length starts.now }
    ensures { result ≡ record { 0 = length_at starts.now k } }
{
    starts[k]
}

/// Where each of these begins, and where the next one would.
fn starts_of(alloc: Global, lengths: &[Unit], spacing: Unit) -> Result<Vec<Unit>, NoMemory>
    ensures { IfOk result (λ starts. AreStarts (record { lengths = lengths.now; spacing = spacing }) (length lengths.now) starts.items) }
{
    let mut starts = Vec::new(alloc);
    let mut start = near_sum(spacing, Unit(0))?;
    starts.push(start)?;
    for k in 0..lengths.len() {
        start = near_sum(near_sum(start, lengths[k])?, spacing)?;
        starts.push(start)?;
    }
    Ok(starts)
}
