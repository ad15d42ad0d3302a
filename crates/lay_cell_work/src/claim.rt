//! Claims.

ghost use Rattle.std.specs.Prelude.{◌≡◌, IfErr, IfOk};
ghost use Rattle.std.specs.Arc.{arc_value};
ghost use Rattle.lay_cell_work.specs.CellLocal.{IsCellLocal};

use crate::cell_input::CellInput;
use crate::computing::value_of_cell;
use crate::layout::Layout;
use lay_cells::Done;
use lay_shape::CellKey;
use lay_units::NoMemory;
use std::alloc::Global;
use std::marker::Model;
use std::sync::Arc;

/// The leave to work out what a cell answers, under a number and for what the cell is given. Whoever holds it can do so on any thread.
#[derive(Drop)]
pub struct Claim {
    key: CellKey,
    number: u64,
    input: Arc<CellInput>,
}

impl Model for Claim {
    ghost use Rattle.std.specs.Prelude.{◌≡◌};
    ghost use Rattle.std.specs.Arc.{arc_value};
    ghost use Rattle.lay_cell_work.specs.Claims.{Claim as Plain};

    ghost Value = { Plain };

    ghost view = { λ c. record { key = c.key; number = c.number; input = arc_value c.input } };

    ghost invariant = { λ c. (arc_value c.input).key ≡ c.key };
}

impl Claim {
    /// That of the cell with this key, under this number.
    pub fn new(key: CellKey, number: u64, input: Arc<CellInput>) -> Claim
        requires { (arc_value input).key ≡ key }
        ensures { result ≡ record { key = key; number = number; input = arc_value input } }
    {
        Claim { key, number, input }
    }

    /// The key of the cell.
    pub fn key(&self) -> CellKey
        ensures { result ≡ self.now.key }
    {
        self.key
    }

    /// Its number.
    pub fn number(&self) -> u64
        ensures { result ≡ self.now.number }
    {
        self.number
    }

    /// What the cell is given, which is of its key.
    pub fn input(&self) -> &Arc<CellInput>
        ensures input { arc_value result.now ≡ self.now.input }
        ensures of { self.now.input.key ≡ self.now.key }
    {
        &self.input
    }

    /// Works the value out, and keeps the claim.
    pub fn solve(&self, alloc: Global) -> Result<Done<Layout>, NoMemory>
        ensures of { IfOk result (λ d. (d.key ≡ self.now.key) × (d.number ≡ self.now.number) × (d.input ≡ self.now.input)) }
        ensures local { IfOk result (λ d. IsCellLocal d.input d.value) }
    {
        let input = self.input.clone()?;
        let value = value_of_cell(alloc, &input)?;
        let value = Arc::new(alloc, value)?;
        Ok(Done::new(self.key, self.number, input, value))
    }

    /// Works the value out. For want of memory the claim comes back as it was.
    pub fn compute(self, alloc: Global) -> Result<Done<Layout>, Claim>
        ensures of { IfOk result (λ d. (d.key ≡ self.key) × (d.number ≡ self.number) × (d.input ≡ self.input)) }
        ensures local { IfOk result (λ d. IsCellLocal d.input d.value) }
        ensures back { IfErr result (λ c. c ≡ self) }
    {
        match self.solve(alloc) {
            Ok(done) => Ok(done),
            Err(_) => Err(self),
        }
    }
}
