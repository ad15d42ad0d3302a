//! The aligned subtrees of a line (CSS 2.2, 10.8.1).

ghost use Rattle.std.specs.Prelude.{◌≡◌, ◌<◌, ◌+ℤ◌, length, slice_index, IfOk, All};
ghost use Rattle.lay_units.specs.Units.{IsWithinPower};
ghost use Rattle.lay_valign.specs.Parts.{at};
ghost use Rattle.lay_valign.specs.PartsFit.{PartsFit};
ghost use Rattle.lay_valign.specs.Pass.Columns.{SubtreesFit};

use crate::parts::Part;
use crate::reaches::{aboves_of, belows_of};
use crate::rises::rises_of;
use crate::roots::roots_of;
use lay_units::NoMemory;
use std::alloc::Global;
use std::marker::Model;

/// The subtrees, as columns with a row for each part.
#[derive(Drop)]
pub struct Subtrees {
    roots: Vec<usize>,
    rises: Vec<i128>,
    aboves: Vec<i128>,
    belows: Vec<i128>,
}

impl Model for Subtrees {
    ghost use Rattle.lay_valign.specs.Subtrees.{Subtrees};

    ghost Value = { Subtrees };

    ghost view = { λ s. record { roots = s.roots.items; rises = s.rises.items; aboves = s.aboves.items; belows = s.belows.items } };
}

impl Subtrees {
    pub fn new(alloc: Global, parts: &[Part]) -> Result<Subtrees, NoMemory>
        requires { PartsFit parts.now }
        ensures { IfOk result (λ s. SubtreesFit parts.now s) }
    {
        let roots = roots_of(alloc, parts)?;
        let rises = rises_of(alloc, parts)?;
        let aboves = aboves_of(alloc, parts, roots.as_slice(), rises.as_slice())?;
        let belows = belows_of(alloc, parts, roots.as_slice(), rises.as_slice())?;
        Ok(Subtrees {
            roots,
            rises,
            aboves,
            belows,
        })
    }

    pub fn root(&self, k: usize) -> usize
        requires { k < length self.now.roots }
        ensures { result ≡ slice_index self.now.roots k }
    {
        self.roots[k]
    }

    pub fn rise(&self, k: usize) -> i128
        requires { k < length self.now.rises }
        ensures { result ≡ at self.now.rises k }
    {
        self.rises[k]
    }

    pub fn above(&self, root: usize) -> i128
        requires place { root < length self.now.aboves }
        requires fits { All (IsWithinPower 64) self.now.aboves }
        ensures value { result ≡ at self.now.aboves root }
        ensures within { IsWithinPower 64 result }
    {
        self.aboves[root]
    }

    pub fn below(&self, root: usize) -> i128
        requires place { root < length self.now.belows }
        requires fits { All (IsWithinPower 64) self.now.belows }
        ensures value { result ≡ at self.now.belows root }
        ensures within { IsWithinPower 64 result }
    {
        self.belows[root]
    }

    pub fn height(&self, root: usize) -> i128
        requires above { root < length self.now.aboves }
        requires below { root < length self.now.belows }
        requires aboves { All (IsWithinPower 64) self.now.aboves }
        requires belows { All (IsWithinPower 64) self.now.belows }
        ensures value { result ≡ at self.now.aboves root +ℤ at self.now.belows root }
        ensures within { IsWithinPower 65 result }
    {
        self.aboves[root] + self.belows[root]
    }
}
