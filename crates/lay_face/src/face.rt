//! Faces.

ghost use Rattle.std.specs.Prelude.{◌≡◌, ◌↔◌, ◌≤◌, ◌<◌, pos, ◌*ℤ◌, All, IfOk, IsTrue, length};
ghost use Rattle.lay_units.specs.Units.{IsPosition, IsUsed};
ghost use Rattle.lay_face.specs.declared.pairs.AdvancePair.{AdvancePair as Pair};
ghost use Rattle.lay_face.specs.Clusters.{WidthsFit};
ghost use Rattle.lay_face.specs.Faces.{FaceFitsAt, IsMeasure, MeasuresAreNear, face_of, entry_of, thousandths_of};

use crate::metrics::FaceMetrics;
use crate::pairs::PairList;
use crate::table::{first_entries, is_same_table, table_entry, table_of};
use lay_units::{NoMemory, Unit};
use std::alloc::Global;
use std::collections::BTreeMap;
use std::marker::Model;

/// A face: the advances of characters, and the measures of a line. Each number is in thousandths of the
/// font size, and is at most 10,000.
#[derive(Drop)]
pub struct Face {
    table: BTreeMap<u32, u32>,
    /// The advances of the first code points, which most characters have, to be read at once.
    first: Vec<u32>,
    default_advance: u32,
    ascent: u32,
    descent: u32,
    x_height: u32,
    normal_line_height: u32,
}

impl Model for Face {
    ghost use Rattle.lay_face.specs.FaceValue.{FaceValue};
    ghost use Rattle.lay_face.specs.Faces.{IsInRange};
    ghost use Rattle.lay_face.specs.FirstEntries.{AreFirstEntries};

    ghost Value = { FaceValue };

    ghost view = { λ f. record {
      table = f.table.entries;
      default_advance = f.default_advance;
      ascent = f.ascent;
      descent = f.descent;
      x_height = f.x_height;
      normal_line_height = f.normal_line_height;
    } };

    ghost invariant = { λ f. IsInRange (record {
      table = f.table.entries;
      default_advance = f.default_advance;
      ascent = f.ascent;
      descent = f.descent;
      x_height = f.x_height;
      normal_line_height = f.normal_line_height;
    }) × AreFirstEntries f.table.entries f.default_advance f.first.items };
}

impl Face {
    /// The face with these advances, of which a later one of a code point wins, and with these metrics. Each advance is at
    /// most 10,000.
    pub fn new(alloc: Global, pairs: PairList, metrics: FaceMetrics) -> Result<Face, NoMemory>
        requires { All (λ (p : Pair). p.advance ≤ 10000) pairs }
        ensures { IfOk result (λ f. f ≡ face_of pairs metrics.default_advance metrics.ascent metrics.descent metrics.x_height
            metrics.normal_line_height) }
    {
        let table = table_of(alloc, pairs.as_slice())?;
        let first = first_entries(alloc, &table, metrics.default_advance)?;
        Ok(Face {
            table,
            first,
            default_advance: metrics.default_advance,
            ascent: metrics.ascent,
            descent: metrics.descent,
            x_height: metrics.x_height,
            normal_line_height: metrics.normal_line_height,
        })
    }

    /// Whether another face has the same numbers. The measures of lines are told apart first, since a table may be long.
    pub fn is_same(&self, other: &Face) -> bool
        ensures { IsTrue result ↔ (self.now ≡ other.now) }
    {
        self.default_advance == other.default_advance
            && self.ascent == other.ascent
            && self.descent == other.descent
            && self.x_height == other.x_height
            && self.normal_line_height == other.normal_line_height
            && is_same_table(&self.table, &other.table)
    }

    /// The advance of a character at this font size, rounded down. The size and the advance are below 2^62
    /// units of 1/64 px in absolute value.
    pub fn advance(&self, c: char, size: Unit) -> Unit
        requires size { IsPosition size.0 }
        requires advance { IsPosition (thousandths_of (entry_of self.now c) size.0) }
        ensures { result.0 ≡ thousandths_of (entry_of self.now c) size.0 }
    {
        thousandths(self.entry(c), size)
    }

    /// The ascent at this font size, rounded down. The size and the ascent are below 2^62 units of 1/64 px
    /// in absolute value.
    pub fn ascent(&self, size: Unit) -> Unit
        requires size { IsPosition size.0 }
        requires ascent { IsPosition (thousandths_of self.now.ascent size.0) }
        ensures { result.0 ≡ thousandths_of self.now.ascent size.0 }
    {
        thousandths(self.ascent, size)
    }

    /// The descent at this font size, rounded down, with the same conditions.
    pub fn descent(&self, size: Unit) -> Unit
        requires size { IsPosition size.0 }
        requires descent { IsPosition (thousandths_of self.now.descent size.0) }
        ensures { result.0 ≡ thousandths_of self.now.descent size.0 }
    {
        thousandths(self.descent, size)
    }

    /// The x-height at this font size, rounded down, with the same conditions.
    pub fn x_height(&self, size: Unit) -> Unit
        requires size { IsPosition size.0 }
        requires x_height { IsPosition (thousandths_of self.now.x_height size.0) }
        ensures { result.0 ≡ thousandths_of self.now.x_height size.0 }
    {
        thousandths(self.x_height, size)
    }

    /// What `line-height: normal` is at this font size, rounded down, with the same conditions.
    pub fn normal_line_height(&self, size: Unit) -> Unit
        requires size { IsPosition size.0 }
        requires line_height { IsPosition (thousandths_of self.now.normal_line_height size.0) }
        ensures { result.0 ≡ thousandths_of self.now.normal_line_height size.0 }
    {
        thousandths(self.normal_line_height, size)
    }

    /// The measures of a face at a used font size meet the conditions of the calls above, since its numbers
    /// are at most 10,000. Does nothing.
    pub fn fits_at(&self, size: Unit)
        requires { IsUsed size.0 }
        ensures { FaceFitsAt self.now size.0 }
    {
        let _ = &self.table;
    }

    /// The measures of lines of a face at a used font size are at most ten times the greatest used length, since its
    /// numbers are at most 10,000. Does nothing.
    pub fn measures_are_near(&self, size: Unit)
        requires { IsUsed size.0 }
        ensures { MeasuresAreNear self.now size.0 }
    {
        let _ = &self.table;
    }

    /// Used lengths and a text of at most 2^20 bytes meet the condition of `cluster_widths`, since the
    /// numbers of a face are at most 10,000. Does nothing.
    pub fn widths_fit(&self, text: &str, size: Unit, letter: Unit, word: Unit)
        requires text { length text.now ≤ 1048576 }
        requires size { IsUsed size.0 }
        requires letter { IsUsed letter.0 }
        requires word { IsUsed word.0 }
        ensures { WidthsFit self.now (record { size = size; letter = letter; word = word }) text.now }
    {
        let _ = &self.table;
    }

    /// The advance of a character of ASCII at a used font size, in 1/64 px, rounded down: at most ten times the greatest used
    /// length from 0.
    pub fn ascii_advance(&self, byte: u8, size: Unit) -> Unit
        requires ascii { byte < 128 }
        requires size { IsUsed size.0 }
        ensures value { result.0 ≡ thousandths_of (entry_of self.now byte) size.0 }
        ensures near { IsMeasure result.0 }
    {
        near_thousandths(self.ascii_entry(byte), size)
    }

    fn ascii_entry(&self, byte: u8) -> u32
        requires ascii { byte < 128 }
        ensures value { result ≡ entry_of self.now byte }
        ensures most { result ≤ 10000 }
    {
        self.first[byte as usize]
    }

    fn entry(&self, c: char) -> u32
        ensures { result ≡ entry_of self.now c }
    {
        match self.first.get(c as usize) {
            Some(advance) => *advance,
            None => table_entry(&self.table, u32::from(c)).unwrap_or(self.default_advance),
        }
    }
}

/// In 64 bits where the product fits them, since a division of 128 bits takes much longer.
fn thousandths(number: u32, size: Unit) -> Unit
    requires size { IsPosition size.0 }
    requires result { IsPosition (thousandths_of number size.0) }
    ensures { result.0 ≡ thousandths_of number size.0 }
{
    match i64::from(number).checked_mul(size.0) {
        Some(product) => Unit(product.div_euclid(1000)),
        None => wide_thousandths(number, size),
    }
}

/// The same of few thousandths of a used font size, which 64 bits hold.
fn near_thousandths(number: u32, size: Unit) -> Unit
    requires number { number ≤ 10000 }
    requires size { IsUsed size.0 }
    ensures value { result.0 ≡ thousandths_of number size.0 }
    ensures near { IsMeasure result.0 }
{
    Unit((i64::from(number) * size.0).div_euclid(1000))
}

fn wide_thousandths(number: u32, size: Unit) -> Unit
    requires size { IsPosition size.0 }
    requires result { IsPosition (thousandths_of number size.0) }
    ensures { result.0 ≡ thousandths_of number size.0 }
{
    Unit(product(number, size).div_euclid(1000) as i64)
}

fn product(number: u32, size: Unit) -> i128
    ensures { result ≡ pos number *ℤ size.0 }
{
    i128::from(number) * i128::from(size.0)
}
