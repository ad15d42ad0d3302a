//! The face of a run.

ghost use Rattle.std.specs.Prelude.{◌≡◌, ◌≤◌, ◌++◌, ◌∷◌, [], All, IfOk, IfSome, OnOk, option_map};
ghost use Rattle.serde_json.specs.View.{view, items_view};
ghost use Rattle.lay_face.specs.declared.pairs.AdvancePair.{AdvancePair as Pair};
ghost use Rattle.lay_json.specs.Fields.{Gives, number_or};
ghost use Rattle.lay_json.specs.FaceFields.{are_pairs, pair_of, pairs_from, few_pairs, pairs_of, advances, face_in, default_face, run_face};

use crate::fault::{Field, InputFault, Spot};
use crate::fields::{
    Bounds, has_at_most, is_pair, list_of, number_or, object_of, pair_within, value_in,
};
use lay_face::{AdvancePair, Face, FaceMetrics, PairList};
use lay_units::NoMemory;
use serde_json::Value;
use std::alloc::Global;

const MOST_PAIRS: usize = 65536;

/// An advance or a metric of the face, in thousandths of the font size.
const THOUSANDTHS: Bounds = Bounds {
    low: 0,
    high: 10000,
};

fn are_pairs(items: &[Value]) -> bool
    ensures { result ≡ are_pairs (items_view items.now) }
{
    for value in items {
        if !is_pair(value) {
            return false;
        }
    }
    true
}

/// A code point and its advance.
fn pair_of(value: &Value) -> Option<AdvancePair>
    ensures value { result ≡ pair_of (view value.now) }
    ensures advance { IfSome result (λ p. p.advance ≤ 10000) }
{
    let (code_point, advance) = pair_within(0, 1114111, 10000, value)?;
    Some(AdvancePair {
        code_point: code_point as u32,
        advance: advance as u32,
    })
}

/// Adds a pair as the last one.
fn add(pairs: &mut Vec<AdvancePair>, pair: AdvancePair) -> Result<(), NoMemory>
    requires pair { pair.advance ≤ 10000 }
    requires pairs { All (λ (p : Pair). p.advance ≤ 10000) pairs.old.items }
    ensures value { OnOk result (pairs.new.items ≡ pairs.old.items ++ pair ∷ []) }
    ensures advances { OnOk result (All (λ (p : Pair). p.advance ≤ 10000) pairs.new.items) }
{
    pairs.push(pair)?;
    Ok(())
}

/// The pairs of a list, where all numbers are in their ranges.
fn pairs_in(alloc: Global, items: &[Value]) -> Result<Option<Vec<AdvancePair>>, NoMemory>
    ensures value { IfOk result (λ o. option_map (λ v. v.items) o ≡ pairs_from [] (items_view items.now)) }
    ensures advances { IfOk result (λ o. IfSome o (λ v. All (λ (p : Pair). p.advance ≤ 10000) v.items)) }
{
    let mut pairs = Vec::new(alloc);
    for value in items {
        let Some(pair) = pair_of(value) else {
            return Ok(None);
        };
        add(&mut pairs, pair)?;
    }
    Ok(Some(pairs))
}

/// At most 65,536 pairs with numbers in their ranges.
fn few_pairs(alloc: Global, items: &[Value]) -> Result<Option<Vec<AdvancePair>>, NoMemory>
    ensures value { IfOk result (λ o. option_map (λ v. v.items) o ≡ few_pairs (items_view items.now)) }
    ensures advances { IfOk result (λ o. IfSome o (λ v. All (λ (p : Pair). p.advance ≤ 10000) v.items)) }
{
    if !has_at_most(MOST_PAIRS, items) {
        return Ok(None);
    }
    pairs_in(alloc, items)
}

/// The pairs of a list that must be one of pairs.
fn pairs_of(alloc: Global, items: &[Value]) -> Result<PairList, InputFault>
    ensures value { Gives result (pairs_of (items_view items.now)) }
    ensures advances { IfOk result (λ v. All (λ (p : Pair). p.advance ≤ 10000) v) }
{
    let field = Field::Advance;
    let place = Spot::Run;
    if !are_pairs(items) {
        return Err(InputFault::WrongKind { field, place });
    }
    match few_pairs(alloc, items)? {
        Some(pairs) => Ok(PairList::new(pairs)),
        None => Err(InputFault::BadNumber { field, place }),
    }
}

fn advances(alloc: Global, face: &Value) -> Result<PairList, InputFault>
    ensures value { Gives result (advances (view face.now)) }
    ensures advances { IfOk result (λ v. All (λ (p : Pair). p.advance ≤ 10000) v) }
{
    match value_in(face, Field::Advance) {
        Some(value) => pairs_of(alloc, list_of(value, Field::Advance, Spot::Run)?),
        None => Ok(PairList::new(Vec::new(alloc))),
    }
}

/// A number of thousandths, 0 to 10,000.
fn thousandths(absent: u32, face: &Value, field: Field) -> Result<u32, InputFault>
    requires { absent ≤ 10000 }
    ensures value { result ≡ number_or absent 0 10000 field Spot.Run (view face.now) }
    ensures high { IfOk result (λ n. n ≤ 10000) }
{
    let n = number_or(u64::from(absent), THOUSANDTHS, face, field, Spot::Run)?;
    Ok(n as u32)
}

/// The face of these fields, which are judged in order.
fn face_in(alloc: Global, face: &Value) -> Result<Face, InputFault>
    ensures { Gives result (face_in (view face.now)) }
{
    let pairs = advances(alloc, face)?;
    let metrics = FaceMetrics {
        default_advance: thousandths(500, face, Field::Default)?,
        ascent: thousandths(750, face, Field::Ascent)?,
        descent: thousandths(250, face, Field::Descent)?,
        x_height: thousandths(500, face, Field::XHeight)?,
        normal_line_height: thousandths(1250, face, Field::Normal)?,
    };
    Ok(Face::new(alloc, pairs, metrics)?)
}

fn default_face(alloc: Global) -> Result<Face, NoMemory>
    ensures { IfOk result (λ f. f ≡ default_face) }
{
    let pairs = PairList::new(Vec::new(alloc));
    let metrics = FaceMetrics {
        default_advance: 500,
        ascent: 750,
        descent: 250,
        x_height: 500,
        normal_line_height: 1250,
    };
    Face::new(alloc, pairs, metrics)
}

/// The face of a run, which is the default face where the run names none.
pub(crate) fn run_face(alloc: Global, run: &Value) -> Result<Face, InputFault>
    ensures { Gives result (run_face (view run.now)) }
{
    let Some(face) = value_in(run, Field::Face) else {
        return Ok(default_face(alloc)?);
    };
    object_of(face, Field::Face, Spot::Run)?;
    face_in(alloc, face)
}
