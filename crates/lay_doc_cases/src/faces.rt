//! Faces. The calls:
//!
//!     face ADVANCE ASCENT DESCENT X-HEIGHT LINE-HEIGHT with CODE-POINT=ADVANCE ..
//!     advance CODE-POINT SIZE
//!     measures SIZE                 ascent, descent, x-height and normal line height
//!
//! A face's numbers are thousandths of the font size, at most 10,000; sizes and answers are in 1/64 px.

ghost use Rattle.std.specs.Prelude.{◌≤◌, All, IfSome, IfOk};
ghost use Rattle.lay_face.specs.declared.pairs.AdvancePair.{AdvancePair as Pair};

use crate::case::Subject;
use crate::notation::{done, shown};
use lay_face::{AdvancePair, Face, FaceMetrics, PairList};
use lay_units::{NoMemory, Unit};
use std::alloc::Global;

/// The face that was made last.
#[derive(Drop)]
pub(crate) struct OneFace {
    face: Option<Face>,
}

impl OneFace {
    /// No face yet.
    pub(crate) fn new() -> OneFace {
        OneFace { face: None }
    }

    fn make(&mut self, alloc: Global, rest: &str) -> Result<Option<String>, NoMemory> {
        self.face = face(alloc, rest)?;
        match self.face {
            Some(_) => done(alloc),
            None => Ok(None),
        }
    }

    fn advance(&self, alloc: Global, rest: &str) -> Result<Option<String>, NoMemory> {
        match self.advance_of(rest) {
            Some(advance) => Ok(Some(shown(alloc, advance.0)?)),
            None => Ok(None),
        }
    }

    fn advance_of(&self, rest: &str) -> Option<Unit> {
        let (code_point, size) = rest.split_once(' ')?;
        let c = char::from_u32(code_point.parse::<u32>().ok()?)?;
        let size = Unit(i64::from(size.parse::<i32>().ok()?));
        let face = self.face.as_ref()?;
        face.fits_at(size);
        Some(face.advance(c, size))
    }

    fn measures(&self, alloc: Global, rest: &str) -> Result<Option<String>, NoMemory> {
        let (Some(face), Ok(size)) = (&self.face, rest.parse::<i32>()) else {
            return Ok(None);
        };
        let size = Unit(i64::from(size));
        face.fits_at(size);
        let ascent = face.ascent(size).0;
        let descent = face.descent(size).0;
        let x_height = face.x_height(size).0;
        let line_height = face.normal_line_height(size).0;
        Ok(Some(format!(in alloc; "{ascent} {descent} {x_height} {line_height}")?))
    }
}

impl Subject for OneFace {
    fn answer(&mut self, alloc: Global, line: &str) -> Result<Option<String>, NoMemory> {
        match line.split_once(' ') {
            Some(("face", rest)) => self.make(alloc, rest),
            Some(("advance", rest)) => self.advance(alloc, rest),
            Some(("measures", rest)) => self.measures(alloc, rest),
            _ => Ok(None),
        }
    }
}

/// The face of a call; None where the line is none.
fn face(alloc: Global, rest: &str) -> Result<Option<Face>, NoMemory> {
    let (metrics, pairs) = rest.split_once(" with ").unwrap_or((rest, ""));
    let Some(metrics) = metrics_of(metrics) else {
        return Ok(None);
    };
    let Some(pairs) = pairs_of(alloc, pairs)? else {
        return Ok(None);
    };
    let face = Face::new(alloc, PairList::new(pairs), metrics)?;
    Ok(Some(face))
}

/// The default advance, ascent, descent, x-height and normal line height.
fn metrics_of(text: &str) -> Option<FaceMetrics> {
    let (default, rest) = text.split_once(' ')?;
    let (ascent, rest) = rest.split_once(' ')?;
    let (descent, rest) = rest.split_once(' ')?;
    let (x_height, line_height) = rest.split_once(' ')?;
    Some(FaceMetrics {
        default_advance: thousandths(default)?,
        ascent: thousandths(ascent)?,
        descent: thousandths(descent)?,
        x_height: thousandths(x_height)?,
        normal_line_height: thousandths(line_height)?,
    })
}

/// Pairs `CODE-POINT=ADVANCE` with blanks between them.
fn pairs_of(alloc: Global, text: &str) -> Result<Option<Vec<AdvancePair>>, NoMemory>
    ensures { IfOk result (λ o. IfSome o (λ v. All (λ (p : Pair). p.advance ≤ 10000) v.items)) }
{
    let mut pairs = Vec::new(alloc);
    for word in text.split(' ') {
        if !has_added(&mut pairs, word)? {
            return Ok(None);
        }
    }
    Ok(Some(pairs))
}

/// Adds the pair of a word; false where the word is none.
fn has_added(pairs: &mut Vec<AdvancePair>, word: &str) -> Result<bool, NoMemory>
    requires { All (λ (p : Pair). p.advance ≤ 10000) pairs.old.items }
    ensures { All (λ (p : Pair). p.advance ≤ 10000) pairs.new.items }
{
    let Some(pair) = pair_of(word) else {
        return Ok(false);
    };
    pairs.push(pair)?;
    Ok(true)
}

fn pair_of(text: &str) -> Option<AdvancePair>
    ensures { IfSome result (λ p. p.advance ≤ 10000) }
{
    let (code_point, advance) = text.split_once('=')?;
    let code_point = code_point.parse::<u32>().ok()?;
    let advance = thousandths(advance)?;
    Some(AdvancePair {
        code_point,
        advance,
    })
}

/// A number of a face.
fn thousandths(text: &str) -> Option<u32>
    ensures { IfSome result (λ n. n ≤ 10000) }
{
    let number = text.parse::<u32>().ok()?;
    if number <= 10000 { Some(number) } else { None }
}
