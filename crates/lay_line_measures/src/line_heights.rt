//! Line heights and leading.

ghost use Rattle.std.specs.Prelude.{◌≡◌, pos, ◌+ℤ◌, ◌-ℤ◌, ◌*ℤ◌, ◌≤ℤ◌};
ghost use Rattle.lay_units.specs.Units.{IsPosition, IsSum, IsUsed, IsUsedSize, half_of};
ghost use Rattle.lay_face.specs.Faces.{IsMeasure};
ghost use Rattle.lay_line_measures.specs.LineHeights.{ascent, descent, inline_extent, used_font_size, line_leading};
ghost use Rattle.lay_line_measures.specs.LineHeights.{line_height, line_height_in, with_leading, x_height};

use lay_face::Face;
use lay_lines::content::Extent;
use lay_style::{LineHeight, TextStyle};
use lay_units::{Unit, clamp_size};

/// How far an inline box of this style reaches above and below the baseline, and so the strut of a container
/// (CSS 2.2, 10.8.1).
pub(crate) fn extent_of(face: &Face, style: &TextStyle) -> Extent
    ensures { result ≡ inline_extent face.now style.now }
{
    with_leading(
        ascent(face, style),
        descent(face, style),
        line_height(face, style),
    )
}

/// How far a content area reaches above the baseline.
pub(crate) fn ascent(face: &Face, style: &TextStyle) -> Unit
    ensures value { result.0 ≡ ascent face.now style.now }
    ensures near { IsMeasure result.0 }
{
    let size = font_size(style);
    face.fits_at(size);
    face.measures_are_near(size);
    face.ascent(size)
}

/// How far it reaches below it.
pub(crate) fn descent(face: &Face, style: &TextStyle) -> Unit
    ensures value { result.0 ≡ descent face.now style.now }
    ensures near { IsMeasure result.0 }
{
    let size = font_size(style);
    face.fits_at(size);
    face.measures_are_near(size);
    face.descent(size)
}

/// How high the letters are that rise no further than an x.
pub(crate) fn x_height(face: &Face, style: &TextStyle) -> Unit
    ensures { result.0 ≡ x_height face.now style.now }
{
    let size = font_size(style);
    face.fits_at(size);
    face.x_height(size)
}

/// The used font size.
pub(crate) fn font_size(style: &TextStyle) -> Unit
    ensures value { result.0 ≡ used_font_size style.now }
    ensures used { IsUsedSize result.0 }
    ensures fits { IsUsed result.0 }
{
    clamp_size(i128::from(style.font_size.0))
}

/// The used line height.
pub(crate) fn line_height(face: &Face, style: &TextStyle) -> Unit
    ensures value { result.0 ≡ line_height face.now style.now }
    ensures used { IsUsedSize result.0 }
{
    line_height_in(face, font_size(style), style.line_height)
}

fn line_height_in(face: &Face, size: Unit, line_height: LineHeight) -> Unit
    requires { IsUsed size.0 }
    ensures value { result.0 ≡ line_height_in face.now size.0 line_height }
    ensures used { IsUsedSize result.0 }
{
    match line_height {
        LineHeight::Normal => {
            face.fits_at(size);
            clamp_size(i128::from(face.normal_line_height(size).0))
        }
        LineHeight::Number(thousandths) => {
            clamp_size(product(thousandths, size).div_euclid(1000))
        }
        LineHeight::Length(length) => clamp_size(i128::from(length.0)),
    }
}

fn product(a: i64, b: Unit) -> i128
    ensures { result ≡ a *ℤ b.0 }
{
    i128::from(a) * i128::from(b.0)
}

/// A content area with the halves of its leading.
fn with_leading(ascent: Unit, descent: Unit, height: Unit) -> Extent
    requires ascent { IsPosition ascent.0 }
    requires descent { IsPosition descent.0 }
    requires height { IsUsedSize height.0 }
    ensures { result ≡ with_leading ascent.0 descent.0 height.0 }
{
    let leading = leading(ascent, descent, height);
    let half = half_of(leading);
    Extent {
        above: moved(ascent, half),
        below: moved(descent, rest_of(leading, half)),
    }
}

fn leading(ascent: Unit, descent: Unit, height: Unit) -> i128
    requires ascent { IsPosition ascent.0 }
    requires descent { IsPosition descent.0 }
    requires height { IsUsedSize height.0 }
    ensures { result ≡ line_leading ascent.0 descent.0 height.0 }
{
    i128::from(height.0) - both(ascent, descent)
}

fn both(a: Unit, b: Unit) -> i128
    requires a { IsPosition a.0 }
    requires b { IsPosition b.0 }
    ensures value { result ≡ a.0 +ℤ b.0 }
    ensures fits { IsSum result }
{
    i128::from(a.0 + b.0)
}

/// The floor of a half.
fn half_of(leading: i128) -> i128
    ensures value { result ≡ half_of leading }
    ensures low { (pos 2 *ℤ result) ≤ℤ leading }
    ensures high { leading ≤ℤ (pos 2 *ℤ result +ℤ pos 1) }
{
    leading.div_euclid(2)
}

fn rest_of(leading: i128, half: i128) -> i128
    requires low { (pos 2 *ℤ half) ≤ℤ leading }
    requires high { leading ≤ℤ (pos 2 *ℤ half +ℤ pos 1) }
    ensures { result ≡ leading -ℤ half }
{
    leading - half
}

/// A length and some more, which comes to a length again.
fn moved(length: Unit, by: i128) -> Unit
    requires { IsSum (length.0 +ℤ by) }
    ensures { result ≡ record { 0 = length.0 +ℤ by } }
{
    Unit((i128::from(length.0) + by) as i64)
}
