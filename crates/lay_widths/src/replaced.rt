//! Replaced elements (CSS 2.2, 10.3.2, 10.6.2, and the table of 10.4).

ghost use Rattle.std.specs.Prelude.{◌≡◌, pos, ◌*ℤ◌, ◌≤ℤ◌, IfSome};
ghost use Rattle.lay_units.specs.Units.{IsSize};
ghost use Rattle.lay_heights.specs.MinMax.{at_least_min, at_most_max as at_most_max_of, with_min_max_of};
ghost use Rattle.lay_widths.specs.Lengths.{LenIsSize};
ghost use Rattle.lay_widths.specs.ReplacedFits.{ReplacedFits, ViolationFits};
ghost use Rattle.lay_widths.specs.ReplacedSizes.{
  IsReplacedSize,
  at_most as at_most_of,
  given_height_of,
  given_width_of,
  greatest_of,
  sizes_for,
  grown_to_height as grown_to_height_of,
  grown_to_width as grown_to_width_of,
  height_beside,
  is_less_of,
  natural_length,
  shrunk_to_height as shrunk_to_height_of,
  shrunk_to_width as shrunk_to_width_of,
  sizes_of,
  violation_of,
  width_beside,
};

use lay_units::{Len, Unit, clamp_size};

/// What the used size of a replaced element depends on, in 1/64 px. Bounds and given sizes are from 0, with
/// percentages resolved.
#[derive(Clone, Copy)]
pub struct ReplacedIn {
    /// From 1.
    pub natural_width: Unit,
    /// From 1.
    pub natural_height: Unit,
    pub width: Len,
    pub height: Len,
    pub min_width: Unit,
    /// None where `max-width` is `none`.
    pub max_width: Option<Unit>,
    pub min_height: Unit,
    /// None where `max-height` is `none`.
    pub max_height: Option<Unit>,
}

/// The used width and height of a replaced element, from 0 to 2^31 units of 1/64 px.
#[derive(Clone, Copy)]
pub struct ReplacedSize {
    pub width: Unit,
    pub height: Unit,
}

/// A width and a height before they are held within the bounds of used lengths.
#[derive(Clone, Copy)]
pub struct Sizes {
    pub width: i128,
    pub height: i128,
}

/// Which bound a natural size violates, if any.
#[derive(Clone, Copy)]
pub enum Violation {
    /// It is greater than its maximum, which this is.
    Above(i128),
    /// It is less than its minimum, which this is.
    Below(i128),
    Within,
}

/// A natural size, which is from 1 unit on.
pub fn natural_length(length: Unit) -> Unit
    ensures value { result ≡ natural_length length }
    ensures size { IsSize result.0 }
    ensures positive { pos 1 ≤ℤ result.0 }
{
    Unit(clamp_size(i128::from(length.0)).0.max(1))
}

/// The used size of a replaced element. The lengths given are below 2^62 units of 1/64 px.
//
// 1. A given size is held within its bounds, and one that is auto beside it follows by the natural ratio, rounded
//    down, and is then held within its own bounds (10.3.2, 10.6.2).
// 2. Where both are auto, the natural sizes count, changed by the table of 10.4 where they violate a bound.
pub fn replaced_size(replaced: &ReplacedIn) -> ReplacedSize
    requires fits { ReplacedFits replaced.now }
    ensures { IsReplacedSize replaced.now result }
{
    let sizes = solved(replaced, replaced.width, replaced.height);
    ReplacedSize {
        width: clamp_size(sizes.width),
        height: clamp_size(sizes.height),
    }
}

fn solved(replaced: &ReplacedIn, width: Len, height: Len) -> Sizes
    requires fits { ReplacedFits replaced.now }
    requires width { LenIsSize width }
    requires height { LenIsSize height }
    ensures { result ≡ sizes_for replaced.now width height }
{
    match (width, height) {
        (Len::Of(width), Len::Of(height)) => Sizes {
            width: given_width(replaced, width),
            height: given_height(replaced, height),
        },
        (Len::Of(width), Len::Auto) => height_follows(replaced, given_width(replaced, width)),
        (Len::Auto, Len::Of(height)) => width_follows(replaced, given_height(replaced, height)),
        (Len::Auto, Len::Auto) => natural_sizes(
            replaced,
            violated(
                replaced.min_width,
                replaced.max_width,
                replaced.natural_width,
            ),
            violated(
                replaced.min_height,
                replaced.max_height,
                replaced.natural_height,
            ),
        ),
    }
}

fn given_width(replaced: &ReplacedIn, width: Unit) -> i128
    requires fits { ReplacedFits replaced.now }
    requires width { IsSize width.0 }
    ensures value { result ≡ given_width_of replaced.now width }
    ensures fits { IsSize result }
{
    bounded(i128::from(width.0), replaced.min_width, replaced.max_width)
}

fn given_height(replaced: &ReplacedIn, height: Unit) -> i128
    requires fits { ReplacedFits replaced.now }
    requires height { IsSize height.0 }
    ensures value { result ≡ given_height_of replaced.now height }
    ensures fits { IsSize result }
{
    bounded(
        i128::from(height.0),
        replaced.min_height,
        replaced.max_height,
    )
}

fn height_follows(replaced: &ReplacedIn, width: i128) -> Sizes
    requires fits { ReplacedFits replaced.now }
    requires width { IsSize width }
    ensures { result ≡ record {
      width = width;
      height = with_min_max_of (height_beside replaced.now width) replaced.now.min_height.0 replaced.now.max_height;
    } }
{
    Sizes {
        width,
        height: bounded(
            height_for(replaced, width),
            replaced.min_height,
            replaced.max_height,
        ),
    }
}

fn width_follows(replaced: &ReplacedIn, height: i128) -> Sizes
    requires fits { ReplacedFits replaced.now }
    requires height { IsSize height }
    ensures { result ≡ record {
      width = with_min_max_of (width_beside replaced.now height) replaced.now.min_width.0 replaced.now.max_width;
      height = height;
    } }
{
    Sizes {
        width: bounded(
            width_for(replaced, height),
            replaced.min_width,
            replaced.max_width,
        ),
        height,
    }
}

// The table of 10.4. Where both sizes are above their maximum, or both below their minimum, that bound counts which
// changes the size more.
fn natural_sizes(replaced: &ReplacedIn, width: Violation, height: Violation) -> Sizes
    requires fits { ReplacedFits replaced.now }
    requires width { ViolationFits width }
    requires height { ViolationFits height }
    ensures { result ≡ sizes_of replaced.now width height }
{
    match (width, height) {
        (Violation::Within, Violation::Within) => Sizes {
            width: i128::from(replaced.natural_width.0),
            height: i128::from(replaced.natural_height.0),
        },
        (Violation::Above(width), Violation::Within) => shrunk_to_width(replaced, width),
        (Violation::Below(width), Violation::Within) => grown_to_width(replaced, width),
        (Violation::Within, Violation::Above(height)) => shrunk_to_height(replaced, height),
        (Violation::Within, Violation::Below(height)) => grown_to_height(replaced, height),
        (Violation::Above(width), Violation::Above(height)) => {
            if is_less(replaced, width, height) {
                shrunk_to_width(replaced, width)
            } else {
                shrunk_to_height(replaced, height)
            }
        }
        (Violation::Below(width), Violation::Below(height)) => {
            if is_less(replaced, width, height) {
                grown_to_height(replaced, height)
            } else {
                grown_to_width(replaced, width)
            }
        }
        (Violation::Below(width), Violation::Above(height)) => Sizes { width, height },
        (Violation::Above(width), Violation::Below(height)) => Sizes { width, height },
    }
}

fn shrunk_to_width(replaced: &ReplacedIn, width: i128) -> Sizes
    requires fits { ReplacedFits replaced.now }
    requires width { IsSize width }
    ensures { result ≡ shrunk_to_width_of replaced.now width }
{
    Sizes {
        width,
        height: height_for(replaced, width).max(i128::from(replaced.min_height.0)),
    }
}

fn grown_to_width(replaced: &ReplacedIn, width: i128) -> Sizes
    requires fits { ReplacedFits replaced.now }
    requires width { IsSize width }
    ensures { result ≡ grown_to_width_of replaced.now width }
{
    let greatest = greatest(replaced.min_height, replaced.max_height);
    Sizes {
        width,
        height: at_most(greatest, height_for(replaced, width)),
    }
}

fn shrunk_to_height(replaced: &ReplacedIn, height: i128) -> Sizes
    requires fits { ReplacedFits replaced.now }
    requires height { IsSize height }
    ensures { result ≡ shrunk_to_height_of replaced.now height }
{
    Sizes {
        width: width_for(replaced, height).max(i128::from(replaced.min_width.0)),
        height,
    }
}

fn grown_to_height(replaced: &ReplacedIn, height: i128) -> Sizes
    requires fits { ReplacedFits replaced.now }
    requires height { IsSize height }
    ensures { result ≡ grown_to_height_of replaced.now height }
{
    let greatest = greatest(replaced.min_width, replaced.max_width);
    Sizes {
        width: at_most(greatest, width_for(replaced, height)),
        height,
    }
}

fn violated(min: Unit, max: Option<Unit>, natural: Unit) -> Violation
    requires min { IsSize min.0 }
    requires max { IfSome max (λ v. IsSize v.0) }
    ensures value { result ≡ violation_of min max natural.0 }
    ensures fits { ViolationFits result }
{
    match greatest(min, max) {
        Some(max) if i128::from(natural.0) > max => Violation::Above(max),
        _ if natural.0 < min.0 => Violation::Below(i128::from(min.0)),
        _ => Violation::Within,
    }
}

fn greatest(min: Unit, max: Option<Unit>) -> Option<i128>
    requires min { IsSize min.0 }
    requires max { IfSome max (λ v. IsSize v.0) }
    ensures value { result ≡ greatest_of min max }
    ensures fits { IfSome result (λ v. IsSize v) }
{
    match max {
        Some(max) => Some(i128::from(min.0.max(max.0))),
        None => None,
    }
}

fn at_most(max: Option<i128>, size: i128) -> i128
    ensures { result ≡ at_most_of max size }
{
    match max {
        Some(max) => max.min(size),
        None => size,
    }
}

fn at_most_max(size: i128, max: Option<Unit>) -> i128
    requires max { IfSome max (λ v. IsSize v.0) }
    ensures { result ≡ at_most_max_of size max }
{
    match max {
        Some(max) if i128::from(max.0) < size => i128::from(max.0),
        _ => size,
    }
}

fn at_least(size: i128, min: i128) -> i128
    ensures { result ≡ at_least_min size min }
{
    if size < min { min } else { size }
}

fn bounded(size: i128, min: Unit, max: Option<Unit>) -> i128
    requires min { IsSize min.0 }
    requires max { IfSome max (λ v. IsSize v.0) }
    ensures value { result ≡ with_min_max_of size min.0 max }
{
    at_least(at_most_max(size, max), i128::from(min.0))
}

fn is_less(replaced: &ReplacedIn, width: i128, height: i128) -> bool
    requires fits { ReplacedFits replaced.now }
    requires width { IsSize width }
    requires height { IsSize height }
    ensures { result ≡ is_less_of replaced.now width height }
{
    product(width, replaced.natural_height) <= product(height, replaced.natural_width)
}

fn height_for(replaced: &ReplacedIn, width: i128) -> i128
    requires fits { ReplacedFits replaced.now }
    requires width { IsSize width }
    ensures { result ≡ height_beside replaced.now width }
{
    product(width, replaced.natural_height).div_euclid(i128::from(replaced.natural_width.0))
}

fn width_for(replaced: &ReplacedIn, height: i128) -> i128
    requires fits { ReplacedFits replaced.now }
    requires height { IsSize height }
    ensures { result ≡ width_beside replaced.now height }
{
    product(height, replaced.natural_width).div_euclid(i128::from(replaced.natural_height.0))
}

fn product(size: i128, natural: Unit) -> i128
    requires size { IsSize size }
    requires natural { IsSize natural.0 }
    ensures value { result ≡ size *ℤ natural.0 }
{
    size * i128::from(natural.0)
}
