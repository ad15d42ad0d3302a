//! How wide the border of an edge is drawn (CSS 2.2, 17.6.2).

ghost use Rattle.std.specs.Prelude.{◌≡◌};
ghost use Rattle.lay_borders.specs.Halves.{drawn_width, edge_width};

use crate::candidate::{BorderStyle, Cand};
use lay_units::Unit;

/// How wide the border of an edge is drawn, in 1/64 px: 0 where there is none or its style is `none`
/// or `hidden`.
pub fn edge_width(edge: Option<Cand>) -> Unit
    ensures { result.0 ≡ edge_width edge }
{
    match edge {
        Some(border) => drawn(border),
        None => Unit(0),
    }
}

fn drawn(border: Cand) -> Unit
    ensures { result.0 ≡ drawn_width border.style border.width.0 }
{
    match border.style {
        BorderStyle::None | BorderStyle::Hidden => Unit(0),
        _ => border.width,
    }
}
