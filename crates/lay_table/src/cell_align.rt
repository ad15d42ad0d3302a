//! Where the content of a cell stands in it.

ghost use Rattle.std.specs.Prelude.{◌≡◌};
ghost use Rattle.lay_table.specs.CellAligns.{cell_align};

use lay_style::VerticalAlign;

/// Where the content of a cell stands in it (CSS 2.2, 17.5.3).
#[derive(Clone, Copy)]
pub enum CellAlign {
    Baseline,
    Top,
    Middle,
    Bottom,
}

/// Where it stands by its `vertical-align`.
pub(crate) fn cell_align(vertical: VerticalAlign) -> CellAlign
    ensures { result ≡ cell_align vertical }
{
    match vertical {
        VerticalAlign::Top => CellAlign::Top,
        VerticalAlign::Middle => CellAlign::Middle,
        VerticalAlign::Bottom => CellAlign::Bottom,
        VerticalAlign::Baseline
        | VerticalAlign::Sub
        | VerticalAlign::Super
        | VerticalAlign::TextTop
        | VerticalAlign::TextBottom
        | VerticalAlign::Length(_)
        | VerticalAlign::Percent(_) => CellAlign::Baseline,
    }
}
