//! Whether styles differ in nothing by which boxes are generated.

ghost use Rattle.std.specs.Prelude.{◌≡◌, ◌≤◌, IsTrue, length};
ghost use Rattle.lay_after_edits.specs.Contexts.Reach.{AreAlike, IsAlike};

use lay_style::{Display, Float, Overflow, Position, Style, WhiteSpace, style_at};

fn same_display(a: Display, b: Display) -> bool
    ensures { IsTrue result → a ≡ b }
{
    a == b
}

pub(crate) fn same_position(a: Position, b: Position) -> bool
    ensures { IsTrue result → a ≡ b }
{
    a == b
}

fn same_float(a: Float, b: Float) -> bool
    ensures { IsTrue result → a ≡ b }
{
    a == b
}

fn same_overflow(a: Overflow, b: Overflow) -> bool
    ensures { IsTrue result → a ≡ b }
{
    a == b
}

fn same_white_space(a: WhiteSpace, b: WhiteSpace) -> bool
    ensures { IsTrue result → a ≡ b }
{
    a == b
}

/// Whether two styles are alike.
pub(crate) fn is_alike(a: &Style, b: &Style) -> bool
    ensures { IsTrue result → IsAlike a.now b.now }
{
    same_display(a.display, b.display)
        && same_position(a.position, b.position)
        && same_float(a.float, b.float)
        && same_overflow(a.overflow, b.overflow)
        && same_white_space(a.text.white_space, b.text.white_space)
}

/// Whether the styles from a place up to another one are.
pub(crate) fn are_alike(styles: &[Style], others: &[Style], from: usize, until: usize) -> bool
    requires here { until ≤ length styles.now }
    requires there { until ≤ length others.now }
    ensures { IsTrue result → AreAlike styles.now others.now from until }
{
    for k in from..until {
        if !is_alike(style_at(styles, k), style_at(others, k)) {
            return false;
        }
    }
    true
}
