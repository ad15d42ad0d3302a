//! Which rule gives a table its margins.

/// Which rule gives a table its margins, beside its used width.
#[derive(Clone, Copy)]
pub enum TableRule {
    /// Those of a table that is a block in flow meet the equation of CSS 2.2, 10.3.3.
    Block,
    /// Those of another one are 0 where they are `auto`, as for what shrinks to fit (10.3.5, 10.3.7, 10.3.9).
    ShrinkToFit,
}
