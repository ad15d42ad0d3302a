//! Metrics of a face.

ghost use Rattle.std.specs.Prelude.{◌≤◌};

/// The numbers of a face beside its table of advances. Each is in thousandths of the font size, and is at most 10,000.
#[derive(Clone, Copy)]
pub struct FaceMetrics {
    /// The advance of all code points that the table doesn't have.
    pub default_advance: u32,
    pub ascent: u32,
    pub descent: u32,
    pub x_height: u32,
    /// What `line-height: normal` is.
    pub normal_line_height: u32,
    ghost advance_in_range: { default_advance ≤ 10000 },
    ghost ascent_in_range: { ascent ≤ 10000 },
    ghost descent_in_range: { descent ≤ 10000 },
    ghost x_height_in_range: { x_height ≤ 10000 },
    ghost line_height_in_range: { normal_line_height ≤ 10000 },
}
