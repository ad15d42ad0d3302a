//! The used width of a table.

ghost use Rattle.std.specs.Prelude.{◌≡◌, ◌-ℤ◌, IfOk};
ghost use Rattle.std.specs.Int.{int_max};
ghost use Rattle.lay_units.specs.Units.{IsSize};
ghost use Rattle.lay_widths.specs.Lengths.{BlockFits, edges_of};
ghost use Rattle.lay_table_sizes.specs.AutoWidth.{IsAutoWidth};

use lay_units::{BlockIn, NoMemory, Unit};
use lay_widths::{edges, solve_float};

/// No width of a document within its limits is so great.
const FAR: i128 = 1 << 62;

/// The used width of the content of the table of this block, which has the margins of its wrapper, in 1/64 px. Its columns are so wide
/// at their minimums and at their maximums with their spacings, and its captions take so much at least with their margins. NoMemory is
/// the answer where that is negative or not below 2^62 units, as no width of a document within its limits is.
pub fn auto_width(
    block: &BlockIn,
    least: Unit,
    greatest: Unit,
    captions: Unit,
) -> Result<Unit, NoMemory>
    requires { BlockFits block.now }
    ensures width { IfOk result (IsAutoWidth block.now least greatest captions) }
    ensures size { IfOk result (λ v. IsSize v.0) }
{
    let out = solve_float(block, least, greatest);
    let captions = captions_content(block, captions);
    let width = size(widest(out.width, least, captions))?;
    Ok(width)
}

/// A width from 0 on. NoMemory is the answer where it is none or isn't below 2^62 units.
fn size(width: i128) -> Result<Unit, NoMemory>
    ensures value { IfOk result (λ v. v.0 ≡ width) }
    ensures size { IfOk result (λ v. IsSize v.0) }
{
    if width < 0 || width >= FAR {
        return Err(NoMemory);
    }
    Ok(Unit(width as i64))
}

/// How narrow the content is for the captions.
fn captions_content(block: &BlockIn, captions: Unit) -> i128
    requires { BlockFits block.now }
    ensures { result ≡ captions.0 -ℤ edges_of block.now }
{
    i128::from(captions.0) - edges(block)
}

fn widest(width: Unit, least: Unit, captions: i128) -> i128
    ensures { result ≡ int_max width.0 (int_max least.0 captions) }
{
    i128::from(width.0).max(i128::from(least.0).max(captions))
}
