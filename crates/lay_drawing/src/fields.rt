//! The fields of a line.

ghost use Rattle.std.specs.Prelude.{◌≡◌, ◌==◌, IfOk, IfSome, map};
ghost use Rattle.std.specs.List.{slice_split};
ghost use Rattle.lay_drawing.specs.Lines.{IsLine};
ghost use Rattle.lay_drawing.specs.Reading.{line_in};

use crate::line::{Line, line_from};
use lay_units::NoMemory;
use std::alloc::{AllocError, Global};

/// What a line without its linefeed says, if it is one of a report.
pub(crate) fn read_line(alloc: Global, text: &[u8]) -> Result<Option<Line>, NoMemory>
    ensures value { IfOk result (λ l. l ≡ line_in text.now) }
    ensures is_line { IfOk result (λ l. IfSome l IsLine) }
{
    let fields = fields(alloc, text)?;
    Ok(line_from(&fields))
}

/// The parts of a line between its spaces.
fn fields(alloc: Global, text: &[u8]) -> Result<Vec<&[u8]>, AllocError>
    ensures { IfOk result (λ v. map (λ f. f.now) v.items ≡ slice_split (λ b. b == 32) text.now) }
{
    text.split(|b| *b == b' ').collect(alloc)
}
