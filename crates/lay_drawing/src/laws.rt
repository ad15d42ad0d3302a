//! Laws of the definitions.

ghost use Rattle.lay_drawing.specs.Scratch.{ScratchReportsShow};

/// What `lay scratch` writes is a report that shows the pieces of its tree.
pub fn scratch_reports_show()
    ensures { ScratchReportsShow }
{}
