//! Flags of places.

ghost use Rattle.lay_after_edits.specs.Contexts.Marks.{Marks};

/// Sets the flag of a place, if there is one.
pub(crate) fn mark(flags: &mut Vec<bool>, at: usize)
    ensures { Marks at flags.old.items flags.new.items }
{
    if at < flags.len() {
        flags[at] = true;
    }
}
