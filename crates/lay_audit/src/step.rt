//! Which entry comes next.

ghost use Rattle.std.specs.Prelude.{◌≡◌, is_some};
ghost use Rattle.lay_audit.specs.Presents.{shown_in};

use lay_history::edits::Reply;

/// The entry that comes next.
#[derive(Clone, Copy)]
pub(crate) enum Step {
    /// The next command of the editor at this place, counted from 0, is answered so.
    Answer { place: usize, reply: Reply },
    /// The present version is published.
    Publish,
}

/// Whether it shows a version.
pub(crate) fn is_shown(step: Step) -> bool
    ensures { result ≡ is_some (shown_in step) }
{
    match step {
        Step::Answer {
            reply: Reply::Shown(_),
            ..
        } => true,
        _ => false,
    }
}
