//! What is known of the cells since all of them were clean, after an edit.

ghost use Rattle.std.specs.Prelude.{◌≡◌, option_map};
ghost use Rattle.lay_document_cells.specs.Kept.{HaveCount, since_edit};

use lay_kept_cells::settled::Since;

/// It is known from the edit on, where all cells were clean before it, and else since it was. Where cells don't keep their shape
/// nothing is known.
pub(crate) fn since_after(
    was: Option<Since>,
    clean: bool,
    draws: u64,
    changed: Option<Vec<bool>>,
) -> Option<Since>
    requires { HaveCount was (option_map (λ v. v.items) changed) }
    ensures { result ≡ since_edit was clean draws (option_map (λ v. v.items) changed) }
{
    let Some(changed) = changed else {
        return None;
    };
    if clean {
        return Some(Since::new(draws, changed));
    }
    let Some(mut since) = was else {
        return None;
    };
    since.also(changed.as_slice());
    Some(since)
}
