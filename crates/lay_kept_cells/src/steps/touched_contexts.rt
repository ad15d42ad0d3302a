//! The law of which contexts an edit may touch.

ghost use Rattle.lay_kept_cells.specs.Steps.TouchedContexts.{TouchedContextsAreReached};

use lay_context::measured_where_shrunk;
use lay_contexts::edited::{edits_touch_no_others, edits_touch_reached_contexts};

/// Contexts that comparison finds touched have a node among their own that the edit reaches.
pub fn touched_contexts_are_reached()
    ensures { TouchedContextsAreReached }
{
    measured_where_shrunk();
    edits_touch_reached_contexts();
    edits_touch_no_others();
}
