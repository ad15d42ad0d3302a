//! Who knows the values of a layout's tasks.

ghost use Rattle.std.specs.Prelude.{◌≡◌, ◌<◌, length};
ghost use Rattle.lay_context.specs.DocumentLayout.{widths_in};
ghost use Rattle.lay_context.specs.PlacedContexts.{placed_in};
ghost use Rattle.lay_context.specs.Settings.{sizes_in};
ghost use Rattle.lay_context.specs.Workings.{Workings};

use crate::placed_context::PlacedContext;
use lay_context_sizes::{MeasuredContext, SizedContext};

/// Who knows the values of the tasks of a document's formatting contexts, which are known by their numbers.
pub trait Values {
    /// All of them, in columns.
    ghost workings: { Self → Workings };

    /// The preferred widths of the formatting context with this number, with the bounds of a table.
    fn widths(&self, i: usize) -> &MeasuredContext
        requires { i < length (workings self.now).widths }
        ensures { result.now ≡ widths_in (workings self.now).widths i };

    /// The used sizes of the formatting context with this number.
    fn sizes(&self, i: usize) -> &SizedContext
        requires { i < length (workings self.now).sizes }
        ensures { result.now ≡ sizes_in (workings self.now).sizes i };

    /// The placement of the formatting context with this number, and where it stands itself.
    fn placed(&self, i: usize) -> &PlacedContext
        requires { i < length (workings self.now).places }
        ensures { result.now ≡ placed_in (workings self.now).places i };
}
