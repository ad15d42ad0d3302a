//! What a root is given from outside its cell: nothing, where another root of the context stands.

ghost use Rattle.std.specs.Prelude.{◌≡◌, None, IfOk};
ghost use Rattle.lay_context_sizes.specs.Inputs.{OwnSettingFits};
ghost use Rattle.lay_cell_work.specs.CellLocal.{masked_input, no_setting};

use crate::filled_parts::{filled_flow, filled_measure, filled_table};
use lay_context::Input;
use lay_context_sizes::Setting;
use lay_sizes::ContainingBlock;
use lay_units::{Len, NoMemory, Unit};
use std::alloc::Global;

/// What a task is given, without what the roots give it that are linked. Where none is it comes back as it is.
pub fn masked_input(alloc: Global, links: &[Option<usize>], given: Input) -> Result<Input, NoMemory>
    ensures { IfOk result (λ i. i ≡ masked_input links.now None given) }
{
    if links.is_empty() {
        return Ok(given);
    }
    match given {
        Input::Measure(parts) => {
            let parts = filled_measure(alloc, &parts, links, &[])?;
            Ok(Input::Measure(parts))
        }
        Input::Unmeasured => Ok(Input::Unmeasured),
        Input::Size(given) => Ok(Input::Size(given)),
        Input::Place(parts, stand) => {
            let parts = filled_flow(alloc, &parts, links, &[])?;
            Ok(Input::Place(parts, stand))
        }
        Input::PlaceTable(parts, stand) => {
            let parts = filled_table(alloc, &parts, links, &[])?;
            Ok(Input::PlaceTable(parts, stand))
        }
    }
}

/// In place of the setting of an anonymous root, which the root around it gives.
pub fn no_setting() -> Setting
    ensures setting { result ≡ no_setting }
    ensures fits { OwnSettingFits result }
{
    Setting::Block(ContainingBlock {
        width: Unit(0),
        height: Len::Auto,
    })
}
