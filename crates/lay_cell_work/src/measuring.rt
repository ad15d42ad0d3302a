//! The preferred widths of the roots of a context.

ghost use Rattle.std.specs.Prelude.{◌≡◌, IfOk, List, length};
ghost use Rattle.lay_context.specs.Local.{IsLocal};
ghost use Rattle.lay_context.specs.declared.task.Phase.TheVariants.{Measure};
ghost use Rattle.lay_context.specs.declared.value.Value.TheVariants.{Measure as measured};
ghost use Rattle.lay_cell_work.specs.CellInputFits.{phase_given};
ghost use Rattle.lay_cell_work.specs.CellInputs.{RootInput};
ghost use Rattle.lay_cell_work.specs.CellLocal.{IsCellLocal, whole_input};
ghost use Rattle.lay_cell_work.specs.CellValues.{Widths};

use crate::cell_input::CellInput;
use crate::filled_parts::filled_measure;
use crate::root_input::RootInput;
use lay_context::{Input, Value, value_of_measure};
use lay_context_sizes::MeasuredContext;
use lay_units::NoMemory;
use std::alloc::Global;

/// The preferred widths of each root, from the last one to the first.
pub(crate) fn widths_of_roots(
    alloc: Global,
    input: &CellInput,
) -> Result<Vec<MeasuredContext>, NoMemory>
    requires { input.now.key.phase ≡ Measure }
    ensures { IfOk result (λ v. IsCellLocal input.now (Widths v.items)) }
{
    let roots = input.roots();
    let count = roots.len();
    let mut widths = unmeasured(alloc, count)?;
    for done in 0..count {
        let r = count - 1 - done;
        let own = widths_of_root(alloc, &roots[r], widths.as_slice())?;
        widths[r] = own;
    }
    Ok(widths)
}

/// Nothing of so many.
fn unmeasured(alloc: Global, count: usize) -> Result<Vec<MeasuredContext>, NoMemory>
    ensures { IfOk result (λ v. length v.items ≡ count) }
{
    let mut widths = Vec::with_capacity(alloc, count)?;
    for _unmeasured in 0..count {
        widths.push(MeasuredContext::none())?;
    }
    Ok(widths)
}

/// Those of one root, where those of the roots in it are known.
fn widths_of_root(
    alloc: Global,
    root: &RootInput,
    own: &[MeasuredContext],
) -> Result<MeasuredContext, NoMemory>
    requires { phase_given root.now.given ≡ Measure }
    ensures { IfOk result (λ w. (roots : List RootInput) → IsLocal (whole_input roots (Widths own.now) root.now) (measured w)) }
{
    match root.given() {
        Input::Measure(parts) => {
            let parts = filled_measure(alloc, parts, root.links(), own)?;
            let Value::Measure(widths) = value_of_measure(alloc, parts)? else {
                unreachable!()
            };
            Ok(widths)
        }
        Input::Unmeasured => Ok(MeasuredContext::none()),
        _ => unreachable!(),
    }
}
