//! The used sizes of the roots of a context.

ghost use Rattle.std.specs.Prelude.{◌≡◌, Some, IfOk};
ghost use Rattle.lay_context_sizes.specs.Inputs.{OwnSettingFits};
ghost use Rattle.lay_context.specs.Local.{IsLocal};
ghost use Rattle.lay_context.specs.declared.input.Input.TheVariants.{Size as size_given};
ghost use Rattle.lay_context.specs.declared.task.Phase.TheVariants.{Size};
ghost use Rattle.lay_context.specs.declared.value.Value.TheVariants.{Size as sized};
ghost use Rattle.lay_cell_work.specs.declared.root_spot.RootSpot.{RootSpot};
ghost use Rattle.lay_cell_work.specs.CellInputFits.{phase_given};
ghost use Rattle.lay_cell_work.specs.CellLocal.{IsCellLocal, filled_setting, setting_at, whole_input};
ghost use Rattle.lay_cell_work.specs.CellValues.{Sizes};
ghost use Rattle.lay_cell_work.specs.SizedSpots.{IsSpotSized};

use crate::cell_input::CellInput;
use crate::root_input::RootInput;
use crate::root_spot::RootSpot;
use lay_context::{Input, Value, setting_in, value_of_size};
use lay_context_sizes::{Setting, SizeInput, SizedContext};
use lay_units::NoMemory;
use std::alloc::Global;

/// The used sizes of each root, from the first one to the last.
pub(crate) fn sizes_of_roots(
    alloc: Global,
    input: &CellInput,
) -> Result<Vec<SizedContext>, NoMemory>
    requires { input.now.key.phase ≡ Size }
    ensures { IfOk result (λ v. IsCellLocal input.now (Sizes v.items)) }
{
    let roots = input.roots();
    let count = roots.len();
    let mut sizes = Vec::with_capacity(alloc, count)?;
    for r in 0..count {
        let own = sizes_of_root(alloc, roots, &roots[r], sizes.as_slice())?;
        sizes.push(own)?;
    }
    Ok(sizes)
}

/// Those of one root, where those of the root around it are known.
fn sizes_of_root(
    alloc: Global,
    roots: &[RootInput],
    root: &RootInput,
    sizes: &[SizedContext],
) -> Result<SizedContext, NoMemory>
    requires phase { phase_given root.now.given ≡ Size }
    requires spot { (spot : RootSpot) → root.now.around ≡ Some spot → IsSpotSized roots.now sizes.now spot }
    ensures { IfOk result (λ z. IsLocal (whole_input roots.now (Sizes sizes.now) root.now) (sized z)) }
{
    let Input::Size(given) = root.given() else {
        unreachable!()
    };
    let setting = setting_of(roots, root, sizes, given.setting());
    sizes_in(alloc, given, setting)
}

/// The setting of the own box of a root, which is given where no other root says it.
fn setting_of(
    roots: &[RootInput],
    root: &RootInput,
    sizes: &[SizedContext],
    given: Setting,
) -> Setting
    requires given { OwnSettingFits given }
    requires spot { (spot : RootSpot) → root.now.around ≡ Some spot → IsSpotSized roots.now sizes.now spot }
    ensures setting { result ≡ filled_setting roots.now (Sizes sizes.now) root.now.around given }
    ensures fits { OwnSettingFits result }
{
    match root.around() {
        None => given,
        Some(spot) => setting_at(roots, sizes, spot),
    }
}

/// The setting of a box of another root.
fn setting_at(roots: &[RootInput], sizes: &[SizedContext], spot: RootSpot) -> Setting
    requires { IsSpotSized roots.now sizes.now spot }
    ensures setting { result ≡ setting_at roots.now (Sizes sizes.now) spot }
    ensures fits { OwnSettingFits result }
{
    let Input::Size(around) = roots[spot.root].given() else {
        unreachable!()
    };
    setting_in(around.context_boxes(), &sizes[spot.root], spot.place)
}

/// The used sizes of boxes in this setting.
fn sizes_in(alloc: Global, given: &SizeInput, setting: Setting) -> Result<SizedContext, NoMemory>
    requires { OwnSettingFits setting }
    ensures { IfOk result (λ z. IsLocal (size_given (record given.now { setting = setting })) (sized z)) }
{
    let boxes = given.context_boxes().share()?;
    let measured = given.measured().share()?;
    let input = SizeInput::new(boxes, measured, setting);
    let Value::Size(sizes) = value_of_size(alloc, &input)? else {
        unreachable!()
    };
    Ok(sizes)
}
