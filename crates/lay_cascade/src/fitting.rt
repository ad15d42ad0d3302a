//! Which steps of a window a node fits.

ghost use Rattle.std.specs.Prelude.{ℕ, ◌≡◌, ◌<◌, length};
ghost use Rattle.std.specs.List.{list_any};
ghost use Rattle.lay_cascade.specs.NodeNames.{fits, fits_at};
ghost use Rattle.lay_cascade.specs.ClassSets.{MaySetOf, AreSets};
ghost use Rattle.lay_cascade.specs.Windows.{IsMask, IsWindow, asks_name};
ghost use Rattle.lay_cascade.specs.declared.windows.Place.TheVariants.{Classes};

use crate::class_sets::{ClassSet, bytes_at, names_at};
use crate::names::{fits, set_at};
use crate::node_names::Names;
use crate::windows::Window;
use crate::words::{BITS, with_told};
use lay_units::Text;

/// Which steps ask for one of some classes.
fn class_word(window: &Window<'_>, classes: &[Text]) -> u64
    requires { IsWindow window.now.steps.now window.now.from window.now }
    ensures { IsMask window.now.steps.now window.now.from window.now.count
        (λ s. list_any (λ class. asks_name Classes class s) classes.now) result }
{
    let mut word = 0;
    for i in 0..classes.len() {
        word |= window.classes.of(bytes_at(classes, i));
    }
    word
}

/// Which steps a node of these names fits: each of its names is looked up.
fn by_names(window: &Window<'_>, names: &Names) -> u64
    requires { IsWindow window.now.steps.now window.now.from window.now }
    ensures { IsMask window.now.steps.now window.now.from window.now.count (λ s. fits names.now s.simple) result }
{
    let tagged = window.tags.of(names.tag.as_str().as_bytes());
    let labelled = window.labels.of(names.label.as_str().as_bytes());
    let classed = class_word(window, names.classes.as_slice());
    window.universal | tagged | labelled | classed
}

/// The same for a node with more classes than a window has steps: each step is asked.
fn by_steps(window: &Window<'_>, names: &Names, set: &ClassSet<'_>) -> u64
    requires window { IsWindow window.now.steps.now window.now.from window.now }
    requires set { MaySetOf names.now.classes set.now }
    ensures { IsMask window.now.steps.now window.now.from window.now.count (λ s. fits names.now s.simple) result }
{
    let mut word = 0;
    for j in 0..window.count {
        let told = fits(names, set, &window.step(j).simple);
        word = with_told(word, j, told);
    }
    word
}

/// Which steps of a window the node at a place fits.
pub(crate) fn fitting_at(
    window: &Window<'_>,
    names: &[Names],
    sets: &[ClassSet<'_>],
    place: usize,
) -> u64
    requires window { IsWindow window.now.steps.now window.now.from window.now }
    requires sets { AreSets names.now sets.now }
    requires place { place < length names.now }
    ensures { IsMask window.now.steps.now window.now.from window.now.count (λ s. fits_at names.now place s.simple) result }
{
    let names = names_at(names, place);
    if names.classes.as_slice().len() > BITS {
        return by_steps(window, names, set_at(sets, place));
    }
    by_names(window, names)
}
