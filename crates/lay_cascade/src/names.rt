//! What a simple selector asks of a node's names.

ghost use Rattle.std.specs.Prelude.{◌≡◌, ◌<◌, length, slice_index_or};
ghost use Rattle.std.specs.List.{list_any};
ghost use Rattle.std.specs.Str.{bytes_eq};
ghost use Rattle.lay_cascade.specs.NodeNames.{fits, fits_at};
ghost use Rattle.lay_cascade.specs.ClassSets.{MaySetOf, AreSets};

use crate::class_sets::{ClassSet, FEW, names_at};
use crate::node_names::Names;
use lay_sheet::{Name, Simple};
use lay_units::Text;

fn is_named(text: &Text, name: &Name) -> bool
    ensures { result ≡ bytes_eq text.now name.now }
{
    text.as_str().as_bytes() == name.as_bytes()
}

fn is_among(classes: &[Text], name: &Name) -> bool
    ensures { result ≡ list_any (λ class. bytes_eq class name.now) classes.now }
{
    for class in classes {
        if is_named(class, name) {
            return true;
        }
    }
    false
}

/// Whether a name is one of a node's classes. Among more than a few it is looked up.
fn has_class(classes: &[Text], set: &ClassSet<'_>, name: &Name) -> bool
    requires { MaySetOf classes.now set.now }
    ensures { result ≡ list_any (λ class. bytes_eq class name.now) classes.now }
{
    if classes.len() > FEW {
        return set.has(name);
    }
    is_among(classes, name)
}

/// Whether a node with these names is what a simple selector asks for.
pub(crate) fn fits(names: &Names, set: &ClassSet<'_>, simple: &Simple) -> bool
    requires { MaySetOf names.now.classes set.now }
    ensures { result ≡ fits names.now simple.now }
{
    match simple {
        Simple::Universal => true,
        Simple::Tag(name) => is_named(&names.tag, name),
        Simple::Label(name) => is_named(&names.label, name),
        Simple::Class(name) => has_class(names.classes.as_slice(), set, name),
    }
}

/// Whether the node at a place is what a simple selector asks for.
pub(crate) fn fits_at(names: &[Names], sets: &[ClassSet<'_>], place: usize, simple: &Simple) -> bool
    requires sets { AreSets names.now sets.now }
    requires place { place < length names.now }
    ensures { result ≡ fits_at names.now place simple.now }
{
    fits(names_at(names, place), set_at(sets, place), simple)
}

pub(crate) fn set_at<'a, 'b>(sets: &'a [ClassSet<'b>], place: usize) -> &'a ClassSet<'b>
    requires { place < length sets.now }
    ensures { result.now ≡ slice_index_or sets.now place result.now }
{
    &sets[place]
}
