//! The classes of nodes that have many, so that a name is looked up among them at once.

ghost use Rattle.std.specs.Prelude.{◌≡◌, ◌<◌, ℕ, List, IfOk, length, slice_index_or};
ghost use Rattle.std.specs.List.{list_any};
ghost use Rattle.std.specs.Str.{bytes_eq};
ghost use Rattle.lay_cascade.specs.ClassSets.{IsSetOf, MaySetOf, AreSets};

use crate::node_names::Names;
use lay_sheet::Name;
use lay_units::{NoMemory, Text};
use std::alloc::Global;
use std::collections::HashMap;

/// Among so many classes a name is sought one by one.
pub(crate) const FEW: usize = 16;

/// The classes of a node that has more than a few, with the last place of each. For any other node it is empty and isn't asked.
#[derive(Drop)]
pub struct ClassSet<'a> {
    places: HashMap<&'a [u8], usize>,
}

pub(crate) fn bytes_at(classes: &[Text], i: usize) -> &[u8]
    requires { i < length classes.now }
    ensures { result.now ≡ slice_index_or classes.now i result.now }
{
    classes[i].as_str().as_bytes()
}

/// The set of some classes.
fn set_of<'a>(alloc: Global, classes: &'a [Text]) -> Result<ClassSet<'a>, NoMemory>
    ensures { IfOk result (IsSetOf classes.now) }
{
    let mut places = HashMap::new(alloc);
    for i in 0..classes.len() {
        places.insert(bytes_at(classes, i), i)?;
    }
    Ok(ClassSet { places })
}

/// The set of a node's classes where they are more than a few.
fn set_for<'a>(alloc: Global, names: &'a Names) -> Result<ClassSet<'a>, NoMemory>
    ensures { IfOk result (MaySetOf names.now.classes) }
{
    let classes = names.classes.as_slice();
    if classes.len() <= FEW {
        return Ok(ClassSet {
            places: HashMap::new(alloc),
        });
    }
    set_of(alloc, classes)
}

pub(crate) fn names_at(names: &[Names], k: usize) -> &Names
    requires { k < length names.now }
    ensures { result.now ≡ slice_index_or names.now k result.now }
{
    &names[k]
}

/// The sets of the classes of all nodes.
pub fn sets_of<'a>(alloc: Global, names: &'a [Names]) -> Result<Vec<ClassSet<'a>>, NoMemory>
    ensures { IfOk result (λ v. AreSets names.now v.items) }
{
    let mut sets = Vec::new(alloc);
    for k in 0..names.len() {
        let set = set_for(alloc, names_at(names, k))?;
        sets.push(set)?;
    }
    Ok(sets)
}

impl<'a> ClassSet<'a> {
    /// Whether a name is one of the classes.
    pub(crate) fn has(&self, name: &Name) -> bool
        ensures { (classes : List (List ℕ)) → IsSetOf classes self.now → result ≡ list_any (λ class. bytes_eq class name.now) classes }
    {
        self.places.contains_key(name.as_bytes())
    }
}
