//! The boxes of one context.

ghost use Rattle.std.specs.Prelude.{◌≡◌, ◌<◌, length, slice_index, IfOk};
ghost use Rattle.lay_style.specs.ComputedStyle.{style_at};
ghost use Rattle.lay_box_tree.specs.BoxColumns.{box_styles};
ghost use Rattle.lay_box_tree.specs.Containers.{AreContainers};
ghost use Rattle.lay_box_tree.specs.Roles.{clear_at, role_at};
ghost use Rattle.lay_box_tree.specs.Containing.{container_of, is_anonymous};
ghost use Rattle.lay_box_tree.specs.ContextBoxes.{AreContextBoxes, is_float, is_inner};

use crate::{BoxNode, BoxTree, Role};
use lay_style::{Clear, Style};
use lay_units::NoMemory;
use std::alloc::Global;
use std::marker::Model;
use std::sync::Arc;

/// The boxes of a context in the order of the box tree, its own first, and the nearest block container of each.
/// Whoever is given them shares them.
#[derive(Drop)]
pub struct ContextBoxes {
    shared: Arc<TreeContainers>,
}

/// The boxes, and the nearest block container of each.
#[derive(Drop)]
struct TreeContainers {
    tree: BoxTree,
    containers: Vec<usize>,
}

impl Model for ContextBoxes {
    ghost use Rattle.std.specs.Prelude.{List};
    ghost use Rattle.lay_box_tree.specs.declared.box_tree.BoxNode.{BoxNode};
    ghost use Rattle.lay_box_tree.specs.Containers.{AreContainers};
    ghost use Rattle.lay_box_tree.specs.ContextBoxes.{AreContextBoxes};

    ghost Value = { List BoxNode };

    ghost view = { λ b. b.shared.value.tree };

    ghost invariant = { λ b. AreContextBoxes b.shared.value.tree × AreContainers b.shared.value.tree b.shared.value.containers.items };
}

impl ContextBoxes {
    /// These boxes.
    pub fn new(alloc: Global, tree: BoxTree) -> Result<ContextBoxes, NoMemory>
        requires { AreContextBoxes tree }
        ensures { IfOk result (λ b. b ≡ tree) }
    {
        let containers = tree.containers(alloc)?;
        let shared = Arc::new(alloc, TreeContainers { tree, containers })?;
        Ok(ContextBoxes { shared })
    }

    /// The boxes as a tree.
    pub fn tree(&self) -> &BoxTree
        ensures { result.now ≡ self.now }
    {
        &self.shared.tree
    }

    /// The boxes, in order.
    pub fn as_slice(&self) -> &[BoxNode]
        ensures boxes { result.now ≡ self.now }
        ensures are { AreContextBoxes self.now }
    {
        self.shared.tree.as_slice()
    }

    /// The computed style of the box at k.
    pub fn style(&self, k: usize) -> &Style
        requires { k < length self.now }
        ensures { result.now ≡ style_at (box_styles self.now) k }
    {
        &self.shared.tree.as_slice()[k].style
    }

    /// Whether the box at k is that of an inner context.
    pub fn is_inner(&self, k: usize) -> bool
        requires { k < length self.now }
        ensures { result ≡ is_inner self.now k }
    {
        self.shared.tree.as_slice()[k].inner
    }

    /// Whether the box at k is that of an inner context which floats.
    pub fn is_float(&self, k: usize) -> bool
        requires { k < length self.now }
        ensures { result ≡ is_float self.now k }
    {
        self.shared.tree.as_slice()[k].inner && self.shared.tree.role(k).is_float()
    }

    /// What the box at k is in its formatting context.
    pub fn role(&self, k: usize) -> Role
        requires { k < length self.now }
        ensures { result ≡ role_at self.now k }
    {
        self.shared.tree.role(k)
    }

    /// The place of the nearest block container of the box at k; the context's own box is its own.
    pub fn container(&self, k: usize) -> usize
        requires { k < length self.now }
        ensures container { result ≡ container_of self.now k }
        ensures within { result < length self.now }
        ensures before { 0 < k → result < k }
    {
        container_at(self.shared.tree.as_slice(), &self.shared.containers, k)
    }

    /// Whether the box at k is anonymous (9.2.1.1).
    pub fn is_anonymous(&self, k: usize) -> bool
        requires { k < length self.now }
        ensures { result ≡ is_anonymous self.now k }
    {
        self.shared.tree.as_slice()[k].anonymous
    }

    /// The sides that the box at k clears.
    pub fn clear(&self, k: usize) -> Clear
        requires { k < length self.now }
        ensures { result ≡ clear_at self.now k }
    {
        self.shared.tree.clear(k)
    }

    /// The boxes, shared: none is copied.
    pub fn share(&self) -> Result<ContextBoxes, NoMemory>
        ensures { IfOk result (λ b. b ≡ self.now) }
    {
        let shared = self.shared.clone()?;
        Ok(ContextBoxes { shared })
    }
}

/// The nearest block container of the box at k, where these are those of the boxes.
fn container_at(boxes: &[BoxNode], containers: &[usize], k: usize) -> usize
    requires are { AreContextBoxes boxes.now }
    requires found { AreContainers boxes.now containers.now }
    requires place { k < length boxes.now }
    ensures container { result ≡ container_of boxes.now k }
    ensures within { result < length boxes.now }
    ensures before { 0 < k → result < k }
{
    let _ = boxes;
    place_at(containers, k)
}

fn place_at(column: &[usize], k: usize) -> usize
    requires { k < length column.now }
    ensures { result ≡ slice_index column.now k }
{
    column[k]
}
