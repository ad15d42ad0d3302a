//! Which boxes of a context hold lines and nothing else in flow (CSS 2.2, 9.2.1).

ghost use Rattle.std.specs.Prelude.{ℕ, ◌≡◌, ◌<◌, length, IfOk};
ghost use Rattle.lay_flow.specs.Blocks.Children.{flag_at};
ghost use Rattle.lay_flow_boxes.specs.AloneInLines.{AreAlone};
ghost use Rattle.lay_flow_boxes.specs.InlineContainers.{holds, is_beside_lines, is_block_box, is_inline_container, is_of, is_own_container};

use lay_box_tree::{ContextBoxes, Role};
use lay_units::NoMemory;
use std::alloc::Global;

/// What stands in a block container.
#[derive(Clone, Copy)]
pub(crate) enum Level {
    /// What is in flow beside no line, and what other boxes of the context stand in.
    Block,
    /// What is in lines.
    Inline,
}

/// Whether each box is a block box that contains inline-level boxes alone.
pub(crate) fn inline_containers(alloc: Global, boxes: &ContextBoxes) -> Result<Vec<bool>, NoMemory>
    ensures count { IfOk result (λ v. length v.items ≡ length boxes.now) }
    ensures each { IfOk result (λ v. (k : ℕ) → k < length boxes.now → flag_at v.items k ≡ is_inline_container boxes.now k) }
{
    let mut containers = holders(alloc, boxes, Level::Inline)?;
    leave_out_holders(boxes, &mut containers);
    leave_out_others(boxes, &mut containers);
    Ok(containers)
}

/// Leaves the boxes out in which block-level boxes stand.
fn leave_out_holders(boxes: &ContextBoxes, containers: &mut [bool])
    requires count { length containers.old ≡ length boxes.now }
    requires each { (c : ℕ) → c < length boxes.now → flag_at containers.old c ≡ holds Level.Inline boxes.now c (length boxes.now) }
    ensures { AreAlone boxes.now containers.new (length boxes.now) }
{
    for k in 1..boxes.as_slice().len() {
        if is_of(Level::Block, boxes, k) {
            let container = boxes.container(k);
            containers[container] = false;
        }
    }
}

/// Leaves the boxes out that are no block boxes.
fn leave_out_others(boxes: &ContextBoxes, containers: &mut [bool])
    requires { AreAlone boxes.now containers.old (length boxes.now) }
    ensures count { length containers.new ≡ length boxes.now }
    ensures each { (k : ℕ) → k < length boxes.now → flag_at containers.new k ≡ is_inline_container boxes.now k }
{
    for k in 0..boxes.as_slice().len() {
        let alone = containers[k];
        containers[k] = is_block_box(boxes.role(k)) && alone;
    }
}

/// Whether a box of this level stands in each box.
fn holders(alloc: Global, boxes: &ContextBoxes, level: Level) -> Result<Vec<bool>, NoMemory>
    ensures count { IfOk result (λ v. length v.items ≡ length boxes.now) }
    ensures each { IfOk result (λ v. (c : ℕ) → c < length boxes.now → flag_at v.items c ≡ holds level boxes.now c (length boxes.now)) }
{
    let count = boxes.as_slice().len();
    let mut holders = vec![in alloc; false; count]?;
    for k in 1..count {
        if is_of(level, boxes, k) {
            let container = boxes.container(k);
            holders[container] = true;
        }
    }
    Ok(holders)
}

fn is_of(level: Level, boxes: &ContextBoxes, k: usize) -> bool
    requires { k < length boxes.now }
    ensures { result ≡ is_of level boxes.now k }
{
    match level {
        Level::Block => is_beside_lines(boxes.role(k)) || is_own_container(boxes, k),
        Level::Inline => boxes.role(k).is_inline_level(),
    }
}

/// Whether the box at k is a block container in which other boxes of the context stand.
fn is_own_container(boxes: &ContextBoxes, k: usize) -> bool
    requires { k < length boxes.now }
    ensures { result ≡ is_own_container boxes.now k }
{
    let node = &boxes.as_slice()[k];
    (k == 0 || node.is_block_container()) && !node.inner
}

fn is_beside_lines(role: Role) -> bool
    ensures { result ≡ is_beside_lines role }
{
    matches!(
        role,
        Role::Own | Role::Block | Role::Solid | Role::TablePart
    )
}

/// Whether a box of this role is one in which blocks or lines of the context stand.
pub(crate) fn is_block_box(role: Role) -> bool
    ensures { result ≡ is_block_box role }
{
    matches!(role, Role::Own | Role::Block)
}
