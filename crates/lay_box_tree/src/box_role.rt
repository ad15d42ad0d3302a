//! What a box is in the formatting context that it stands in, and what `clear` says for it.

ghost use Rattle.std.specs.Prelude.{◌≡◌, ◌<◌, length};
ghost use Rattle.lay_box_tree.specs.Roles.{role_of_kind, float_role};

use crate::box_tree::{BoxKind, BoxNode, BoxTree, Flow};
use crate::kinds::is_wrapper;
use lay_style::{Clear, Float};

/// What a box is in the formatting context that it stands in.
#[derive(Clone, Copy)]
pub enum Role {
    /// It is the context's own box, whose role is in the context around.
    Own,
    /// A block box, whose blocks and lines belong to the same formatting context (CSS 2.2, 9.4.1).
    Block,
    /// A block-level box that floats don't overlap (9.5): it establishes a formatting context, or is a
    /// replaced element or the wrapper of a table.
    Solid,
    LeftFloat,
    RightFloat,
    /// Where an absolute or fixed box would stand in flow. It takes no room.
    Anchor,
    /// An inline box, which holds what is in lines (9.4.2).
    Inline,
    Text,
    /// An inline-block, an inline-table or an inline-level replaced element (9.2.2).
    Atomic,
    /// A table box, or what is placed in one by its rules (17.5): a caption, a row, a cell and so on.
    TablePart,
}

impl Role {
    ghost use Rattle.lay_box_tree.specs.Roles.{is_float, is_block_level, is_inline_level, is_role_in_flow};

    pub fn is_float(self) -> bool
        ensures { result ≡ is_float self }
    {
        matches!(self, Role::LeftFloat | Role::RightFloat)
    }

    /// Whether it is block-level (9.2.1). Floats are.
    pub fn is_block_level(self) -> bool
        ensures { result ≡ is_block_level self }
    {
        matches!(self, Role::Block | Role::Solid) || self.is_float()
    }

    /// Whether it is inline-level (9.2.2).
    pub fn is_inline_level(self) -> bool
        ensures { result ≡ is_inline_level self }
    {
        matches!(self, Role::Inline | Role::Text | Role::Atomic)
    }

    /// Whether it is in normal flow (9.4).
    pub fn is_in_flow(self) -> bool
        ensures { result ≡ is_role_in_flow self }
    {
        matches!(self, Role::Block | Role::Solid) || self.is_inline_level()
    }
}

/// The role of a box of this kind in normal flow, or of an anchor.
fn role_of_kind(inner: bool, kind: &BoxKind) -> Role
    ensures { result ≡ role_of_kind inner kind.now }
{
    match kind {
        BoxKind::Block if inner => Role::Solid,
        BoxKind::Block => Role::Block,
        BoxKind::Replaced { inline: true, .. } => Role::Atomic,
        BoxKind::Replaced { .. } | BoxKind::Wrapper => Role::Solid,
        BoxKind::InlineBlock | BoxKind::InlineWrapper => Role::Atomic,
        BoxKind::Inline => Role::Inline,
        BoxKind::Text(_) => Role::Text,
        BoxKind::Anchor => Role::Anchor,
        _ => Role::TablePart,
    }
}

/// The role of what floats to this side, or otherwise has this role.
fn float_role(side: Float, role: Role) -> Role
    ensures { result ≡ float_role side role }
{
    match side {
        Float::None => role,
        Float::Left => Role::LeftFloat,
        Float::Right => Role::RightFloat,
    }
}

impl BoxNode {
    ghost use Rattle.lay_box_tree.specs.Roles.{role_of, clear_of_box};

    /// What the box is in the formatting context that it stands in, where it isn't the context's own box.
    pub fn role(&self) -> Role
        ensures { result ≡ role_of self.now }
    {
        let role = role_of_kind(self.inner, &self.kind);
        match self.flow {
            Flow::Floating => float_role(self.style.float, role),
            Flow::InFlow | Flow::Absolute => role,
        }
    }

    /// What `clear` says for it, where it is block-level.
    fn clear(&self) -> Clear
        ensures { result ≡ clear_of_box self.now }
    {
        if is_wrapper(&self.kind) {
            return Clear::None;
        }
        self.style.clear
    }
}

impl BoxTree {
    ghost use Rattle.lay_box_tree.specs.Roles.{role_at, clear_at};

    /// What the box at `place` is in the formatting context that it stands in.
    pub fn role(&self, place: usize) -> Role
        requires { place < length self.now }
        ensures { result ≡ role_at self.now place }
    {
        if place == 0 {
            return Role::Own;
        }
        self.as_slice()[place].role()
    }

    /// The sides that the box at `place` clears (9.5.2). Only block-level boxes clear any.
    pub fn clear(&self, place: usize) -> Clear
        requires { place < length self.now }
        ensures { result ≡ clear_at self.now place }
    {
        if self.role(place).is_block_level() {
            self.as_slice()[place].clear()
        } else {
            Clear::None
        }
    }
}
