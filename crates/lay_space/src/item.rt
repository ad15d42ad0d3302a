//! Inline content of a block container.

ghost use Rattle.std.specs.Prelude.{◌≡◌, ◌∷◌, []};
ghost use Rattle.lay_space.specs.Modes.{collapses, joins_lines, wraps};

use lay_units::{Text, WidthList};
use std::marker::Model;
use std::slice;

/// The values of `white-space` (CSS 2.2, 16.6).
#[derive(Clone, Copy)]
pub enum Mode {
    Normal,
    Pre,
    NoWrap,
    PreWrap,
    PreLine,
}

impl Mode {
    pub fn collapses(self) -> bool
        ensures { result ≡ collapses self }
    {
        match self {
            Mode::Normal | Mode::NoWrap | Mode::PreLine => true,
            Mode::Pre | Mode::PreWrap => false,
        }
    }

    pub fn joins_lines(self) -> bool
        ensures { result ≡ joins_lines self }
    {
        match self {
            Mode::Normal | Mode::NoWrap => true,
            Mode::Pre | Mode::PreWrap | Mode::PreLine => false,
        }
    }

    pub fn wraps(self) -> bool
        ensures { result ≡ wraps self }
    {
        match self {
            Mode::Normal | Mode::PreWrap | Mode::PreLine => true,
            Mode::Pre | Mode::NoWrap => false,
        }
    }
}

/// A text, an atomic inline-level box, the start or the end of an inline box, a float, or the place of an
/// absolutely positioned box, each with its node's number. A text and an atomic have the mode of the box
/// that holds them.
#[derive(Drop)]
pub enum Item {
    /// The widths are those of its grapheme clusters, or none.
    Text {
        node: u32,
        text: Text,
        mode: Mode,
        widths: WidthList,
    },
    Atomic(u32, Mode),
    /// Whether its left margin, border or padding isn't 0 (8.3 to 8.5): then it takes room, and is content for the floats
    /// and anchors in it.
    Start(u32, bool),
    End(u32),
    Float(u32),
    Anchor(u32),
}

/// Inline content, in document order.
#[derive(Drop)]
pub struct ItemList {
    items: Items,
}

/// One item by itself takes no memory of its own: most segments have one.
#[derive(Drop)]
enum Items {
    One(Item),
    Many(Vec<Item>),
}

impl Model for ItemList {
    ghost use Rattle.std.specs.Prelude.{List};
    ghost use Rattle.lay_space.specs.declared.item.Item.{Item};
    ghost use Rattle.lay_space.specs.ItemLists.{items_listed};

    ghost Value = { List Item };

    ghost view = { λ l. items_listed l.items };
}

impl ItemList {
    /// The list of these items, which is taken over without a copy.
    pub fn new(items: Vec<Item>) -> ItemList
        ensures { result ≡ items.items }
    {
        ItemList {
            items: Items::Many(items),
        }
    }

    /// The list of this item.
    pub fn one(item: Item) -> ItemList
        ensures { result ≡ item ∷ [] }
    {
        ItemList {
            items: Items::One(item),
        }
    }

    /// The items, in order.
    pub fn as_slice(&self) -> &[Item]
        ensures { result.now ≡ self.now }
    {
        match &self.items {
            Items::One(item) => slice::from_ref(item),
            Items::Many(items) => items.as_slice(),
        }
    }
}
