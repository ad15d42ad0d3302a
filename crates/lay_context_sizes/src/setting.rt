//! In which setting the own box of a formatting context is sized.

ghost use Rattle.std.specs.Prelude.{◌≡◌};
ghost use Rattle.lay_units.specs.Units.{IsPosition};
ghost use Rattle.lay_context_sizes.specs.Inputs.{OwnSettingFits, containing_block_in};

use lay_abspos::{AbsoluteSetting, block_in};
use lay_sizes::ContainingBlock;
use lay_table_sizes::CellSize;

/// What an own box is given by where it stands.
#[derive(Clone, Copy)]
pub enum Setting {
    /// Its containing block.
    Block(ContainingBlock),
    /// What its table gives a cell: a containing block, and its width and borders.
    Cell {
        containing: ContainingBlock,
        cell: CellSize,
    },
    /// What an absolutely positioned box is given from outside.
    Absolute(AbsoluteSetting),
}

impl Setting {
    /// Its containing block.
    pub(crate) fn containing(self) -> ContainingBlock
        requires { OwnSettingFits self }
        ensures value { result ≡ containing_block_in self }
        ensures fits { IsPosition result.width.0 }
    {
        match self {
            Setting::Block(containing) => containing,
            Setting::Cell { containing, .. } => containing,
            Setting::Absolute(setting) => block_in(&setting),
        }
    }
}
