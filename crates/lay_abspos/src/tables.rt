//! Tables that are absolutely positioned.

ghost use Rattle.lay_units.specs.Units.{IsUsedSize};
ghost use Rattle.lay_abspos.specs.AbsoluteTables.{IsTableLeft};
ghost use Rattle.lay_abspos.specs.OffsetBounds.{IsStart};
ghost use Rattle.lay_abspos.specs.AbsoluteSettings.{SettingFits};

use crate::ContentSize;
use crate::axes::{axis_across, wrapper_across};
use crate::setting::AbsoluteSetting;
use crate::sizes::{border_start, solved};
use lay_style::Style;
use lay_units::{Len, Unit};

/// How far the left edge of the wrapper of a table that is so wide is from that of its containing block (10.3.7).
pub fn table_left(setting: &AbsoluteSetting, style: &Style, width: Unit) -> Unit
    requires setting { SettingFits setting.now }
    requires width { IsUsedSize width.0 }
    ensures left { IsTableLeft setting.now style.now width result }
    ensures near { IsStart result.0 }
{
    let block = wrapper_across(setting, style, Len::Of(width));
    let content = ContentSize::Shrinks(Unit(0), Unit(0));
    border_start(&solved(&axis_across(setting, style, block, content)))
}
