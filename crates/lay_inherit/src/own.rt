//! The values of a node's properties, beside its parent's and the initial ones.

ghost use Rattle.std.specs.Prelude.{◌≡◌};
ghost use Rattle.lay_style.specs.Inheritance.{cascaded};
ghost use Rattle.lay_style.specs.KeywordValues.{display_of, position_of, float_of, clear_of, border_style_of};
ghost use Rattle.lay_style.specs.KeywordValues.{overflow_of, visibility_of, text_align_of, white_space_of};
ghost use Rattle.lay_style.specs.KeywordValues.{table_layout_of, border_collapse_of, caption_side_of, empty_cells_of};
ghost use Rattle.lay_style.specs.LengthValues.{offset_of, size_or_auto_of, size_measure_of, size_or_none_of, indent_of, spacing_of};
ghost use Rattle.lay_style.specs.LengthValues.{border_width_of, line_height_of, vertical_align_of, z_index_of, border_spacing_of};

use crate::cascade::cascaded;
use crate::keywords::{
    border_collapse_of, border_style_of, caption_side_of, clear_of, display_of, empty_cells_of,
    float_of, overflow_of, position_of, table_layout_of, text_align_of, visibility_of,
    white_space_of,
};
use crate::lengths::{
    border_spacing_of, border_width_of, indent_of, line_height_of, offset_of, size_measure_of,
    size_or_auto_of, size_or_none_of, spacing_of, vertical_align_of, z_index_of,
};
use lay_style::{
    BorderCollapse, BorderSpacing, BorderStyle, CaptionSide, Clear, Decls, Display, EmptyCells,
    Float, LengthPercentage, LengthPercentageOrAuto, LengthPercentageOrNone, LineHeight, Overflow,
    Position, Property, TableLayout, TextAlign, VerticalAlign, Visibility, WhiteSpace, ZIndex,
};
use lay_units::Unit;

/// What a node itself has: its declarations, and its font size, which is computed before all else.
#[derive(Clone, Copy)]
pub(crate) struct Own<'a> {
    pub decls: &'a Decls,
    pub font: Unit,
}

impl Own<'_> {
    /// `display`.
    pub fn display(&self, parent: Display, initial: Display) -> Display
        ensures { result ≡ cascaded Property.Display self.now.decls.now parent initial display_of }
    {
        cascaded(Property::Display, self.decls, parent, initial, display_of)
    }

    /// `position`.
    pub fn position(&self, parent: Position, initial: Position) -> Position
        ensures { result ≡ cascaded Property.Position self.now.decls.now parent initial position_of }
    {
        cascaded(Property::Position, self.decls, parent, initial, position_of)
    }

    /// `float`.
    pub fn float(&self, parent: Float, initial: Float) -> Float
        ensures { result ≡ cascaded Property.Float self.now.decls.now parent initial float_of }
    {
        cascaded(Property::Float, self.decls, parent, initial, float_of)
    }

    /// `clear`.
    pub fn clear(&self, parent: Clear, initial: Clear) -> Clear
        ensures { result ≡ cascaded Property.Clear self.now.decls.now parent initial clear_of }
    {
        cascaded(Property::Clear, self.decls, parent, initial, clear_of)
    }

    /// `overflow`.
    pub fn overflow(&self, parent: Overflow, initial: Overflow) -> Overflow
        ensures { result ≡ cascaded Property.Overflow self.now.decls.now parent initial overflow_of }
    {
        cascaded(Property::Overflow, self.decls, parent, initial, overflow_of)
    }

    /// `visibility`.
    pub fn visibility(&self, parent: Visibility, initial: Visibility) -> Visibility
        ensures { result ≡ cascaded Property.Visibility self.now.decls.now parent initial visibility_of }
    {
        cascaded(
            Property::Visibility,
            self.decls,
            parent,
            initial,
            visibility_of,
        )
    }

    /// `text-align`.
    pub fn text_align(&self, parent: TextAlign, initial: TextAlign) -> TextAlign
        ensures { result ≡ cascaded Property.TextAlign self.now.decls.now parent initial text_align_of }
    {
        cascaded(
            Property::TextAlign,
            self.decls,
            parent,
            initial,
            text_align_of,
        )
    }

    /// `white-space`.
    pub fn white_space(&self, parent: WhiteSpace, initial: WhiteSpace) -> WhiteSpace
        ensures { result ≡ cascaded Property.WhiteSpace self.now.decls.now parent initial white_space_of }
    {
        cascaded(
            Property::WhiteSpace,
            self.decls,
            parent,
            initial,
            white_space_of,
        )
    }

    /// `table-layout`.
    pub fn table_layout(&self, parent: TableLayout, initial: TableLayout) -> TableLayout
        ensures { result ≡ cascaded Property.TableLayout self.now.decls.now parent initial table_layout_of }
    {
        cascaded(
            Property::TableLayout,
            self.decls,
            parent,
            initial,
            table_layout_of,
        )
    }

    /// `border-collapse`.
    pub fn border_collapse(&self, parent: BorderCollapse, initial: BorderCollapse) -> BorderCollapse
        ensures { result ≡ cascaded Property.BorderCollapse self.now.decls.now parent initial border_collapse_of }
    {
        cascaded(
            Property::BorderCollapse,
            self.decls,
            parent,
            initial,
            border_collapse_of,
        )
    }

    /// `caption-side`.
    pub fn caption_side(&self, parent: CaptionSide, initial: CaptionSide) -> CaptionSide
        ensures { result ≡ cascaded Property.CaptionSide self.now.decls.now parent initial caption_side_of }
    {
        cascaded(
            Property::CaptionSide,
            self.decls,
            parent,
            initial,
            caption_side_of,
        )
    }

    /// `empty-cells`.
    pub fn empty_cells(&self, parent: EmptyCells, initial: EmptyCells) -> EmptyCells
        ensures { result ≡ cascaded Property.EmptyCells self.now.decls.now parent initial empty_cells_of }
    {
        cascaded(
            Property::EmptyCells,
            self.decls,
            parent,
            initial,
            empty_cells_of,
        )
    }

    /// The style of the border on one side.
    pub fn border_style(
        &self,
        property: Property,
        parent: BorderStyle,
        initial: BorderStyle,
    ) -> BorderStyle
        ensures { result ≡ cascaded property self.now.decls.now parent initial border_style_of }
    {
        cascaded(property, self.decls, parent, initial, border_style_of)
    }

    /// An offset or a margin.
    pub fn offset(
        &self,
        property: Property,
        parent: LengthPercentageOrAuto,
        initial: LengthPercentageOrAuto,
    ) -> LengthPercentageOrAuto
        ensures { result ≡ cascaded property self.now.decls.now parent initial (offset_of self.now.font) }
    {
        let font = self.font;
        let value = |given| offset_of(font, given);
        cascaded(property, self.decls, parent, initial, value)
    }

    /// A width or a height.
    pub fn size(
        &self,
        property: Property,
        parent: LengthPercentageOrAuto,
        initial: LengthPercentageOrAuto,
    ) -> LengthPercentageOrAuto
        ensures { result ≡ cascaded property self.now.decls.now parent initial (size_or_auto_of self.now.font) }
    {
        let font = self.font;
        let value = |given| size_or_auto_of(font, given);
        cascaded(property, self.decls, parent, initial, value)
    }

    /// A padding, or a least width or height.
    pub fn least_size(
        &self,
        property: Property,
        parent: LengthPercentage,
        initial: LengthPercentage,
    ) -> LengthPercentage
        ensures { result ≡ cascaded property self.now.decls.now parent initial (size_measure_of self.now.font) }
    {
        let font = self.font;
        let value = |given| size_measure_of(font, given);
        cascaded(property, self.decls, parent, initial, value)
    }

    /// A greatest width or height.
    pub fn greatest_size(
        &self,
        property: Property,
        parent: LengthPercentageOrNone,
        initial: LengthPercentageOrNone,
    ) -> LengthPercentageOrNone
        ensures { result ≡ cascaded property self.now.decls.now parent initial (size_or_none_of self.now.font) }
    {
        let font = self.font;
        let value = |given| size_or_none_of(font, given);
        cascaded(property, self.decls, parent, initial, value)
    }

    /// The width of the border on one side, where there is one.
    pub fn border_width(&self, property: Property, parent: Unit, initial: Unit) -> Unit
        ensures { result ≡ cascaded property self.now.decls.now parent initial (border_width_of self.now.font) }
    {
        let font = self.font;
        let value = |given| border_width_of(font, given);
        cascaded(property, self.decls, parent, initial, value)
    }

    /// The space between letters or words.
    pub fn spacing(&self, property: Property, parent: Unit, initial: Unit) -> Unit
        ensures { result ≡ cascaded property self.now.decls.now parent initial (spacing_of self.now.font) }
    {
        let font = self.font;
        let value = |given| spacing_of(font, given);
        cascaded(property, self.decls, parent, initial, value)
    }

    /// `line-height`.
    pub fn line_height(&self, parent: LineHeight, initial: LineHeight) -> LineHeight
        ensures { result ≡ cascaded Property.LineHeight self.now.decls.now parent initial (line_height_of self.now.font) }
    {
        let font = self.font;
        let value = |given| line_height_of(font, given);
        cascaded(Property::LineHeight, self.decls, parent, initial, value)
    }

    /// `text-indent`.
    pub fn indent(&self, parent: LengthPercentage, initial: LengthPercentage) -> LengthPercentage
        ensures { result ≡ cascaded Property.TextIndent self.now.decls.now parent initial (indent_of self.now.font) }
    {
        let font = self.font;
        let value = |given| indent_of(font, given);
        cascaded(Property::TextIndent, self.decls, parent, initial, value)
    }

    /// `vertical-align`.
    pub fn vertical_align(&self, parent: VerticalAlign, initial: VerticalAlign) -> VerticalAlign
        ensures { result ≡ cascaded Property.VerticalAlign self.now.decls.now parent initial (vertical_align_of self.now.font) }
    {
        let font = self.font;
        let value = |given| vertical_align_of(font, given);
        cascaded(Property::VerticalAlign, self.decls, parent, initial, value)
    }

    /// `z-index`.
    pub fn z_index(&self, parent: ZIndex, initial: ZIndex) -> ZIndex
        ensures { result ≡ cascaded Property.ZIndex self.now.decls.now parent initial z_index_of }
    {
        cascaded(Property::ZIndex, self.decls, parent, initial, z_index_of)
    }

    /// `border-spacing`.
    pub fn border_spacing(&self, parent: BorderSpacing, initial: BorderSpacing) -> BorderSpacing
        ensures { result ≡ cascaded Property.BorderSpacing self.now.decls.now parent initial (border_spacing_of self.now.font) }
    {
        let font = self.font;
        let value = |given| border_spacing_of(font, given);
        cascaded(Property::BorderSpacing, self.decls, parent, initial, value)
    }
}
