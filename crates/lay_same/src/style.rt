//! Whether two computed styles are the same.

ghost use Rattle.std.specs.Prelude.{◌≡◌, ◌↔◌, IsTrue};

use crate::edges::{
    same_border_styles, same_length_percentages, same_length_percentages_or_auto, same_lengths,
};
use crate::keywords::{
    same_border_collapse, same_caption_side, same_clear, same_display, same_empty_cells,
    same_float, same_overflow, same_position, same_table_layout, same_text_align, same_visibility,
    same_white_space,
};
use crate::style_lengths::{
    same_border_spacing, same_length_percentage, same_length_percentage_or_auto,
    same_length_percentage_or_none, same_line_height, same_vertical_align, same_z_index,
};
use lay_style::{Borders, Sizing, Style, TableStyle, TextStyle};

/// Whether two computed styles are the same, in all properties.
pub fn same_style(a: &Style, b: &Style) -> bool
    ensures { IsTrue result ↔ (a.now ≡ b.now) }
{
    same_display(a.display, b.display)
        && same_position(a.position, b.position)
        && same_float(a.float, b.float)
        && same_clear(a.clear, b.clear)
        && same_length_percentages_or_auto(&a.offset, &b.offset)
        && same_z_index(a.z_index, b.z_index)
        && same_sizing(&a.sizing, &b.sizing)
        && same_length_percentages_or_auto(&a.margin, &b.margin)
        && same_length_percentages(&a.padding, &b.padding)
        && same_borders(&a.border, &b.border)
        && same_overflow(a.overflow, b.overflow)
        && same_visibility(a.visibility, b.visibility)
        && same_text_style(&a.text, &b.text)
        && same_table_style(&a.table, &b.table)
}

fn same_sizing(a: &Sizing, b: &Sizing) -> bool
    ensures { IsTrue result ↔ (a.now ≡ b.now) }
{
    same_length_percentage_or_auto(a.width, b.width)
        && same_length_percentage_or_auto(a.height, b.height)
        && same_length_percentage(a.min_width, b.min_width)
        && same_length_percentage(a.min_height, b.min_height)
        && same_length_percentage_or_none(a.max_width, b.max_width)
        && same_length_percentage_or_none(a.max_height, b.max_height)
}

fn same_borders(a: &Borders, b: &Borders) -> bool
    ensures { IsTrue result ↔ (a.now ≡ b.now) }
{
    same_lengths(&a.width, &b.width) && same_border_styles(&a.style, &b.style)
}

fn same_text_style(a: &TextStyle, b: &TextStyle) -> bool
    ensures { IsTrue result ↔ (a.now ≡ b.now) }
{
    a.font_size.0 == b.font_size.0
        && same_line_height(a.line_height, b.line_height)
        && same_length_percentage(a.text_indent, b.text_indent)
        && same_text_align(a.text_align, b.text_align)
        && same_white_space(a.white_space, b.white_space)
        && a.letter_spacing.0 == b.letter_spacing.0
        && a.word_spacing.0 == b.word_spacing.0
        && same_vertical_align(a.vertical_align, b.vertical_align)
}

fn same_table_style(a: &TableStyle, b: &TableStyle) -> bool
    ensures { IsTrue result ↔ (a.now ≡ b.now) }
{
    same_table_layout(a.layout, b.layout)
        && same_border_collapse(a.border_collapse, b.border_collapse)
        && same_border_spacing(a.border_spacing, b.border_spacing)
        && same_caption_side(a.caption_side, b.caption_side)
        && same_empty_cells(a.empty_cells, b.empty_cells)
}
