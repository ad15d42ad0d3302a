//! The words of the standard for what a box is.

ghost use Rattle.std.specs.Prelude.{◌≡◌};
ghost use Rattle.lay_boxgen.specs.Forms.{is_row_group, is_table, is_row, is_cell, is_caption, is_column, is_column_group};
ghost use Rattle.lay_boxgen.specs.Forms.{is_proper_table_child, is_internal_table_box, is_tabular_container, is_table_part};
ghost use Rattle.lay_boxgen.specs.Forms.{is_proper_table_descendant, is_inline, is_text, is_anchor, is_white, is_blank_text};
ghost use Rattle.lay_boxgen.specs.Forms.{is_inline_level, is_block_container, is_in_flow, is_absolute, is_block};

use crate::facts::{Facts, Form, TextForm};
use lay_box_tree::Flow;

/// Whether it is a row group, a header group or a footer group.
pub fn is_row_group(form: Form) -> bool
    ensures { result ≡ is_row_group form }
{
    matches!(form, Form::RowGroup | Form::HeaderGroup | Form::FooterGroup)
}

/// Whether it is a table or an inline-table.
pub fn is_table(form: Form) -> bool
    ensures { result ≡ is_table form }
{
    matches!(form, Form::Wrapper | Form::InlineWrapper)
}

pub fn is_row(form: Form) -> bool
    ensures { result ≡ is_row form }
{
    matches!(form, Form::Row)
}

pub fn is_cell(form: Form) -> bool
    ensures { result ≡ is_cell form }
{
    matches!(form, Form::Cell { .. })
}

pub fn is_caption(form: Form) -> bool
    ensures { result ≡ is_caption form }
{
    matches!(form, Form::Caption)
}

/// Whether it is a column (CSS 2.2, 17.2).
pub fn is_column(form: Form) -> bool
    ensures { result ≡ is_column form }
{
    matches!(form, Form::Column { .. })
}

/// Whether it is a column group (17.2).
pub fn is_column_group(form: Form) -> bool
    ensures { result ≡ is_column_group form }
{
    matches!(form, Form::ColumnGroup { .. })
}

/// Whether it is a proper table child.
pub fn is_proper_table_child(form: Form) -> bool
    ensures { result ≡ is_proper_table_child form }
{
    is_row(form)
        || is_row_group(form)
        || is_column(form)
        || is_column_group(form)
        || is_caption(form)
}

/// Whether it is an internal table box.
pub fn is_internal_table_box(form: Form) -> bool
    ensures { result ≡ is_internal_table_box form }
{
    is_cell(form) || is_row(form) || is_row_group(form) || is_column(form) || is_column_group(form)
}

/// Whether it is a tabular container.
pub fn is_tabular_container(form: Form) -> bool
    ensures { result ≡ is_tabular_container form }
{
    is_row(form) || is_row_group(form) || is_table(form)
}

/// Whether it is a caption or an internal table box.
pub fn is_table_part(form: Form) -> bool
    ensures { result ≡ is_table_part form }
{
    is_caption(form) || is_internal_table_box(form)
}

/// Whether it is a proper table descendant of a tabular container.
pub fn is_proper_table_descendant(container: Form, form: Form) -> bool
    ensures { result ≡ is_proper_table_descendant container form }
{
    (is_table(container) && is_table_part(form))
        || (is_row_group(container) && (is_row(form) || is_cell(form)))
        || (is_row(container) && is_cell(form))
}

/// Whether it is an inline box (9.2.2).
pub fn is_inline(form: Form) -> bool
    ensures { result ≡ is_inline form }
{
    matches!(form, Form::Inline)
}

pub fn is_text(form: Form) -> bool
    ensures { result ≡ is_text form }
{
    matches!(form, Form::Text(_))
}

/// Whether it is an anchor, which stands where an absolute or fixed box would stand in flow (9.6).
pub fn is_anchor(form: Form) -> bool
    ensures { result ≡ is_anchor form }
{
    matches!(form, Form::Anchor)
}

/// Whether it is a text of white space alone.
pub fn is_white(form: Form) -> bool
    ensures { result ≡ is_white form }
{
    matches!(
        form,
        Form::Text(TextForm::White) | Form::Text(TextForm::Blank)
    )
}

/// Whether it is white space that would be collapsed away.
pub fn is_blank(form: Form) -> bool
    ensures { result ≡ is_blank_text form }
{
    matches!(form, Form::Text(TextForm::Blank))
}

/// Whether it is inline-level, where it is in flow.
pub fn is_inline_level(form: Form) -> bool
    ensures { result ≡ is_inline_level form }
{
    match form {
        Form::Inline | Form::Text(_) | Form::InlineBlock | Form::InlineWrapper => true,
        Form::Replaced { inline, .. } => inline,
        _ => false,
    }
}

/// Whether it holds blocks or lines.
pub fn is_block_container(form: Form) -> bool
    ensures { result ≡ is_block_container form }
{
    matches!(
        form,
        Form::Block
            | Form::InlineBlock
            | Form::Cell { .. }
            | Form::Caption
            | Form::Wrapper
            | Form::InlineWrapper
    )
}

/// Whether a box of this flow is in flow (9.3).
pub fn is_in_flow(flow: Flow) -> bool
    ensures { result ≡ is_in_flow flow }
{
    matches!(flow, Flow::InFlow)
}

/// Whether a box of this flow is absolute or fixed (9.6).
pub fn is_absolute(flow: Flow) -> bool
    ensures { result ≡ is_absolute flow }
{
    matches!(flow, Flow::Absolute)
}

/// Whether it is a block-level box in flow.
pub fn is_block(facts: Facts) -> bool
    ensures { result ≡ is_block facts }
{
    is_in_flow(facts.flow) && !is_inline_level(facts.form)
}
