//! Formatting contexts of documents, one after the other: each with its tree of boxes, in brackets the numbers of those
//! inside it in the order of its boxes, and behind `<` the number of the one around it and the place of its box there.

use crate::boxes::{draw, styled, trimmed};
use anyhow::Result;
use lay_case_reading::ample;
use lay_contexts::{FormattingContext, contexts_of, formatting_contexts};
use std::alloc::Global;

/// The formatting contexts of a document.
pub(crate) fn of_document(alloc: Global, text: &str) -> Result<String> {
    let page = styled(alloc, text)?;
    let contexts = ample(contexts_of(alloc, &page.doc, &page.style))?;
    let all = ample(formatting_contexts(alloc, &contexts))?;
    let mut out = String::new(alloc);
    for i in 0..all.len() {
        push_context(alloc, &mut out, all.at(i))?;
    }
    trimmed(alloc, &out)
}

fn push_context(alloc: Global, out: &mut String, context: &FormattingContext) -> Result<()> {
    draw(alloc, out, context.boxes().as_slice())?;
    push_numbers(out, context.inner())?;
    let outer = context.outer();
    let place = context.outer_box();
    write!(out, "<{outer}.{place} ")?;
    Ok(())
}

/// Writes the numbers other than 0.
fn push_numbers(out: &mut String, numbers: &[usize]) -> Result<()> {
    out.push('[')?;
    let mut before = "";
    for number in numbers {
        if *number > 0 {
            write!(out, "{before}{number}")?;
            before = " ";
        }
    }
    out.push(']')?;
    Ok(())
}
