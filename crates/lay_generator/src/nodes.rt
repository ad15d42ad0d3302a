//! The nodes of a generated document.

ghost use Rattle.std.specs.Prelude.{◌≡◌, ◌+◌, ◌*◌, ◌%◌, ◌<◌, ◌^◌, ◌++◌, IfOk, OnOk, IsTrue, codes, if◌then◌else◌, ◌==◌, string_bytes};
ghost use Rattle.lay_style.specs.Values.{is_value_of};
ghost use Rattle.lay_style.specs.Declarations.{with_declaration};
ghost use Rattle.lay_generator.specs.Draws.{draw, next, state_after};
ghost use Rattle.lay_generator.specs.Nodes.{block, container, element, float_node, more_count, more_words};
ghost use Rattle.lay_generator.specs.Nodes.{px_value, root, text, word, text_of_words};

use crate::draws::Draws;
use lay_doc::{NewNode, NodeId};
use lay_style::{Decl, Decls, Given, Property, Word};
use lay_units::{NoMemory, Text, Unit};
use std::alloc::Global;

/// So many px.
pub(crate) fn px(n: u32) -> Given
    requires { n < 2 ^ 15 }
    ensures { result ≡ px_value n }
{
    Given::Length(Unit(64 * i64::from(n)))
}

/// The declaration of a value that is one of the property's.
pub(crate) fn decl(property: Property, value: Given) -> Decl
    requires { IsTrue (is_value_of property value) }
    ensures { result ≡ record { property = property; value = value } }
{
    match Decl::new(property, value) {
        Some(decl) => decl,
        None => unreachable!(),
    }
}

fn set(decls: &mut Decls, property: Property, value: Given) -> Result<(), NoMemory>
    requires { IsTrue (is_value_of property value) }
    ensures { OnOk result (decls.new ≡ with_declaration (record { property = property; value = value }) decls.old) }
{
    decls.set(decl(property, value))
}

fn element(alloc: Global, id: u32, decls: Decls) -> NewNode
    ensures { result ≡ element id decls }
{
    NewNode::element(alloc, NodeId(id), 1, 1, decls)
}

/// The root.
pub(crate) fn root(alloc: Global) -> Result<NewNode, NoMemory>
    ensures { IfOk result (λ n. n ≡ root) }
{
    let mut decls = Decls::new(alloc);
    set(&mut decls, Property::Display, Given::Keyword(Word::Block))?;
    Ok(element(alloc, 1, decls))
}

/// The block formatting context of a section.
pub(crate) fn container(alloc: Global, section: u32, draws: &mut Draws) -> Result<NewNode, NoMemory>
    requires { section < 1000 }
    ensures node { IfOk result (λ n. n ≡ container section draws.old) }
    ensures state { draws.new ≡ state_after 1 draws.old }
{
    let margin = draws.draw() % 21;
    let mut decls = Decls::new(alloc);
    set(&mut decls, Property::Display, Given::Keyword(Word::Block))?;
    set(&mut decls, Property::MarginTop, px(margin))?;
    set(&mut decls, Property::Overflow, Given::Keyword(Word::Hidden))?;
    Ok(element(alloc, 2 + 4 * section, decls))
}

/// The float of a section.
pub(crate) fn float_box(alloc: Global, section: u32, draws: &mut Draws) -> Result<NewNode, NoMemory>
    requires { section < 1000 }
    ensures node { IfOk result (λ n. n ≡ float_node section draws.old) }
    ensures state { draws.new ≡ state_after 3 draws.old }
{
    let side = side(draws.draw());
    let width = 20 + draws.draw() % 100;
    let height = 10 + draws.draw() % 40;
    let mut decls = Decls::new(alloc);
    set(&mut decls, Property::Display, Given::Keyword(Word::Block))?;
    set(&mut decls, Property::Float, Given::Keyword(side))?;
    set(&mut decls, Property::Height, px(height))?;
    set(&mut decls, Property::Width, px(width))?;
    Ok(element(alloc, 3 + 4 * section, decls))
}

/// The side of a float by a draw.
fn side(draw: u32) -> Word
    ensures { result ≡ (if draw % 2 == 1 then Word.Left else Word.Right) }
{
    if draw % 2 == 1 {
        Word::Left
    } else {
        Word::Right
    }
}

/// The block of a section.
pub(crate) fn block(alloc: Global, section: u32) -> Result<NewNode, NoMemory>
    requires { section < 1000 }
    ensures { IfOk result (λ n. n ≡ block section) }
{
    let mut decls = Decls::new(alloc);
    set(&mut decls, Property::Display, Given::Keyword(Word::Block))?;
    Ok(element(alloc, 4 + 4 * section, decls))
}

/// The text of a section.
pub(crate) fn text(alloc: Global, section: u32, draws: &mut Draws) -> Result<NewNode, NoMemory>
    requires { section < 1000 }
    ensures node { IfOk result (λ n. n ≡ text section draws.old) }
    ensures state { OnOk result (draws.new ≡ state_after (1 + more_count draws.old) (next draws.old)) }
{
    let more = draws.draw() % 30;
    let text = words(alloc, more, draws)?;
    Ok(NewNode::text(alloc, NodeId(5 + 4 * section), Text::new(text)))
}

/// A text of a word and so many more.
fn words(alloc: Global, more: u32, draws: &mut Draws) -> Result<String, NoMemory>
    ensures text { IfOk result (λ t. string_bytes t ≡ text_of_words more draws.old) }
    ensures state { OnOk result (draws.new ≡ state_after (1 + more) draws.old) }
{
    let mut text = word(alloc, draws)?;
    push_words(alloc, more, draws, &mut text)?;
    Ok(text)
}

/// Adds so many words, each behind a space.
fn push_words(
    alloc: Global,
    more: u32,
    draws: &mut Draws,
    text: &mut String,
) -> Result<(), NoMemory>
    ensures text { OnOk result (string_bytes text.new ≡ string_bytes text.old ++ more_words more draws.old) }
    ensures state { OnOk result (draws.new ≡ state_after more draws.old) }
{
    let mut left = more;
    while left > 0 {
        push_word(alloc, draws, text)?;
        left -= 1;
    }
    Ok(())
}

fn push_word(alloc: Global, draws: &mut Draws, text: &mut String) -> Result<(), NoMemory>
    ensures text { OnOk result (string_bytes text.new ≡ string_bytes text.old ++ (codes " " ++ word draws.old)) }
    ensures state { draws.new ≡ next draws.old }
{
    let word = word(alloc, draws)?;
    text.push_str(" ")?;
    text.push_str(&word)?;
    Ok(())
}

/// A word for the next draw.
fn word(alloc: Global, draws: &mut Draws) -> Result<String, NoMemory>
    ensures text { IfOk result (λ t. string_bytes t ≡ word draws.old) }
    ensures state { draws.new ≡ next draws.old }
{
    let length = 1 + draws.draw() % 8;
    let word = "w".repeat(alloc, length as usize)?;
    Ok(word)
}
