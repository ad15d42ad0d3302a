//! How selectors are written.

ghost use Rattle.std.specs.Prelude.{◌≡◌, ◌≤◌, ◌<◌, IfOk, length, Some, None, option_map};
ghost use Rattle.lay_values.specs.Numbers.{leading, behind};
ghost use Rattle.lay_values.specs.Reading.{without_front};
ghost use Rattle.lay_sheet.specs.SelectorTexts.{is_name_start, is_name_part, begins_plain_name, begins_name, name_at_front};
ghost use Rattle.lay_sheet.specs.SelectorTexts.{begins_compound, simple_of, behind_simple, begins_with_space, joint_of};
ghost use Rattle.lay_sheet.specs.SelectorTexts.{behind_sign, behind_joint, AreSteps, IsSelectorText, AreSelectors};

use crate::pieces::{behind_first, split_before};
use crate::selector::{Joint, Name, Selector, Simple, Step};
use lay_units::NoMemory;
use lay_values::{trimmed, without_front};
use std::alloc::Global;

fn is_name_start(byte: u8) -> bool
    ensures { result ≡ is_name_start byte }
{
    byte.is_ascii_alphabetic() || byte == b'_' || byte >= 128
}

fn is_name_part(byte: u8) -> bool
    ensures { result ≡ is_name_part byte }
{
    is_name_start(byte) || byte.is_ascii_digit() || byte == b'-'
}

fn begins_plain_name(text: &[u8]) -> bool
    ensures { result ≡ begins_plain_name text.now }
{
    match text {
        [] => false,
        [first, ..] => is_name_start(*first),
    }
}

fn begins_name(text: &[u8]) -> bool
    ensures { result ≡ begins_name text.now }
{
    match text {
        [] => false,
        [b'-', rest @ ..] => begins_plain_name(rest),
        [first, ..] => is_name_start(*first),
    }
}

/// The bytes of names that a text begins with, and what stands behind them.
fn split_name(text: &[u8]) -> (&[u8], &[u8])
    ensures name { result.0.now ≡ leading is_name_part text.now }
    ensures rest { result.1.now ≡ behind is_name_part text.now }
    ensures shorter { length result.1.now ≤ length text.now }
{
    for (i, b) in text.iter().enumerate() {
        if !is_name_part(*b) {
            return text.split_at(i);
        }
    }
    text.split_at(text.len())
}

/// The name that a text begins with.
fn name_of(alloc: Global, text: &[u8]) -> Result<Option<Name>, NoMemory>
    ensures { IfOk result (λ n. n ≡ name_at_front text.now) }
{
    if !begins_name(text) {
        return Ok(None);
    }
    Ok(Some(Name::new(Vec::from_slice(alloc, split_name(text).0)?)))
}

fn begins_compound(joint: Joint) -> bool
    ensures { result ≡ begins_compound joint }
{
    !matches!(joint, Joint::Same)
}

fn class_of(alloc: Global, text: &[u8]) -> Result<Option<Simple>, NoMemory>
    ensures { IfOk result (λ s. s ≡ option_map Simple.Class (name_at_front text.now)) }
{
    match name_of(alloc, text)? {
        Some(name) => Ok(Some(Simple::Class(name))),
        None => Ok(None),
    }
}

fn label_of(alloc: Global, text: &[u8]) -> Result<Option<Simple>, NoMemory>
    ensures { IfOk result (λ s. s ≡ option_map Simple.Label (name_at_front text.now)) }
{
    match name_of(alloc, text)? {
        Some(name) => Ok(Some(Simple::Label(name))),
        None => Ok(None),
    }
}

fn tag_of(alloc: Global, text: &[u8]) -> Result<Option<Simple>, NoMemory>
    ensures { IfOk result (λ s. s ≡ option_map Simple.Tag (name_at_front text.now)) }
{
    match name_of(alloc, text)? {
        Some(name) => Ok(Some(Simple::Tag(name))),
        None => Ok(None),
    }
}

/// The simple selector that a text begins with, behind a joint.
fn simple_of(alloc: Global, joint: Joint, text: &[u8]) -> Result<Option<Simple>, NoMemory>
    ensures { IfOk result (λ s. s ≡ simple_of joint text.now) }
{
    match text {
        [] => Ok(None),
        [b'.', rest @ ..] => class_of(alloc, rest),
        [b'#', rest @ ..] => label_of(alloc, rest),
        _ if !begins_compound(joint) => Ok(None),
        [b'*', ..] => Ok(Some(Simple::Universal)),
        _ => tag_of(alloc, text),
    }
}

/// What stands behind the simple selector that a text begins with.
fn behind_simple(text: &[u8]) -> &[u8]
    ensures rest { result.now ≡ behind_simple text.now }
    ensures shorter { 0 < length text.now → length result.now < length text.now }
{
    match text {
        [] => &[],
        [b'*', rest @ ..] => rest,
        [_, rest @ ..] => split_name(rest).1,
    }
}

fn begins_with_space(text: &[u8]) -> bool
    ensures { result ≡ begins_with_space text.now }
{
    match text {
        [] => false,
        [first, ..] => first.is_ascii_whitespace(),
    }
}

/// The joint that a text begins with.
fn joint_of(text: &[u8]) -> Joint
    ensures { result ≡ joint_of text.now }
{
    match without_front(text) {
        [] => Joint::Same,
        [b'>', ..] => Joint::Child,
        [b'+', ..] => Joint::Adjacent,
        _ if begins_with_space(text) => Joint::Descendant,
        _ => Joint::Same,
    }
}

fn behind_sign(text: &[u8]) -> &[u8]
    ensures rest { result.now ≡ behind_sign text.now }
    ensures shorter { length result.now ≤ length text.now }
{
    match text {
        [b'>', rest @ ..] => without_front(rest),
        [b'+', rest @ ..] => without_front(rest),
        _ => text,
    }
}

/// What stands behind the joint that a text begins with.
fn behind_joint(text: &[u8]) -> &[u8]
    ensures rest { result.now ≡ behind_joint text.now }
    ensures shorter { length result.now ≤ length text.now }
{
    behind_sign(without_front(text))
}

/// The steps that a text spells; None where it isn't a selector.
fn steps_of(alloc: Global, text: &[u8]) -> Result<Option<Vec<Step>>, NoMemory>
    ensures { IfOk result (λ s. AreSteps Joint.Descendant text.now (option_map (λ v. v.items) s)) }
{
    let mut steps = Vec::new(alloc);
    let mut joint = Joint::Descendant;
    let mut rest = text;
    loop {
        let Some(simple) = simple_of(alloc, joint, rest)? else {
            return Ok(None);
        };
        steps.push(Step { joint, simple })?;
        let behind = behind_simple(rest);
        if behind.is_empty() {
            return Ok(Some(steps));
        }
        joint = joint_of(behind);
        rest = behind_joint(behind);
    }
}

/// The selector that a text spells; None where it is none.
fn selector_of(alloc: Global, text: &[u8]) -> Result<Option<Selector>, NoMemory>
    ensures { IfOk result (λ s. IsSelectorText text.now s) }
{
    match steps_of(alloc, trimmed(text))? {
        Some(steps) => Ok(Some(Selector::new(steps))),
        None => Ok(None),
    }
}

/// The selectors that a rule set's prelude lists; None where one of its parts is none.
pub(crate) fn selectors_of(alloc: Global, prelude: &[u8]) -> Result<Option<Vec<Selector>>, NoMemory>
    ensures { IfOk result (λ s. AreSelectors prelude.now (option_map (λ v. v.items) s)) }
{
    let mut selectors = Vec::new(alloc);
    let mut rest = prelude;
    loop {
        let (part, behind) = split_before(b',', rest);
        let Some(selector) = selector_of(alloc, part)? else {
            return Ok(None);
        };
        selectors.push(selector)?;
        if behind.is_empty() {
            return Ok(Some(selectors));
        }
        rest = behind_first(behind);
    }
}
