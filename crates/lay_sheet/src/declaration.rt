//! The declarations of a rule set's block.

ghost use Rattle.std.specs.Prelude.{◌≡◌, ◌≤◌, length, [], ◌++◌, true, IfOk, OnOk, map, option_map};
ghost use Rattle.std.specs.Char.{to_ascii_lowercase};
ghost use Rattle.std.specs.Result.{result_ok};
ghost use Rattle.lay_values.specs.Reading.{without_end, read_declaration};
ghost use Rattle.lay_sheet.specs.Lists.{with_found};
ghost use Rattle.lay_sheet.specs.Declarations.{before_exclamation, before_important, text_of, named_by};
ghost use Rattle.lay_sheet.specs.Declarations.{declaration_named, weighed, declared, declaration_of_part, AreDeclarations};
ghost use Rattle.lay_sheet.specs.Pieces.{block_to, behind_block};

use crate::pieces::{behind_first, split_before, split_part};
use lay_style::Decl;
use lay_units::NoMemory;
use lay_values::{read, read_bytes, trimmed};
use std::alloc::Global;
use std::str::from_utf8;

/// A declaration of a sheet.
#[derive(Clone, Copy)]
pub struct SheetDecl {
    pub decl: Decl,
    /// Whether it ends in `!important`.
    pub important: bool,
}

fn without_end(text: &[u8]) -> &[u8]
    ensures { result.now ≡ without_end text.now }
{
    text.trim_ascii_end()
}

/// A text without the `!` at its end.
fn before_exclamation(text: &[u8]) -> Option<&[u8]>
    ensures { option_map (λ t. t.now) result ≡ before_exclamation text.now }
{
    let last = text.len().checked_sub(1)?;
    if text[last] == b'!' {
        Some(&text[..last])
    } else {
        None
    }
}

/// What stands before `!important`.
fn before_important(text: &[u8]) -> Option<&[u8]>
    ensures { option_map (λ t. t.now) result ≡ before_important text.now }
{
    let (front, word) = text.split_at(text.len().saturating_sub(9));
    if b"important".eq_ignore_ascii_case(word) {
        before_exclamation(without_end(front))
    } else {
        None
    }
}

/// Whether no letter of a text is a capital.
fn is_lower(text: &[u8]) -> bool
    ensures { result ≡ true → map to_ascii_lowercase text.now ≡ text.now }
{
    for byte in text {
        if byte.is_ascii_uppercase() {
            return false;
        }
    }
    true
}

/// The declaration that a property's name in any case and a value give.
fn decl_of(alloc: Global, name: &str, value: &str) -> Result<Option<Decl>, NoMemory>
    ensures { IfOk result (λ d. d ≡ result_ok (read_declaration (map to_ascii_lowercase name.now) value.now)) }
{
    let name = name.to_ascii_lowercase(alloc)?;
    Ok(read(alloc, name.as_str(), value).ok())
}

#[tactic(auto, using(crate::proofs::Utf8Texts::text_is, crate::proofs::Utf8Texts::text_is_none))]
fn text_of(bytes: &[u8]) -> Option<&str>
    ensures { option_map (λ t. t.now) result ≡ text_of bytes.now }
{
    match from_utf8(bytes) {
        Ok(text) => Some(text),
        Err(_) => None,
    }
}

/// The declaration of a name in any case and a value.
fn named_in_any_case(
    alloc: Global,
    important: bool,
    name: &[u8],
    value: &[u8],
) -> Result<Option<SheetDecl>, NoMemory>
    ensures { IfOk result (λ d. d ≡ declaration_named important name.now value.now) }
{
    let Some(name) = text_of(name) else {
        return Ok(None);
    };
    let Some(value) = text_of(value) else {
        return Ok(None);
    };
    match decl_of(alloc, name, value)? {
        Some(decl) => Ok(Some(SheetDecl { decl, important })),
        None => Ok(None),
    }
}

/// The declaration of a name and a value.
fn named(
    alloc: Global,
    important: bool,
    name: &[u8],
    value: &[u8],
) -> Result<Option<SheetDecl>, NoMemory>
    ensures { IfOk result (λ d. d ≡ declaration_named important name.now value.now) }
{
    // Most names have no capital, and what is read then is UTF-8.
    if let Some(decl) = read_bytes(name, value) {
        return Ok(Some(SheetDecl { decl, important }));
    }
    if is_lower(name) {
        return Ok(None);
    }
    named_in_any_case(alloc, important, name, value)
}

fn weighed(alloc: Global, name: &[u8], value: &[u8]) -> Result<Option<SheetDecl>, NoMemory>
    ensures { IfOk result (λ d. d ≡ weighed name.now value.now (before_important value.now)) }
{
    match before_important(value) {
        Some(front) => named(alloc, true, name, front),
        None => named(alloc, false, name, value),
    }
}

/// The declaration of a name and of what stands from its colon on.
fn declared(alloc: Global, name: &[u8], rest: &[u8]) -> Result<Option<SheetDecl>, NoMemory>
    ensures { IfOk result (λ d. d ≡ declared name.now rest.now) }
{
    if rest.is_empty() {
        return Ok(None);
    }
    weighed(alloc, name, trimmed(behind_first(rest)))
}

/// The declaration that a part of a block is.
fn declaration_of(alloc: Global, part: &[u8]) -> Result<Option<SheetDecl>, NoMemory>
    ensures { IfOk result (λ d. d ≡ declaration_of_part part.now) }
{
    let (name, rest) = split_before(b':', part);
    declared(alloc, trimmed(name), rest)
}

fn push_found(decls: &mut Vec<SheetDecl>, found: Option<SheetDecl>) -> Result<(), NoMemory>
    ensures { OnOk result (decls.new.items ≡ decls.old.items ++ with_found found []) }
{
    if let Some(decl) = found {
        decls.push(decl)?;
    }
    Ok(())
}

/// Adds the declaration that a part of a block is, if it is one.
fn push_part(alloc: Global, decls: &mut Vec<SheetDecl>, part: &[u8]) -> Result<(), NoMemory>
    ensures { OnOk result (decls.new.items ≡ decls.old.items ++ with_found (declaration_of_part part.now) []) }
{
    let found = declaration_of(alloc, part)?;
    push_found(decls, found)
}

/// The declarations of the block that a text begins in, in its order; and what stands behind the block.
pub(crate) fn declarations_of(
    alloc: Global,
    text: &[u8],
) -> Result<(Vec<SheetDecl>, &[u8]), NoMemory>
    ensures decls { IfOk result (λ r. AreDeclarations (block_to 0 text.now) r.0.items) }
    ensures rest { IfOk result (λ r. r.1.now ≡ behind_block 0 text.now) }
    ensures shorter { IfOk result (λ r. length r.1.now ≤ length text.now) }
{
    let mut decls = Vec::new(alloc);
    let mut rest = text;
    let mut open = true;
    while open {
        let part = split_part(rest);
        push_part(alloc, &mut decls, part.text)?;
        rest = part.rest;
        open = !part.is_last;
    }
    Ok((decls, rest))
}
