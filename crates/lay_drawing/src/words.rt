//! The words of the command line.

ghost use Rattle.std.specs.Prelude.{◌≡◌, IfOk, [], map, string_bytes, codes, false, option_map, unwrap_or};
ghost use Rattle.clap.specs.Words.{app_of, found_of, rows_of, rule_of};
ghost use Rattle.lay_words.specs.Agree.{values_at};
ghost use Rattle.lay_drawing.specs.Words.{drawing_app, version_rule, between_rule, hit_rule, tree_at, between_at, hit_at, wish_with_one};
ghost use Rattle.lay_drawing.specs.Words.{wish_with_two, wish_with_three, wish_with_rest, wish_of_trees, wish_with, wish_of};

use crate::hit::PieceName;
use crate::line::kind;
use crate::numbers::{number, small};
use clap::error::ErrorKind;
use clap::{Arg, ArgAction, ArgMatches, Command};
use lay_units::NoMemory;
use std::alloc::{AllocError, Global};

/// What the words ask for.
#[derive(Clone, Copy)]
pub enum Wish {
    /// The picture of the last tree, or of that of a version.
    Tree(Option<u64>),
    /// What the trees of two versions differ in.
    Between(u64, u64),
    /// The picture of the last tree, in which the piece of this name is marked.
    Hit(PieceName),
}

/// What these words ask for; None where they are wrong.
pub(crate) fn read_words(alloc: Global, words: &[String]) -> Result<Option<Wish>, NoMemory>
    ensures { IfOk result (λ w. w ≡ wish_of (map string_bytes words.now)) }
{
    let command = command(alloc)?;
    match command.try_get_matches_from(words) {
        Ok(matches) => Ok(wish_found(&matches)),
        Err(error) => {
            if error.kind() == ErrorKind::OutOfMemory {
                Err(NoMemory)
            } else {
                Ok(None)
            }
        }
    }
}

/// The command that reads the words.
fn command<'a>(alloc: Global) -> Result<Command<'a>, AllocError>
    ensures { IfOk result (λ c. app_of c ≡ drawing_app) }
{
    let version = version(alloc);
    let between = between(alloc);
    let hit = hit(alloc);
    Command::new(alloc, "lay_picture")
        .no_binary_name(true)
        .disable_help_flag(true)
        .disable_version_flag(true)
        .arg(version)?
        .arg(between)?
        .arg(hit)
}

fn version<'a>(alloc: Global) -> Arg<'a>
    ensures rule { rule_of result ≡ version_rule }
    ensures local { result.global ≡ false }
{
    Arg::new(alloc, "version")
        .long("version")
        .action(ArgAction::Append)
}

/// An option with two values.
fn between<'a>(alloc: Global) -> Arg<'a>
    ensures rule { rule_of result ≡ between_rule }
    ensures local { result.global ≡ false }
{
    Arg::new(alloc, "between")
        .long("between")
        .action(ArgAction::Append)
        .num_args(2usize)
}

/// An option with three values.
fn hit<'a>(alloc: Global) -> Arg<'a>
    ensures rule { rule_of result ≡ hit_rule }
    ensures local { result.global ≡ false }
{
    Arg::new(alloc, "hit")
        .long("hit")
        .action(ArgAction::Append)
        .num_args(3usize)
}

/// What is asked for in what `clap` found.
fn wish_found(matches: &ArgMatches<'_>) -> Option<Wish>
    ensures { result
        ≡ wish_with (values_at (codes "version") (rows_of (found_of matches.now)))
        (values_at (codes "between") (rows_of (found_of matches.now)))
        (values_at (codes "hit") (rows_of (found_of matches.now))) }
{
    let versions = given(matches.get_raw("version"));
    let between = given(matches.get_raw("between"));
    let hit = given(matches.get_raw("hit"));
    wish_with(versions, between, hit)
}

/// The values of an option, of which there may be none.
fn given<'a>(values: Option<&'a [&'a str]>) -> &'a [&'a str]
    ensures { map (λ v. v.now) result.now ≡ unwrap_or (option_map (λ s. map (λ v. v.now) s.now) values.entry) [] }
{
    values.unwrap_or(&[])
}

fn wish_with(versions: &[&str], between: &[&str], hit: &[&str]) -> Option<Wish>
    ensures { result ≡ wish_with (map (λ v. v.now) versions.now) (map (λ v. v.now) between.now) (map (λ v. v.now) hit.now) }
{
    match hit.split_first() {
        None => wish_of_trees(versions, between),
        Some((kind, more)) => {
            if versions.is_empty() && between.is_empty() {
                wish_with_three(kind, more)
            } else {
                None
            }
        }
    }
}

fn wish_of_trees(versions: &[&str], between: &[&str]) -> Option<Wish>
    ensures { result ≡ wish_of_trees (map (λ v. v.now) versions.now) (map (λ v. v.now) between.now) }
{
    match between.split_first() {
        None => wish_with_one(versions),
        Some((before, more)) => {
            if versions.is_empty() {
                wish_with_two(before, more)
            } else {
                None
            }
        }
    }
}

fn wish_with_one(versions: &[&str]) -> Option<Wish>
    ensures { result ≡ wish_with_one (map (λ v. v.now) versions.now) }
{
    match versions.split_first() {
        None => Some(Wish::Tree(None)),
        Some((value, more)) => {
            if more.is_empty() {
                tree_at(value)
            } else {
                None
            }
        }
    }
}

fn wish_with_two(before: &str, values: &[&str]) -> Option<Wish>
    ensures { result ≡ wish_with_two before.now (map (λ v. v.now) values.now) }
{
    match values.split_first() {
        None => None,
        Some((after, more)) => {
            if more.is_empty() {
                between_at(before, after)
            } else {
                None
            }
        }
    }
}

fn wish_with_three(kind: &str, values: &[&str]) -> Option<Wish>
    ensures { result ≡ wish_with_three kind.now (map (λ v. v.now) values.now) }
{
    match values.split_first() {
        None => None,
        Some((node, rest)) => wish_with_rest(kind, node, rest),
    }
}

fn wish_with_rest(kind: &str, node: &str, values: &[&str]) -> Option<Wish>
    ensures { result ≡ wish_with_rest kind.now node.now (map (λ v. v.now) values.now) }
{
    match values.split_first() {
        None => None,
        Some((part, more)) => {
            if more.is_empty() {
                hit_at(kind, node, part)
            } else {
                None
            }
        }
    }
}

fn tree_at(value: &str) -> Option<Wish>
    ensures { result ≡ tree_at value.now }
{
    let version = number(value.as_bytes())?;
    Some(Wish::Tree(Some(version)))
}

fn between_at(before: &str, after: &str) -> Option<Wish>
    ensures { result ≡ between_at before.now after.now }
{
    let before = number(before.as_bytes())?;
    let after = number(after.as_bytes())?;
    Some(Wish::Between(before, after))
}

fn hit_at(word: &str, node: &str, part: &str) -> Option<Wish>
    ensures { result ≡ hit_at word.now node.now part.now }
{
    let kind = kind(word.as_bytes())?;
    let node = small(node.as_bytes())?;
    let part = small(part.as_bytes())?;
    Some(Wish::Hit(PieceName { kind, node, part }))
}
