//! Reading the words.

ghost use Rattle.std.specs.Prelude.{◌≡◌, IfOk, map, string_bytes, Some, None};
ghost use Rattle.clap.specs.Words.{found_of, rows_of, subcommand_rows_of};
ghost use Rattle.lay_words.specs.Grammar.{form_of_words, gen_with, hit_with, run_with, number_of};
ghost use Rattle.lay_words.specs.Agree.{form_in, gen_found, hit_found, number_found, run_found};

use crate::command::command;
use crate::form::Form;
use crate::number::number_of;
use crate::odd::any_odd;
use clap::ArgMatches;
use clap::error::ErrorKind;
use lay_units::NoMemory;
use std::alloc::Global;

/// The form of these words; None exactly where they have none of the forms.
pub fn read_words(alloc: Global, words: &[String]) -> Result<Option<Form>, NoMemory>
    ensures { IfOk result (λ form. form ≡ form_of_words (map string_bytes words.now)) }
{
    if any_odd(words) {
        return Ok(None);
    }
    let command = command(alloc)?;
    match command.try_get_matches_from(words) {
        Ok(matches) => Ok(form_found(&matches)),
        Err(error) => {
            if error.kind() == ErrorKind::OutOfMemory {
                Err(NoMemory)
            } else {
                Ok(None)
            }
        }
    }
}

/// The form in what `clap` found.
fn form_found(matches: &ArgMatches<'_>) -> Option<Form>
    ensures { result ≡ form_in (subcommand_rows_of matches.now) }
{
    match matches.subcommand() {
        Some((name, inner)) => named_form(name, inner),
        None => None,
    }
}

/// The form of a subcommand, by its name and its matches.
fn named_form(name: &str, matches: &ArgMatches<'_>) -> Option<Form>
    ensures { result ≡ form_in (Some (name.now, rows_of (found_of matches.now))) }
{
    if name == "run" {
        run_found(matches)
    } else if name == "gen" {
        gen_found(matches)
    } else if name == "hit" {
        hit_found(matches)
    } else if name == "check" {
        Some(Form::Check)
    } else {
        Some(Form::Scratch)
    }
}

fn run_found(matches: &ArgMatches<'_>) -> Option<Form>
    ensures { result ≡ run_found (rows_of (found_of matches.now)) }
{
    run_with(number_found(matches, "workers", Some(4), 1, 16))
}

fn gen_found(matches: &ArgMatches<'_>) -> Option<Form>
    ensures { result ≡ gen_found (rows_of (found_of matches.now)) }
{
    let size = number_found(matches, "size", None, 1, 1000);
    let seed = number_found(matches, "seed", None, 0, 2147483647);
    gen_with(size, seed, number_found(matches, "workers", Some(4), 1, 16))
}

fn hit_found(matches: &ArgMatches<'_>) -> Option<Form>
    ensures { result ≡ hit_found (rows_of (found_of matches.now)) }
{
    let x = number_found(matches, "x", None, 0, 1000000);
    hit_with(x, number_found(matches, "y", None, 0, 1000000))
}

fn run_with(workers: Option<u32>) -> Option<Form>
    ensures { result ≡ run_with workers }
{
    let workers = workers?;
    Some(Form::Run { workers })
}

fn gen_with(size: Option<u32>, seed: Option<u32>, workers: Option<u32>) -> Option<Form>
    ensures { result ≡ gen_with size seed workers }
{
    match (size, seed, workers) {
        (Some(size), Some(seed), Some(workers)) => Some(Form::Gen {
            size,
            seed,
            workers,
        }),
        _ => None,
    }
}

fn hit_with(x: Option<u32>, y: Option<u32>) -> Option<Form>
    ensures { result ≡ hit_with x y }
{
    match (x, y) {
        (Some(x), Some(y)) => Some(Form::Hit { x, y }),
        _ => None,
    }
}

/// The number of an option that was found, by its name.
fn number_found(
    matches: &ArgMatches<'_>,
    name: &str,
    default: Option<u32>,
    low: u32,
    high: u32,
) -> Option<u32>
    ensures { result ≡ number_found name.now default low high (rows_of (found_of matches.now)) }
{
    match matches.get_raw(name) {
        Some(values) => number_of(default, low, high, values),
        None => default,
    }
}
