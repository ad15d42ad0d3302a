//! The command that `clap` reads the words by.

ghost use Rattle.std.specs.Prelude.{◌≡◌, IfOk, false};
ghost use Rattle.clap.specs.Words.{app_of, rule_of};
ghost use Rattle.clap.specs.declared.builder.command.Command.TheViews.{out-Command as fields_of};
ghost use Rattle.lay_words.specs.Command.{our_app, gen_app, hit_app, run_app, option_given, plain};

use clap::{Arg, ArgAction, Command};
use std::alloc::{AllocError, Global};

/// The command with its five subcommands. Its words are those behind the program's name, and it answers no
/// `--help`, no `--version` and no `help`.
pub(crate) fn command<'a>(alloc: Global) -> Result<Command<'a>, AllocError>
    ensures { IfOk result (λ c. app_of c ≡ our_app) }
{
    let run = run(alloc)?;
    let generate = generate(alloc)?;
    let hit = hit(alloc)?;
    Command::new(alloc, "lay")
        .no_binary_name(true)
        .disable_help_flag(true)
        .disable_help_subcommand(true)
        .subcommand_required(true)
        .subcommand(run)?
        .subcommand(generate)?
        .subcommand(hit)?
        .subcommand(plain(alloc, "check"))?
        .subcommand(plain(alloc, "scratch"))
}

fn run<'a>(alloc: Global) -> Result<Command<'a>, AllocError>
    ensures app { IfOk result (λ c. app_of c ≡ run_app) }
    ensures local { IfOk result (λ c. (fields_of c).has_globals ≡ false) }
{
    plain(alloc, "run").arg(option(alloc, "workers"))
}

fn generate<'a>(alloc: Global) -> Result<Command<'a>, AllocError>
    ensures app { IfOk result (λ c. app_of c ≡ gen_app) }
    ensures local { IfOk result (λ c. (fields_of c).has_globals ≡ false) }
{
    plain(alloc, "gen")
        .arg(option(alloc, "size"))?
        .arg(option(alloc, "seed"))?
        .arg(option(alloc, "workers"))
}

fn hit<'a>(alloc: Global) -> Result<Command<'a>, AllocError>
    ensures app { IfOk result (λ c. app_of c ≡ hit_app) }
    ensures local { IfOk result (λ c. (fields_of c).has_globals ≡ false) }
{
    plain(alloc, "hit")
        .arg(option(alloc, "x"))?
        .arg(option(alloc, "y"))
}

/// A subcommand without options.
fn plain<'a>(alloc: Global, name: &'a str) -> Command<'a>
    ensures app { app_of result ≡ plain name.entry.now }
    ensures local { (fields_of result).has_globals ≡ false }
{
    Command::new(alloc, name).disable_help_flag(true)
}

/// An option `--name` with a value. `clap` lists the values of one that is given several times.
fn option<'a>(alloc: Global, name: &'a str) -> Arg<'a>
    ensures rule { rule_of result ≡ option_given name.entry.now }
    ensures local { result.global ≡ false }
{
    Arg::new(alloc, name).long(name).action(ArgAction::Append)
}
