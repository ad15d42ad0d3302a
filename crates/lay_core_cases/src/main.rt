//! Makes the calls on cores that files describe, and prints for each case whether its answers were those that its file has:
//! `lay_core_cases FOLDER` goes through the folder's files, by their names. `lay_core_cases FOLDER answers` prints the cases with the
//! answers that come.
//!
//! `NAME.json` is a run document, whose editors are taken as none. `NAME.calls` beside it has cases, each over a core of that document:
//! a line `case NAME`, and calls that are made in turn, each a line `CALL -> ANSWER`, or `CALL` where the answer is `done`. Lines that
//! begin with `#` are remarks. Which calls there are is said in `core_call.rt` of lay_case_reading, and what of a call that lacks memory
//! in its `trial.rt`; `tools/refuse_calls` has each request for memory of the cases in `refusals.calls` refused.
#![tactic(auto)]

mod claims;
mod core_calls;
mod keys;
mod one_core;
mod questions;
mod said;

use crate::one_core::OneCore;
use anyhow::{Context, Result, bail};
use lay_case_reading::{Subject, answers, compared, files, print, run_document};
use lay_core::Core;
use lay_json::read_run;
use lay_run::RunDoc;
use lay_units::NoMemory;
use std::alloc::Global;
use std::rt::{Env, Files};
use std::{env, fs};

/// How many calls of editors a case may have.
const CALLS: u32 = 1000;

fn main(rt: HostRuntime) -> Result<()> {
    let folder = word(&rt, 1)?;
    let Some(folder) = folder else {
        bail!("usage: lay_core_cases FOLDER [answers]");
    };
    let shows = word(&rt, 2)?.is_some();
    for file in files(&rt, folder.as_str())? {
        if let Some(name) = file.as_str().strip_suffix(".calls") {
            go_through(&rt, folder.as_str(), name, shows)?;
        }
    }
    Ok(())
}

/// The word of the command line at a place.
fn word(rt: &(impl Env + AllocGlobal), place: usize) -> Result<Option<String>> {
    Ok(env::args(rt)?.nth(place))
}

/// Goes through the cases of a file.
fn go_through(
    rt: &(impl Files + Print + AllocGlobal),
    folder: &str,
    name: &str,
    shows: bool,
) -> Result<()> {
    let path = format!(in rt.alloc(); "{folder}/{name}.calls")?;
    let text = fs::read_to_string(rt, path.as_str()).context("reading a file of calls")?;
    for case in text.as_str().split("\ncase ").skip(1) {
        let bytes = run_document(rt, folder, name)?;
        try_case(rt, name, &bytes, case, shows)?;
    }
    Ok(())
}

/// Makes the calls of a case on a core of the document of these bytes, and prints a line for it, or the answers that come.
fn try_case(
    rt: &(impl Print + AllocGlobal),
    name: &str,
    bytes: &[u8],
    case: &str,
    shows: bool,
) -> Result<()> {
    let mut subject = subject(rt.alloc(), run(rt.alloc(), name, bytes)?)?;
    try_on(rt, &mut subject, name, case, shows)
}

fn try_on<S: Subject>(
    rt: &(impl Print + AllocGlobal),
    subject: &mut S,
    name: &str,
    case: &str,
    shows: bool,
) -> Result<()> {
    let (case, lines) = case.split_once('\n').unwrap_or((case, ""));
    if shows {
        let answers = answers(rt.alloc(), subject, lines)?;
        println!(rt; "case {case}\n{answers}")?;
        return Ok(());
    }
    let comparison = compared(rt.alloc(), subject, lines)?;
    print(rt, name, case, &comparison)
}

/// The run document of these bytes.
fn run(alloc: Global, name: &str, bytes: &[u8]) -> Result<RunDoc> {
    match read_run(alloc, bytes) {
        Ok(run) => Ok(run),
        Err(_) => bail!("{name}.json has a fault"),
    }
}

/// A core of the document of a run.
fn subject(alloc: Global, run: RunDoc) -> Result<OneCore<Core>> {
    match new_core(alloc, run) {
        Ok(core) => Ok(OneCore::new(alloc, core)),
        Err(NoMemory) => bail!("out of memory"),
    }
}

fn new_core(alloc: Global, run: RunDoc) -> Result<Core, NoMemory> {
    let (doc, face, _scripts, _listed) = run.into_parts();
    Core::new(alloc, doc, face, CALLS)
}
