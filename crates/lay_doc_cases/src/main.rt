//! Makes the calls that files describe, of documents, values, computed styles, cells and faces, and
//! prints for each case whether its answers were those that its file has: `lay_doc_cases FOLDER` goes
//! through the folder's files, by their names.
//!
//! A file says what it is about, and then has cases. A case is a line `case NAME`, and calls that are
//! made in turn, each a line `CALL -> ANSWER`, or `CALL` where the answer is `done`. Lines that begin
//! with `#` are remarks. The ending of a file's name is the kind of its calls; which calls there are is
//! said in `values.rt`, `styles.rt`, `edits.rt`, `cells.rt` and `faces.rt`.
#![tactic(auto)]

mod case;
mod cells;
mod edits;
mod faces;
mod halving;
mod notation;
mod properties;
mod styles;
mod values;

use crate::case::first_difference;
use crate::cells::HalvingCells;
use crate::edits::EditedDocument;
use crate::faces::OneFace;
use crate::styles::ComputedStyles;
use crate::values::ReadValues;
use anyhow::{Context, Result, bail};
use std::alloc::Global;
use std::rt::{Env, Files};
use std::{env, fs};

fn main(rt: HostRuntime) -> Result<()> {
    let folder = folder(&rt)?;
    for file in files(&rt, folder.as_str())? {
        go_through(&rt, folder.as_str(), file.as_str())?;
    }
    Ok(())
}

/// The first word of the command line.
fn folder(rt: &(impl Env + AllocGlobal)) -> Result<String> {
    match env::args(rt)?.nth(1) {
        Some(folder) => Ok(folder),
        None => bail!("usage: lay_doc_cases FOLDER"),
    }
}

/// The names of a folder's files, in order.
fn files<R: Files + AllocGlobal + Clone + Drop>(rt: &R, folder: &str) -> Result<Vec<String>> {
    let mut names = Vec::new(rt.alloc());
    for entry in fs::read_dir(rt, folder)? {
        let entry = entry?;
        names.push(String::from_str(rt.alloc(), entry.file_name())?)?;
    }
    names.sort()?;
    Ok(names)
}

/// Goes through the cases of a file, and prints a line for each.
fn go_through(rt: &(impl Files + Print + AllocGlobal), folder: &str, file: &str) -> Result<()> {
    let path = format!(in rt.alloc(); "{folder}/{file}")?;
    let text = fs::read_to_string(rt, path.as_str()).context("reading a file of cases")?;
    for case in text.as_str().split("\ncase ").skip(1) {
        let (name, lines) = case.split_once('\n').unwrap_or((case, ""));
        match difference(rt.alloc(), file, lines)? {
            None => println!(rt; "{file}: {name}: ok")?,
            Some(found) => println!(rt; "{file}: {name}: NOT SO, but {found}")?,
        }
    }
    Ok(())
}

/// The first difference in a case of a file, whose calls are of the kind that its name ends with.
fn difference(alloc: Global, file: &str, lines: &str) -> Result<Option<String>> {
    let (_, kind) = file.rsplit_once('.').unwrap_or((file, ""));
    match kind {
        "values" => first_difference(alloc, &mut ReadValues, lines),
        "styles" => first_difference(alloc, &mut ComputedStyles, lines),
        "edits" => first_difference(alloc, &mut EditedDocument::new(alloc)?, lines),
        "cells" => first_difference(alloc, &mut HalvingCells::new(alloc), lines),
        "faces" => first_difference(alloc, &mut OneFace::new(), lines),
        _ => bail!("no kind of cases: {file}"),
    }
}
