//! Folders of cases, and what is printed of a case.

use crate::comparison::Comparison;
use anyhow::{Context, Result};
use std::fs;
use std::rt::Files;

/// The names of a folder's files, in byte order.
pub fn files<R: Files + AllocGlobal + Clone + Drop>(rt: &R, folder: &str) -> Result<Vec<String>> {
    let mut names = Vec::new(rt.alloc());
    for entry in fs::read_dir(rt, folder).context("listing a folder")? {
        let entry = entry?;
        names.push(String::from_str(rt.alloc(), entry.file_name())?)?;
    }
    names.sort()?;
    Ok(names)
}

/// The bytes of the run document `NAME.json` of a folder.
pub fn run_document(rt: &(impl Files + AllocGlobal), folder: &str, name: &str) -> Result<Vec<u8>> {
    let path = format!(in rt.alloc(); "{folder}/{name}.json")?;
    fs::read(rt, path.as_str()).context("reading a run document")
}

/// Prints what came of a case of a file.
pub fn print(
    rt: &(impl Print + AllocGlobal),
    name: &str,
    case: &str,
    comparison: &Comparison,
) -> Result<()> {
    let lacking = comparison.lacking.as_str();
    match &comparison.other {
        None => println!(rt; "{name}: {case}: ok{lacking}")?,
        Some(other) => println!(rt; "{name}: {case}: NOT SO, but {other}{lacking}")?,
    }
    Ok(())
}
