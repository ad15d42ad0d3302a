//! Makes the calls of `draw` that files describe, and prints for each how it ended and whether what was written is what
//! was wanted: `lay_picture_cases FOLDER`.
//!
//! `NAME.report` is a report, `NAME.answer` what is written for it, and `NAME.terms`, where it is there, the words and
//! how the streams behave (`terms.rt`).
#![tactic(auto)]

mod call;
mod terms;

use crate::call::{answer_to, ending};
use crate::terms::Terms;
use anyhow::{Context, Result, bail};
use std::rt::Files;
use std::{env, fs};

fn main(rt: HostRuntime) -> Result<()> {
    let mut words = env::args(&rt)?.skip(1);
    let Some(folder) = words.next() else {
        bail!("usage: lay_picture_cases FOLDER");
    };
    for file in names(&rt, folder.as_str())? {
        if let Some(name) = file.as_str().strip_suffix(".report") {
            try_case(&rt, folder.as_str(), name)?;
        }
    }
    Ok(())
}

/// The names in a folder, in byte order.
fn names<R: Files + AllocGlobal + Clone + Drop>(rt: &R, folder: &str) -> Result<Vec<String>> {
    let mut names = Vec::new(rt.alloc());
    for entry in fs::read_dir(rt, folder).context("listing a folder")? {
        let entry = entry?;
        names.push(String::from_str(rt.alloc(), entry.file_name())?)?;
    }
    names.sort()?;
    Ok(names)
}

fn try_case<R: Files + Print + AllocGlobal>(rt: &R, folder: &str, name: &str) -> Result<()> {
    let report = read(rt, folder, name, "report")?;
    let wanted = read(rt, folder, name, "answer")?;
    let path = format!(in rt.alloc(); "{folder}/{name}.terms")?;
    let text = if fs::exists(rt, path.as_str())? {
        fs::read_to_string(rt, path.as_str()).context("reading the terms of a case")?
    } else {
        String::new(rt.alloc())
    };
    let Some(terms) = Terms::read(text.as_str()) else {
        bail!("{name}.terms can't be read");
    };
    let answer = answer_to(rt.alloc(), &terms, report)?;
    let ended = ending(&answer);
    if answer.bytes() == wanted.as_slice() {
        rt.println(format_args!("{name}: {ended}, ok"))?;
    } else {
        rt.println(format_args!("{name}: {ended}, and this isn't what was wanted:"))?;
        rt.println(String::from_utf8_lossy(rt.alloc(), answer.bytes())?)?;
    }
    Ok(())
}

fn read(rt: &(impl Files + AllocGlobal), folder: &str, name: &str, kind: &str) -> Result<Vec<u8>> {
    let path = format!(in rt.alloc(); "{folder}/{name}.{kind}")?;
    fs::read(rt, path.as_str()).context("reading a file of a case")
}
