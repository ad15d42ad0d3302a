//! Makes the calls of `lay` that files describe, and prints for each whether its answer is the wanted one:
//! `lay_cases FOLDER` goes through the folders in FOLDER, each named after a section of CSS 2.2 or after what its
//! cases show, and `lay_cases FOLDER SECTION` through one of them.
//!
//! `NAME.json` is a run document, and `NAME.txt` beside it what `lay scratch` answers to it. A file `NAME.cases` has
//! several cases in one, for what needs more than a document (`case.rt` of lay_case_terms says how it is read). Any other file ends
//! the program, as a document without an answer does: no file is passed over.
#![tactic(auto)]

mod call;
mod gates;
mod sweep;
mod turn_gate;

use crate::call::call;
use crate::sweep::{Swept, first_wrong};
use anyhow::{Context, Result, bail};
use lay_case_reading::{files, run_document};
use lay_case_terms::{Answer, Case, PLAIN, Terms, Wanted, reading, with_copies};
use std::rt::Files;
use std::sync::Wait;
use std::thread::Threads;
use std::{env, fs};

fn main(rt: HostRuntime) -> Result<()> {
    let mut words = env::args(&rt)?.skip(1);
    let Some(data) = words.next() else {
        bail!("usage: lay_cases FOLDER [SECTION]");
    };
    if let Some(section) = words.next() {
        return try_section(&rt, data.as_str(), section.as_str());
    }
    for section in files(&rt, data.as_str())? {
        try_section(&rt, data.as_str(), section.as_str())?;
    }
    Ok(())
}

/// Tries the cases of a folder in the data folder.
fn try_section<R: Threads + Wait + Sync + Files + Print + AllocGlobal + Clone + Drop>(
    rt: &R,
    data: &str,
    section: &str,
) -> Result<()> {
    let folder = format!(in rt.alloc(); "{data}/{section}")?;
    for file in files(rt, folder.as_str())? {
        let path = format!(in rt.alloc(); "{section}/{file}")?;
        try_file(rt, data, path.as_str())?;
    }
    Ok(())
}

/// Tries the cases of a file, which is named from the data folder on.
fn try_file<R: Threads + Wait + Sync + Files + Print + AllocGlobal>(
    rt: &R,
    data: &str,
    file: &str,
) -> Result<()> {
    if let Some(name) = file.strip_suffix(".json") {
        try_document(rt, data, name)
    } else if let Some(name) = file.strip_suffix(".cases") {
        try_cases(rt, data, name)
    } else if let Some(name) = file.strip_suffix(".txt") {
        let document = format!(in rt.alloc(); "{data}/{name}.json")?;
        if fs::exists(rt, document.as_str())? {
            Ok(())
        } else {
            bail!("{file} is the answer to no document")
        }
    } else {
        bail!("{file} is no file of cases")
    }
}

/// Tries a document whose answer stands in a file of its own.
fn try_document<R: Threads + Wait + Sync + Files + Print + AllocGlobal>(
    rt: &R,
    data: &str,
    name: &str,
) -> Result<()> {
    let document = run_document(rt, data, name)?;
    let path = format!(in rt.alloc(); "{data}/{name}.txt")?;
    let text = fs::read_to_string(rt, path.as_str()).context("reading the answer to a document")?;
    try_case(rt, name, document, &PLAIN, &Wanted::by_text(text.as_str()))
}

/// Tries the cases that a file has one after the other. What stands before the first one says what they show.
fn try_cases<R: Threads + Wait + Sync + Files + Print + AllocGlobal>(
    rt: &R,
    data: &str,
    name: &str,
) -> Result<()> {
    let path = format!(in rt.alloc(); "{data}/{name}.cases")?;
    let text = fs::read_to_string(rt, path.as_str()).context("reading a file of cases")?;
    for text in text.as_str().split("\ncase ").skip(1) {
        let Some(case) = Case::read(text) else {
            bail!("{name}.cases has a case that can't be read: {text}");
        };
        let full_name = format!(in rt.alloc(); "{name}: {}", case.name())?;
        let document = match case.terms().document() {
            Some(document) => run_document(rt, data, document)?,
            None => with_copies(rt.alloc(), case.document())?,
        };
        try_case(
            rt,
            full_name.as_str(),
            document,
            case.terms(),
            &case.wanted(),
        )?;
    }
    Ok(())
}

/// Makes the calls of a case, and prints whether the answer is the wanted one, and else what it is.
fn try_case<R: Threads + Wait + Sync + Print + AllocGlobal>(
    rt: &R,
    name: &str,
    document: Vec<u8>,
    terms: &Terms<'_>,
    wanted: &Wanted<'_>,
) -> Result<()> {
    let wrong = match terms.sweep() {
        None => wrong_answer(rt, document, terms, wanted)?,
        Some(sweep) => {
            let swept = Swept {
                sweep,
                terms,
                document: &document,
                wanted,
            };
            first_wrong(rt, rt.alloc(), &swept)?
        }
    };
    match wrong {
        None => println!(rt; "{name}: ok")?,
        Some(answer) => {
            let text = str::from_utf8(answer.bytes()).unwrap_or("bytes that are no text");
            println!(rt; "{name}: NOT SO, but {}:\n{text}", answer.status())?;
        }
    }
    Ok(())
}

/// The answer to a call, or the reading of a document where that is wanted; None where it is the wanted one.
fn wrong_answer<R: Threads + Wait + Sync + AllocGlobal>(
    rt: &R,
    document: Vec<u8>,
    terms: &Terms<'_>,
    wanted: &Wanted<'_>,
) -> Result<Option<Answer>> {
    let answer = if wanted.status == "Read" {
        reading(rt.alloc(), &document)?
    } else {
        call(rt, rt.alloc(), terms, document)?
    };
    Ok(if wanted.is(&answer) {
        None
    } else {
        Some(answer)
    })
}
