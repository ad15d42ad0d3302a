//! Asks the calls for boxes and their geometry what the tables of a folder say, and prints for each
//! row whether its answer came: `lay_box_cases FOLDER`. `lay_box_cases CALL TEXT` prints the answer
//! to one text.
//!
//! The ending of a table's name is the call, and the beginning of it is the section of CSS 2.2
//! whose rules are shown. Rows are lines `NAME: TEXT -> ANSWER`; lines that begin with `#` say what
//! TEXT and ANSWER are.
#![tactic(auto)]

mod auto_columns;
mod borders;
mod boxes;
mod drawn_floats;
mod float_draws;
mod float_page;
mod floats;
mod formatting;
mod grids;
mod heights;
mod lengths;
mod margins;
mod parts;
mod plain_floats;
mod trees;
mod widths;

use anyhow::{Context, Result, bail};
use lay_case_reading::files;
use std::alloc::Global;
use std::rt::{Env, Files};
use std::{env, fs};

fn main(rt: HostRuntime) -> Result<()> {
    match (word(&rt, 1)?, word(&rt, 2)?) {
        (Some(call), Some(text)) => {
            let answer = answer(rt.alloc(), call.as_str(), text.as_str())?;
            println!(rt; "{answer}")?;
        }
        (Some(folder), None) => {
            for table in files(&rt, folder.as_str())? {
                go_through(&rt, folder.as_str(), table.as_str())?;
            }
        }
        _ => bail!("usage: lay_box_cases FOLDER, or lay_box_cases CALL TEXT"),
    }
    Ok(())
}

fn word(rt: &(impl Env + AllocGlobal), at: usize) -> Result<Option<String>> {
    Ok(env::args(rt)?.nth(at))
}

/// Goes through the rows of a table.
fn go_through(rt: &(impl Files + Print + AllocGlobal), folder: &str, table: &str) -> Result<()> {
    let path = format!(in rt.alloc(); "{folder}/{table}")?;
    let text = fs::read_to_string(rt, path.as_str()).context("reading a table")?;
    let Some((_, call)) = table.rsplit_once('.') else {
        bail!("{table} names no call");
    };
    for row in text.as_str().lines() {
        if !row.is_empty() && !row.starts_with('#') {
            print_row(rt, table, call, row)?;
        }
    }
    Ok(())
}

/// Prints whether the answer of a row comes.
fn print_row(rt: &(impl Print + AllocGlobal), table: &str, call: &str, row: &str) -> Result<()> {
    let Some((name, rest)) = row.split_once(": ") else {
        bail!("{table} has a line that is no row: {row}");
    };
    let Some((text, wanted)) = rest.split_once("->") else {
        bail!("{table} has a line that is no row: {row}");
    };
    let answer = answer(rt.alloc(), call, text.trim()).context(name)?;
    if answer.as_str() == wanted.trim() {
        println!(rt; "{table}: {name}: ok")?;
    } else {
        println!(rt; "{table}: {name}: NOT SO, but {answer}")?;
    }
    Ok(())
}

/// The answer of a call to a text.
fn answer(alloc: Global, call: &str, text: &str) -> Result<String> {
    match call {
        "boxes" => boxes::of_all_contexts(alloc, text),
        "box-nodes" => boxes::with_nodes(alloc, text),
        "box-styles" => boxes::with_styles(alloc, text),
        "box-counts" => boxes::count(alloc, text),
        "formatting-contexts" => formatting::of_document(alloc, text),
        "inline-parts" => parts::of_inlines(alloc, text),
        "former-parents" => parts::former(alloc, text),
        "block-widths" => widths::of_block(alloc, text),
        "float-widths" => widths::of_float(alloc, text),
        "replaced-sizes" => widths::of_replaced(alloc, text),
        "flow-heights" => heights::of_flow(alloc, text),
        "root-heights" => heights::of_root(alloc, text),
        "bounded-heights" => heights::bounded(alloc, text),
        "collapsed-margins" => margins::collapsed(alloc, text),
        "margin-runs" => margins::runs_of(alloc, text),
        "floats" => floats::answers(alloc, text),
        "drawn-floats" => drawn_floats::compared(alloc, text),
        "drawn-sums" => drawn_floats::summed(alloc, text),
        "slots" => grids::slots_of(alloc, text),
        "columns-fixed" => grids::columns(alloc, text),
        "columns-auto" => auto_columns::answer(alloc, text),
        "rows" => grids::heights(alloc, text),
        "winner" => borders::winning(alloc, text),
        "resolve" => borders::resolved(alloc, text),
        "tree-lines" => trees::lines(alloc, text),
        "tree-piece" => trees::piece_line(alloc, text),
        _ => bail!("no call is named {call}"),
    }
}
