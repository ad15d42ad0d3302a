//! The calls on a core:
//!
//!     set NODE PROPERTY: VALUE          the edits of an editor (`edits.rt`)
//!     clear NODE PROPERTY
//!     text NODE WORDS
//!     insert PARENT INDEX ID            an element
//!     insert-text PARENT INDEX ID WORDS
//!     remove NODE
//!     latest, sync                      the replies to them and to edits are written as in a report
//!     settle, publish
//!     laid, draws, accepted, entries
//!     few-laid NUMBER                   whether no more than so many claims were granted
//!     laid-of PHASE NODE
//!     contexts VERSION                  of how many contexts the tree of a version is, or `none`
//!     as-scratch                        whether the tree of the present version is that of a layout from nothing
//!     cells ID ..                       for each the grants of its three cells
//!     granted                           the cells that were granted since the last such call
//!
//! and what is done with claims by hand, each of which is held to the end, so that it can be finished late, or twice:
//!
//!     claim PHASE NODE        the answer: `granted PHASE NODE NUMBER`, `taken NUMBER`, `waiting PHASE NODE` and so on
//!     claim-next
//!     claim-some LIMIT        the claims of a batch, or why there are none
//!     finish NUMBER           a value is worked out for the claim of this number, and finished under it
//!     finish NUMBER as OTHER  or under another number
//!     finish-all NUMBER ..    the same of several at once; that of `-NUMBER` comes back without a value
//!     give-back NUMBER

use crate::edits::one_edit;
use crate::keys::Key;
use crate::words::{first, node, number, small_number};
use lay_doc::NodeId;
use lay_history::edits::Edits;
use lay_units::NoMemory;
use std::alloc::Global;

/// A call on a core.
#[derive(Drop)]
pub enum CoreCall {
    Editor(EditorCall),
    Cell(CellCall),
    Question(Question),
    Settle,
    Publish,
    Granted,
}

/// A call of an editor.
#[derive(Drop)]
pub enum EditorCall {
    Edit(Edits),
    Latest,
    Sync,
}

/// A call of one who works on the cells.
#[derive(Drop)]
pub enum CellCall {
    Claim(Key),
    ClaimNext,
    ClaimSome(u32),
    Finish { number: u64, under: u64 },
    FinishAll(Vec<Taken>),
    GiveBack(u64),
}

/// The number of a claim that is finished, or that comes back without a value.
#[derive(Clone, Copy)]
pub struct Taken {
    pub number: u64,
    pub is_back: bool,
}

/// A call that changes nothing.
#[derive(Drop)]
pub enum Question {
    Laid,
    Draws,
    Accepted,
    Entries,
    FewLaid(u64),
    LaidOf(Key),
    Contexts(u64),
    AsScratch,
    Cells(Vec<NodeId>),
}

impl CoreCall {
    /// The call of a line; None where it is none.
    pub fn read(alloc: Global, line: &str) -> Result<Option<CoreCall>, NoMemory> {
        let (call, rest) = first(line);
        if let Some(call) = EditorCall::read(alloc, call, rest)? {
            return Ok(Some(CoreCall::Editor(call)));
        }
        if let Some(call) = CellCall::read(alloc, call, rest)? {
            return Ok(Some(CoreCall::Cell(call)));
        }
        match call {
            "settle" => Ok(Some(CoreCall::Settle)),
            "publish" => Ok(Some(CoreCall::Publish)),
            "granted" => Ok(Some(CoreCall::Granted)),
            _ => Ok(Question::read(alloc, call, rest)?.map(|question| CoreCall::Question(
                question,
            ))),
        }
    }
}

impl EditorCall {
    fn read(alloc: Global, call: &str, rest: &str) -> Result<Option<EditorCall>, NoMemory> {
        match call {
            "latest" => Ok(Some(EditorCall::Latest)),
            "sync" => Ok(Some(EditorCall::Sync)),
            _ => Ok(one_edit(alloc, call, rest)?.map(|edits| EditorCall::Edit(edits))),
        }
    }
}

impl CellCall {
    fn read(alloc: Global, call: &str, rest: &str) -> Result<Option<CellCall>, NoMemory> {
        match call {
            "claim" => Ok(Key::read(rest).map(|key| CellCall::Claim(key))),
            "claim-next" => Ok(Some(CellCall::ClaimNext)),
            "claim-some" => Ok(small_number(rest).map(|limit| CellCall::ClaimSome(limit))),
            "finish" => Ok(finish(rest)),
            "finish-all" => Ok(all_taken(alloc, rest)?.map(|all| CellCall::FinishAll(all))),
            "give-back" => Ok(number(rest).map(|number| CellCall::GiveBack(number))),
            _ => Ok(None),
        }
    }
}

impl Question {
    fn read(alloc: Global, call: &str, rest: &str) -> Result<Option<Question>, NoMemory> {
        match call {
            "laid" => Ok(Some(Question::Laid)),
            "draws" => Ok(Some(Question::Draws)),
            "accepted" => Ok(Some(Question::Accepted)),
            "entries" => Ok(Some(Question::Entries)),
            "few-laid" => Ok(number(rest).map(|most| Question::FewLaid(most))),
            "laid-of" => Ok(Key::read(rest).map(|key| Question::LaidOf(key))),
            "contexts" => Ok(number(rest).map(|version| Question::Contexts(version))),
            "as-scratch" => Ok(Some(Question::AsScratch)),
            "cells" => Ok(nodes(alloc, rest)?.map(|nodes| Question::Cells(nodes))),
            _ => Ok(None),
        }
    }
}

/// `NUMBER` or `NUMBER as OTHER`: which claim is finished, and under which number.
fn finish(text: &str) -> Option<CellCall> {
    let (one, rest) = first(text);
    let under = match first(rest) {
        ("as", other) => other,
        _ => one,
    };
    Some(CellCall::Finish {
        number: number(one)?,
        under: number(under)?,
    })
}

fn all_taken(alloc: Global, text: &str) -> Result<Option<Vec<Taken>>, NoMemory> {
    let mut all = Vec::new(alloc);
    for word in text.split(' ') {
        let Some(one) = one_taken(word) else {
            return Ok(None);
        };
        all.push(one)?;
    }
    Ok(Some(all))
}

/// `NUMBER` or `-NUMBER`.
fn one_taken(word: &str) -> Option<Taken> {
    let (is_back, word) = match word.strip_prefix('-') {
        Some(rest) => (true, rest),
        None => (false, word),
    };
    let number = number(word)?;
    Some(Taken { number, is_back })
}

fn nodes(alloc: Global, text: &str) -> Result<Option<Vec<NodeId>>, NoMemory> {
    let mut nodes = Vec::new(alloc);
    for word in text.split(' ') {
        let Some(node) = node(word) else {
            return Ok(None);
        };
        nodes.push(node)?;
    }
    Ok(Some(nodes))
}
