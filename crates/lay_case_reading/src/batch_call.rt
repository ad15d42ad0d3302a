//! The calls on a core whose cells are laid out by several threads:
//!
//!     hold POINT until POINT, ..     the gate of what is computed then: it holds whoever is at a point until others were reached
//!     met                            whether that gate let a thread go since they were
//!     claim LIMIT                    the claims that are handed out, or why there is none; they stand behind those in hand
//!     compute WORKERS                what comes of the claims in hand, in order; where memory was wanting for some, of these once more
//!     held                           the claims in hand, or those of which the outcomes in hand are
//!     share WORKERS                  deals these claims to the first of so many workers that live on, and has all of them work and finish
//!                                    what comes of them; how many of these cells are clean then
//!     finish                         how many of these outcomes were answered which way
//!     lay LIMIT WORKERS              these three in turn, until no claim is handed out, and why that is
//!     drive WORKERS                  runs the document, and its editors if it has any, with so many workers: `driven`; its core is the
//!                                    one that is called from then on
//!     close-early                    starts an engine of two editors, closes it while a pass is out, and once more when that has made its
//!                                    call
//!     span                           how many microseconds passed in the last of these two calls from the start of the first claim that
//!                                    was worked out to the end of the last one; what `bench/threads` reads
//!     laid, draws
//!     as-scratch                     whether the tree that is published now is that of a layout from nothing

use crate::counts::{Limit, Workers};
use crate::points::{point, points};
use crate::words::first;
use lay_outside::Point;
use lay_units::NoMemory;
use std::alloc::Global;

/// A call on a core whose cells are laid out by several threads.
#[derive(Drop)]
pub enum BatchCall {
    Hold { hold: Point, until: Vec<Point> },
    Met,
    Claim { limit: Limit },
    Compute { workers: Workers },
    Held,
    Share { workers: Workers },
    Finish,
    Lay { limit: Limit, workers: Workers },
    Drive { workers: Workers },
    CloseEarly,
    Span,
    Laid,
    Draws,
    AsScratch,
}

impl BatchCall {
    /// The call of a line; None where it is none.
    pub fn read(alloc: Global, line: &str) -> Result<Option<BatchCall>, NoMemory> {
        let (call, rest) = first(line);
        match call {
            "hold" => hold(alloc, rest),
            "claim" => Ok(Limit::read(rest).map(|limit| BatchCall::Claim { limit })),
            "compute" => Ok(Workers::read(rest).map(|workers| BatchCall::Compute { workers })),
            "share" => Ok(Workers::read(rest).map(|workers| BatchCall::Share { workers })),
            "drive" => Ok(Workers::read(rest).map(|workers| BatchCall::Drive { workers })),
            "lay" => Ok(lay(rest)),
            _ => Ok(BatchCall::of_word(call)),
        }
    }

    /// The call of one word.
    fn of_word(word: &str) -> Option<BatchCall> {
        match word {
            "met" => Some(BatchCall::Met),
            "held" => Some(BatchCall::Held),
            "finish" => Some(BatchCall::Finish),
            "close-early" => Some(BatchCall::CloseEarly),
            "span" => Some(BatchCall::Span),
            "laid" => Some(BatchCall::Laid),
            "draws" => Some(BatchCall::Draws),
            "as-scratch" => Some(BatchCall::AsScratch),
            _ => None,
        }
    }
}

fn hold(alloc: Global, text: &str) -> Result<Option<BatchCall>, NoMemory> {
    let Some((hold, until)) = text.split_once(" until ") else {
        return Ok(None);
    };
    match (point(hold), points(alloc, until)?) {
        (Some(hold), Some(until)) => Ok(Some(BatchCall::Hold { hold, until })),
        _ => Ok(None),
    }
}

fn lay(text: &str) -> Option<BatchCall> {
    let (limit, workers) = text.split_once(' ')?;
    Some(BatchCall::Lay {
        limit: Limit::read(limit)?,
        workers: Workers::read(workers)?,
    })
}
