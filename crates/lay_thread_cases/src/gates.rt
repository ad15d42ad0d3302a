//! Gates of cases.

use lay_outside::{Gate, MeetGate, Point};
use lay_units::NoMemory;
use std::alloc::Global;

/// The gate of a case.
#[derive(Drop)]
pub(crate) enum CaseGate {
    /// Holds nothing.
    Open,
    /// Holds a thread until others are where they are to be.
    Meet(MeetGate),
}

impl Gate for CaseGate {
    fn at(&self, point: Point) {
        if let CaseGate::Meet(gate) = self {
            gate.at(point);
        }
    }
}

/// The gate of `POINT until POINT, POINT ..`; None where a point is none, or there are more than 64.
pub(crate) fn gate(alloc: Global, text: &str) -> Result<Option<CaseGate>, NoMemory> {
    let Some((hold, until)) = text.split_once(" until ") else {
        return Ok(None);
    };
    let (Some(hold), Some(until)) = (point(hold), points(alloc, until)?) else {
        return Ok(None);
    };
    if until.len() > 64 {
        return Ok(None);
    }
    Ok(Some(CaseGate::Meet(MeetGate::new(hold, until))))
}

fn points(alloc: Global, text: &str) -> Result<Option<Vec<Point>>, NoMemory> {
    let mut points = Vec::new(alloc);
    for text in text.split(", ") {
        let Some(point) = point(text) else {
            return Ok(None);
        };
        points.push(point)?;
    }
    Ok(Some(points))
}

/// `LayStart NUMBER` or `LayEnd NUMBER`.
fn point(text: &str) -> Option<Point> {
    let (name, number) = text.split_once(' ')?;
    let number = number.parse::<u64>().ok()?;
    match name {
        "LayStart" => Some(Point::LayStart(number)),
        "LayEnd" => Some(Point::LayEnd(number)),
        _ => None,
    }
}
