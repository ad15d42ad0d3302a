//! The hypothetical edge of a box with `clear` (CSS 2.2, 9.5.2): a look ahead over the margins of its run.

ghost use Rattle.std.specs.Prelude.{◌≡◌, ℕ, ◌+◌, ◌<◌, ◌≤◌, ◌==◌, ◌||◌, ◌-ℤ◌, not, nat_lt, length, true, false};
ghost use Rattle.lay_units.specs.declared.length.Unit.{Unit};
ghost use Rattle.lay_units.specs.Units.{IsUsed};
ghost use Rattle.lay_margins.specs.Collapse.{Holds};
ghost use Rattle.lay_flow.specs.declared.hypothetical_edge.Outset.{Outset};
ghost use Rattle.lay_flow.specs.Blocks.Boxes.{parent_at};
ghost use Rattle.lay_flow.specs.Blocks.Children.{flag_at};
ghost use Rattle.lay_flow.specs.Blocks.Lengths.{length_at};
ghost use Rattle.lay_flow.specs.Blocks.BlockLayout.{BlockLayout};
ghost use Rattle.lay_flow.specs.Blocks.BlockPositions.{IsBlockLayout, start_before};
ghost use Rattle.lay_flow.specs.Pass.LookAhead.{HasLookedAhead, IsOutermost, IsOutset, IsReading, reading};
ghost use Rattle.lay_flow.specs.Blocks.MarginRuns.{block_at, has_top, margins, may_collapse_through, run_before};
ghost use Rattle.lay_flow.specs.Pass.Struts.{StrutFits};

use crate::blocks::{BoxAt, Boxes, Near};
use crate::margin_place::BoxInRun;
use crate::margin_run::{run_end, with_margin};
use crate::used_strut::UsedStrut;
use lay_margins::Strut;
use lay_units::Unit;

/// Where a look ahead begins: before the top margin of the box at `k`.
#[derive(Clone, Copy)]
struct Outset {
    k: usize,
    /// The margins of the run there, and the first box whose top margin is in it.
    strut: Strut,
    first: usize,
    /// The outermost box round the one at `k` whose top margin is in the run, or that one itself.
    outermost: usize,
}

/// A look ahead over the boxes.
#[derive(Clone, Copy)]
struct LookAhead<'a> {
    boxes: Boxes<'a>,
    from: Outset,
    ghost fits: { StrutFits from.strut },
    ghost begins: { IsOutset boxes.list.now from },
}

/// How far a look ahead came.
#[derive(Clone, Copy)]
struct Ahead {
    /// The margins that it read.
    used: UsedStrut,
    /// The innermost open box.
    innermost: usize,
    /// No more margins count.
    ended: bool,
}

/// The top border edge that the box would have where neither it nor a later box had clearance. The pass is before its
/// top margin, in a run that starts at `start`, with the margins of a strut.
pub(crate) fn hypothetical_edge(before: &BoxInRun<'_>, start: Near, used: UsedStrut) -> Unit
    ensures edge { (w : BlockLayout) → IsBlockLayout before.now.at.boxes.list.now w
        → ((j : ℕ) → before.now.at.k ≤ j → flag_at w.runs.clears j ≡ false)
        → Holds used.strut
        (margins (run_before before.now.at.boxes.list.now w.runs (parent_at before.now.at.boxes.list.now before.now.at.k) before.now.at.k))
        → start.unit.0
        ≡ start_before before.now.at.boxes.list.now w (parent_at before.now.at.boxes.list.now before.now.at.k) before.now.at.k
        → ((j : ℕ) → j < before.now.at.k
        → has_top j
        (run_before before.now.at.boxes.list.now w.runs (parent_at before.now.at.boxes.list.now before.now.at.k) before.now.at.k)
        ≡ not (nat_lt j before.now.first))
        → result.0 ≡ length_at w.places.marks before.now.at.k }
    ensures near { IsUsed (result.0 -ℤ start.unit.0) }
{
    let look = LookAhead {
        boxes: before.at.boxes,
        from: Outset {
            k: before.at.k,
            strut: used.strut,
            first: before.first,
            outermost: outermost_from(before),
        },
    };
    run_end(start, look.strut_ahead())
}

// The outermost box round this one that stands at `first` or after it, or this one itself.
fn outermost_from(before: &BoxInRun<'_>) -> usize
    ensures { IsOutermost before.now.at.boxes.list.now before.now.first before.now.at.k result }
{
    let mut outermost = before.at.k;
    loop {
        let at = BoxAt {
            boxes: before.at.boxes,
            k: outermost,
        };
        let parent = at.parent();
        if parent < before.first {
            return outermost;
        }
        outermost = parent;
    }
}

impl LookAhead<'_> {
    // The margins between the start of the run and the top border edge of the box.
    fn strut_ahead(&self) -> UsedStrut
        ensures { HasLookedAhead self.now.boxes.list.now self.now.from result.strut }
    {
        let begins = BoxAt {
            boxes: self.boxes,
            k: self.from.k,
        };
        let mut ahead = Ahead {
            used: UsedStrut {
                strut: self.from.strut,
            },
            innermost: begins.parent(),
            ended: false,
        };
        for m in self.from.k..self.boxes.list.len() {
            ahead = self.advance(ahead, m);
            if ahead.ended {
                return ahead.used;
            }
        }
        self.close_to(ahead, self.boxes.list.len()).used
    }

    // Closes the open boxes that the box at m isn't in, and opens that one.
    fn advance(&self, ahead: Ahead, m: usize) -> Ahead
        requires within { m < length self.now.boxes.list.now }
        requires reading { IsReading self.now.boxes.list.now self.now.from (reading ahead.used.strut ahead.innermost m) }
        ensures going { result.ended ≡ false
            → IsReading self.now.boxes.list.now self.now.from (reading result.used.strut result.innermost (m + 1)) }
        ensures ended { result.ended ≡ true → HasLookedAhead self.now.boxes.list.now self.now.from result.used.strut }
    {
        let closed = self.close_to(ahead, m);
        if closed.ended {
            return closed;
        }
        let next = BoxAt {
            boxes: self.boxes,
            k: m,
        };
        open(&next, closed.used)
    }

    // Reads the bottom margins of the open boxes that the box at m isn't in.
    fn close_to(&self, ahead: Ahead, m: usize) -> Ahead
        requires { IsReading self.now.boxes.list.now self.now.from (reading ahead.used.strut ahead.innermost m) }
        ensures going { result.ended ≡ false → m < length self.now.boxes.list.now
            → IsReading self.now.boxes.list.now self.now.from (reading result.used.strut (parent_at self.now.boxes.list.now m) m) }
        ensures last { result.ended ≡ false → length self.now.boxes.list.now ≤ m
            → IsReading self.now.boxes.list.now self.now.from (reading result.used.strut 0 m) }
        ensures ended { result.ended ≡ true → HasLookedAhead self.now.boxes.list.now self.now.from result.used.strut }
    {
        let to = self.boxes.holder_at(m);
        let mut used = ahead.used;
        let mut innermost = ahead.innermost;
        while innermost != to {
            let at = BoxAt {
                boxes: self.boxes,
                k: innermost,
            };
            if self.ends_at(&at) {
                return Ahead {
                    used,
                    innermost,
                    ended: true,
                };
            }
            used = with_margin(used, at.block().margin_bottom);
            innermost = at.parent();
        }
        Ahead {
            used,
            innermost,
            ended: false,
        }
    }

    // No more margins count once the outermost box ends, or one with something between its margins.
    fn ends_at(&self, at: &BoxAt<'_>) -> bool
        ensures { result ≡ (at.now.k == self.now.from.outermost || not (may_collapse_through (block_at at.now.boxes.list.now at.now.k))) }
    {
        at.k == self.from.outermost || !at.block().may_collapse_through()
    }
}

// Reads the top margin of the box. An edge above its content ends the run.
fn open(at: &BoxAt<'_>, used: UsedStrut) -> Ahead
    ensures going { result.ended ≡ false → (from : Outset) → IsOutset at.now.boxes.list.now from
        → IsReading at.now.boxes.list.now from (reading used.strut (parent_at at.now.boxes.list.now at.now.k) at.now.k)
        → IsReading at.now.boxes.list.now from (reading result.used.strut result.innermost (at.now.k + 1)) }
    ensures ended { result.ended ≡ true → (from : Outset) → IsOutset at.now.boxes.list.now from
        → IsReading at.now.boxes.list.now from (reading used.strut (parent_at at.now.boxes.list.now at.now.k) at.now.k)
        → HasLookedAhead at.now.boxes.list.now from result.used.strut }
{
    let block = at.block();
    Ahead {
        used: with_margin(used, block.margin_top),
        innermost: at.k,
        ended: block.has_edge_top(),
    }
}
