//! Which of the borders that meet at an edge wins (CSS 2.2, 17.6.2.1).

ghost use Rattle.std.specs.Prelude.{◌≡◌, ◌⊎◌, ◌↔◌, IsTrue, ◌<◌, pos, length};
ghost use Rattle.lay_borders.specs.Winner.{Beats, Decides, IsWinner};
ghost use Rattle.lay_borders.specs.Winner.{hidden_rank as hidden_rank_of};
ghost use Rattle.lay_borders.specs.Winner.{seen_rank as seen_rank_of};

use crate::candidate::{BorderStyle, Cand};

/// The border that wins over all others of an edge, where there is one at least.
pub fn winner(cands: &[Cand]) -> Cand
    requires { 0 < length cands.now }
    ensures { IsWinner cands.now result }
{
    let mut best = cands[0];
    for cand in cands {
        best = stronger(best, *cand);
    }
    best
}

fn stronger(a: Cand, b: Cand) -> Cand
    ensures one_of { (result ≡ a) ⊎ (result ≡ b) }
    ensures beats_a { (a ≡ result) ⊎ Beats result a }
    ensures beats_b { (b ≡ result) ⊎ Beats result b }
{
    if beats(b, a) { b } else { a }
}

fn beats(a: Cand, b: Cand) -> bool
    ensures { IsTrue result ↔ Beats a b }
{
    let by_row = a.row < b.row;
    let by_column = decides(b.column as i64, a.column as i64, by_row);
    let by_origin = decides(a.origin.rank(), b.origin.rank(), by_column);
    let by_style = decides(a.style.rank(), b.style.rank(), by_origin);
    let by_width = decides(a.width.0, b.width.0, by_style);
    let by_none = decides(seen_rank(a.style), seen_rank(b.style), by_width);
    decides(hidden_rank(a.style), hidden_rank(b.style), by_none)
}

fn decides(a: i64, b: i64, rest: bool) -> bool
    ensures { IsTrue result ↔ Decides a b (IsTrue rest) }
{
    b < a || a == b && rest
}

fn hidden_rank(style: BorderStyle) -> i64
    ensures { result ≡ pos (hidden_rank_of style) }
{
    match style {
        BorderStyle::Hidden => 1,
        _ => 0,
    }
}

fn seen_rank(style: BorderStyle) -> i64
    ensures { result ≡ pos (seen_rank_of style) }
{
    match style {
        BorderStyle::None => 0,
        _ => 1,
    }
}
