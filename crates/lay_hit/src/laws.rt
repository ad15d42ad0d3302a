//! Laws of painting.

ghost use Rattle.lay_hit.specs.Edges.{EdgesShareNothing, EmptyHoldNothing, PartsHoldAll};
ghost use Rattle.lay_hit.specs.Laws.{OneLastHolding, PaintedInOrder, PaintingIsWalk, PaintsEachOnce};

/// Each box and each text of a tree is painted once, and lines are not.
pub fn paints_each_once()
    ensures { PaintsEachOnce }
{}

/// The last piece that holds a point is the only one behind which none does.
pub fn one_last_holding()
    ensures { OneLastHolding }
{}

/// The order of painting is one walk: each node's own pieces, and then what it paints.
pub fn painting_is_walk()
    ensures { PaintingIsWalk }
{}

/// Of two boxes the one with the greater level is in front, and of equal levels the later one of the document (9.9.1, Appendix E).
pub fn painted_in_order()
    ensures { PaintedInOrder }
{}

/// Two rectangles that share an edge alone share no point.
pub fn edges_share_nothing()
    ensures { EdgesShareNothing }
{}

/// A rectangle without width or without height holds no point.
pub fn empty_hold_nothing()
    ensures { EmptyHoldNothing }
{}

/// The two parts of a rectangle that is cut hold its points and no others.
pub fn parts_hold_all()
    ensures { PartsHoldAll }
{}
