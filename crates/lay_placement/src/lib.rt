//! The placement of one formatting context: where its boxes stand, and its pieces (CSS 2.2, 8.3.1, 9.4.1 to 9.4.3, 9.5, 9.6,
//! 10.6, 10.8.1 and 17.5.3), beside the used sizes of its boxes and what is known of the formatting contexts inside it.
//!
//! `placement` answers by `IsPlacement` of `specs/ContextPlacements.antt`. What its boxes are to block flow is of
//! lay_flow_boxes, by how much they are moved is of lay_abspos, and where they stand then is `specs/ContextPlaces.antt`. From
//! there `specs/OnLines.antt` says what stands on lines, `specs/BoxStandings.antt` where each box stands (with
//! `specs/AtomicCorners.antt` for atomic boxes on lines and `specs/StaticPositions.antt` for anchors),
//! `specs/ContextPieces.antt` what is painted, and `specs/Baselines.antt` on what line the own box stands. Where there is but
//! one box, no column is made (`specs/OneBox.antt`). A formatting context has one placement, of which offsets change corners
//! alone, and an anchor in lines is on one of them (`specs/Laws.antt`) and adds nothing to them (`specs/AnchorLaws.antt`).
#![tactic(auto)]

mod anchor_lines;
mod baselines;
mod columns;
mod context_places;
mod corners;
mod first_baselines;
mod laws;
mod on_lines;
mod one_box;
mod pieces;
mod placing;
mod standings;

pub use laws::{
    anchors_add_nothing_to_lines, anchors_are_on_lines, first_baseline_is_first,
    last_seen_line_gives_baseline, offsets_change_corners_alone, one_placement, some_placement,
};
pub use placing::placement;
