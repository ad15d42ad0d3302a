//! How an engine is closed.

ghost use Rattle.std.specs.Prelude.{◌≡◌, ℕ, ◌+◌, ◌<◌, ◌≤◌, ◌^◌, [], ◌∷◌, length, None, IfOk, IfErr, OnOk};
ghost use Rattle.std.specs.List.{All};
ghost use Rattle.lay_board.specs.Cores.{origin_of};
ghost use Rattle.lay_board.specs.Entries.{by_editor};
ghost use Rattle.lay_board.specs.Passes.{IsKnownIn};
ghost use Rattle.lay_board.specs.Rules.{IsNoEditor, held_by};
ghost use Rattle.lay_board.specs.declared.views.View.{View as AView};

use crate::engine::Engine;
use crate::pass::Pass;
use crate::starting::{Closer, Passes};
use crate::table::{CoreSeat, Learns, Meets, Shelf};
use crate::turn::take_core;
use lay_core::Core;
use std::sync::Wait;

impl Engine {
    /// The core, whose history goes on from what each pass knows, has of each editor just the entries of its pass, and none of an editor
    /// without a pass. On an error there are fewer passes than were made, and all is as before.
    pub fn close<R: Wait>(self, rt: &R, passes: Passes) -> Result<Core, (Engine, Passes)>
        requires closer { passes.closer.table ≡ self.table }
        requires of { All (λ p. p.table ≡ self.table) passes.items.items }
        ensures origin { IfOk result (λ c. origin_of c ≡ passes.closer.origin) }
        ensures known { IfOk result (λ c. All (IsKnownIn c.history) passes.items.items) }
        ensures others { IfOk result (λ c. (n : ℕ) → IsNoEditor passes.closer.made n → by_editor n c.history ≡ []) }
        ensures draws { IfOk result (λ c. c.cells.draws ≤ 2 ^ 63 + 2 ^ 50) }
        ensures err { IfErr result (λ r. (length passes.items.items < passes.closer.made)
            × (r.0 ≡ self) × (r.1.closer ≡ passes.closer) × (r.1.items.items ≡ passes.items.items)) }
        ensures ok { OnOk result (passes.closer.made ≤ length passes.items.items) }
    {
        if passes.items.len() < passes.closer.made as usize {
            return Err((self, passes));
        }
        let Engine { table, .. } = self;
        let Passes { closer, items } = passes;
        let (core, seat) = taken_last(rt, &table, closer);
        let _seat = meet_all(&table, seat, &core, items);
        Ok(core)
    }
}

/// Who made the passes takes the core.
fn taken_last<R: Wait>(rt: &R, table: &Shelf, closer: Closer) -> (Core, CoreSeat)
    requires table { (closer.table ≡ table.now.shared.table_id) × (table.now.shared.table_id.words ≡ 2) }
    ensures table { result.1.table_id ≡ closer.table }
    ensures held { (v : AView) × (result.1.me ≡ (held_by v result.0, (0, None) ∷ [])) }
    ensures origin { origin_of result.0 ≡ closer.origin }
    ensures others { (n : ℕ) → IsNoEditor closer.made n → by_editor n result.0.history ≡ [] }
    ensures draws { result.0.cells.draws ≤ 2 ^ 63 + 2 ^ 50 }
{
    let Closer { maker, .. } = closer;
    take_core(rt, table, maker)
}

/// Who has the core meets all passes.
fn meet_all(table: &Shelf, mut seat: CoreSeat, core: &Core, passes: Vec<Pass>) -> CoreSeat
    requires table { (seat.table_id ≡ table.now.shared.table_id) × (table.now.shared.table_id.words ≡ 2) }
    requires out { (v : AView) × (seat.me ≡ (held_by v core.now, (0, None) ∷ [])) }
    requires of { All (λ p. p.table ≡ table.now.shared.table_id) passes.items }
    ensures { All (IsKnownIn core.now.history) passes.items }
{
    for pass in passes {
        meet(table, &mut seat, core, pass);
    }
    seat
}

/// Who has the core meets a pass, which is spent.
fn meet(table: &Shelf, seat: &mut CoreSeat, core: &Core, pass: Pass)
    requires table { (seat.old.table_id ≡ table.now.shared.table_id) × (table.now.shared.table_id.words ≡ 2) }
    requires out { (v : AView) × (seat.old.me ≡ (held_by v core.now, (0, None) ∷ [])) }
    requires of { pass.table ≡ table.now.shared.table_id }
    ensures table { seat.new.table_id ≡ seat.old.table_id }
    ensures out { (v : AView) × (seat.new.me ≡ (held_by v core.now, (0, None) ∷ [])) }
    ensures known { IsKnownIn core.now.history pass }
{
    let Pass { seat: other, .. } = pass;
    table.shared.join_seat::<Meets>(seat, other);
    table.shared.load::<Learns>(seat, 0);
}
