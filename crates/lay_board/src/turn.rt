//! One turn with the core.

ghost use Rattle.std.specs.Prelude.{◌≡◌, ◌<◌, [], ◌∷◌, length, Some, None};
ghost use Rattle.lay_board.specs.Batches.{IsCoreFrom};
ghost use Rattle.lay_board.specs.Cores.{Adds, IsQuiet, origin_told};
ghost use Rattle.lay_board.specs.Passes.{Calls, IsTurn, known_of};
ghost use Rattle.lay_board.specs.Rules.{MeetsSeat, grown, guest_view, held_by, pass_view};
ghost use Rattle.lay_board.specs.declared.views.PassView.{PassView as APass};
ghost use Rattle.lay_board.specs.declared.views.View.{View as AView};
ghost use Rattle.lay_core.specs.State.{State};
ghost use Rattle.lay_history.specs.declared.edits.history.Entry.{Entry};

use crate::pass::Pass;
use crate::table::{Comes, CoreSeat, Gives, Shelf, Takes, Tells};
use lay_core::Core;
use std::sync::Wait;
use std::thread;

/// A pass while it has the core: its seat, the numbers of its call, and the length of the history before it.
#[derive(Drop)]
pub(crate) struct Turn {
    pub(crate) seat: CoreSeat,
    pub(crate) editor: u32,
    pub(crate) index: u32,
    pub(crate) left: u32,
    pub(crate) before: u64,
}

/// A pass with a call left takes the core.
pub(crate) fn begun<R: Wait>(rt: &R, table: &Shelf, pass: Pass) -> (Core, Turn)
    requires table { (pass.table ≡ table.now.shared.table_id) × (table.now.shared.table_id.words ≡ 2) }
    requires left { 0 < pass.knows.left }
    ensures table { result.1.seat.table_id ≡ pass.table }
    ensures turn { IsTurn pass.knows result.0 result.1.seat.me result.1.editor result.1.index result.1.left result.1.before }
{
    let Pass {
        seat,
        editor,
        index,
        left,
        ..
    } = pass;
    let (core, seat) = take_core(rt, table, seat);
    let before = core.history().len() as u64;
    let turn = Turn {
        seat,
        editor,
        index,
        left,
        before,
    };
    (core, turn)
}

/// The pass after its call, which added entries to the history of the core. The core goes home.
pub(crate) fn ended(table: &Shelf, turn: Turn, core: Core) -> Pass
    requires table { (turn.seat.table_id ≡ table.now.shared.table_id) × (table.now.shared.table_id.words ≡ 2)
        × (table.now.shared.table_id.slots ≡ 1) }
    requires call { (p : APass) × (h : State) × (e : Entry)
        × IsTurn p h turn.seat.me turn.editor turn.index turn.left turn.before × Adds p.number h e core }
    ensures table { result.table ≡ turn.seat.table_id }
    ensures call { (p : APass) (h : State) (e : Entry)
        → IsTurn p h turn.seat.me turn.editor turn.index turn.left turn.before → Adds p.number h e core
        → Calls p result.knows e }
{
    let Turn {
        seat,
        editor,
        index,
        left,
        before,
    } = turn;
    let seen = core.history().len() as u64;
    let seat = tell_core(table, seat, before, core);
    Pass {
        seat,
        editor,
        index: index + 1,
        left: left - 1,
        seen,
    }
}

/// Takes the core out. Under the lock the first try does.
pub(crate) fn take_core<R: Wait>(rt: &R, table: &Shelf, mut seat: CoreSeat) -> (Core, CoreSeat)
    requires table { (seat.table_id ≡ table.now.shared.table_id) × (table.now.shared.table_id.words ≡ 2) }
    requires empty { seat.me ≡ (seat.me.0, []) }
    ensures table { result.1.table_id ≡ seat.table_id }
    ensures held { result.1.me ≡ (record (seat.me.0) { hold = Some result.0 }, (0, None) ∷ []) }
    ensures met { MeetsSeat result.0 seat.me.0 }
{
    for _ in rt.forever() {
        let found = table.shared.compare_exchange::<Takes>(&mut seat, 1, 0, 1);
        if found == 0 {
            return carry(table, seat);
        }
        thread::yield_now();
    }
    unreachable!()
}

/// The core that is out with the seat.
fn carry(table: &Shelf, mut seat: CoreSeat) -> (Core, CoreSeat)
    requires table { seat.table_id ≡ table.now.shared.table_id }
    requires out { (v : AView) × (core : State) × (seat.me ≡ (v, (0, Some core) ∷ [])) }
    ensures table { result.1.table_id ≡ seat.table_id }
    ensures held { (v : AView) (core : State) → seat.me ≡ (v, (0, Some core) ∷ [])
        → (result.0 ≡ core) × (result.1.me ≡ (v, (0, None) ∷ [])) }
{
    let Some(core) = table.shared.exchange(&mut seat, 0, None) else {
        unreachable!()
    };
    (core, seat)
}

/// All are told of the history, in which the pass has made a call, and the core goes home.
fn tell_core(table: &Shelf, mut seat: CoreSeat, before: u64, core: Core) -> CoreSeat
    requires table { (seat.table_id ≡ table.now.shared.table_id) × (table.now.shared.table_id.words ≡ 2)
        × (table.now.shared.table_id.slots ≡ 1) }
    requires out { (p : APass) × (h : State) × (e : Entry) × (seat.me ≡ (held_by (pass_view p) h, (0, None) ∷ []))
        × (0 < p.left) × Adds p.number h e core × (before ≡ length h.history) }
    ensures table { result.table_id ≡ seat.table_id }
    ensures pass { result.me ≡ (pass_view (grown core (known_of seat.me)), []) }
{
    let after = core.history().len() as u64;
    let _none = table.shared.exchange(&mut seat, 0, Some(core));
    table
        .shared
        .compare_exchange::<Tells>(&mut seat, 0, before, after);
    table.shared.store::<Gives>(&mut seat, 1, 0);
    seat
}

/// A guest takes the core, which was started with what the table was told.
pub(crate) fn visit<R: Wait>(rt: &R, table: &Shelf) -> (Core, CoreSeat)
    requires table { (table.now.shared.table_id.words ≡ 2) × (table.now.shared.table_id.slots ≡ 1) }
    ensures table { result.1.table_id ≡ table.now.shared.table_id }
    ensures held { result.1.me ≡ (held_by (guest_view (origin_told table.now.shared.key)) result.0, (0, None) ∷ []) }
    ensures core { IsCoreFrom (origin_told table.now.shared.key) result.0 }
{
    let (_, seat) = table.shared.load_new_seat::<Comes>(0);
    let (core, seat) = take_core(rt, table, seat);
    let _ = core.history();
    (core, seat)
}

/// The core goes home, with the same history.
pub(crate) fn give_core(table: &Shelf, mut seat: CoreSeat, core: Core) -> CoreSeat
    requires table { (seat.table_id ≡ table.now.shared.table_id) × (table.now.shared.table_id.words ≡ 2)
        × (table.now.shared.table_id.slots ≡ 1) }
    requires out { (v : AView) × (h : State) × (seat.me ≡ (v, (0, None) ∷ [])) × (v.hold ≡ Some h) × (v.met ≡ None) × IsQuiet h core }
    ensures table { result.table_id ≡ seat.table_id }
    ensures empty { result.me ≡ (record (seat.me.0) { hold = None }, []) }
{
    let _none = table.shared.exchange(&mut seat, 0, Some(core));
    table.shared.store::<Gives>(&mut seat, 1, 0);
    seat
}
