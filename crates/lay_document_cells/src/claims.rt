//! Claims of the cell of a key, and claims that come back.

ghost use Rattle.std.specs.Prelude.{◌≡◌, ◌≤◌, ◌<◌, ◌^◌, length};
ghost use Rattle.lay_cells.specs.Looks.{Looks};
ghost use Rattle.lay_cells.specs.Places.{AtPlace};
ghost use Rattle.lay_cells.specs.declared.answers.Look.TheVariants as look;
ghost use Rattle.lay_document_cells.specs.Claims.{CellsAnswerClaim, CellsDrawFew};
ghost use Rattle.lay_document_cells.specs.Steps.{CellsGiveBackTo};

use crate::answers::Answer;
use crate::document_cells::DocumentCells;
use crate::walking::CLAIM_NUMBERS;
use lay_cell_work::Claim;
use lay_cells::{Claimed, Look, Released};
use lay_shape::CellKey;

impl DocumentCells {
    /// Claims the cell of a key: Gone where there is none, Clean where it is clean, Waiting where it depends on a dirty one; else Spent
    /// where too many numbers are drawn. Otherwise it is claimed for what it is given now: Taken, Reused or Granted; or memory ran out,
    /// and all is as before.
    pub fn claim(&mut self, key: CellKey) -> Answer
        ensures answers { CellsAnswerClaim self.old key result self.new }
        ensures draws { CellsDrawFew self.old self.new }
    {
        self.cells.sound();
        match self.cells.place_of(key) {
            Some(place) => self.claim_at(place),
            None => Answer::Gone,
        }
    }

    /// The same of the cell at a place.
    fn claim_at(&mut self, place: usize) -> Answer
        requires within { place < length self.old.cells.rows }
        ensures answers { AtPlace self.old.cells.rows place (λ r. CellsAnswerClaim self.old r.key result self.new) }
    {
        match self.cells.look_at(place) {
            Look::Gone => Answer::Gone,
            Look::Clean => Answer::Clean,
            Look::Waiting(need) => Answer::Waiting(need),
            Look::Ready => self.claim_ready(place),
        }
    }

    /// The same of a cell that is ready.
    fn claim_ready(&mut self, place: usize) -> Answer
        requires ready { AtPlace self.old.cells.rows place (λ r. Looks self.old.cells.rows r.key look.Ready) }
        ensures answers { AtPlace self.old.cells.rows place (λ r. CellsAnswerClaim self.old r.key result self.new) }
    {
        if self.cells.draws() < CLAIM_NUMBERS {
            if self.can_reuse(place) {
                self.reuse_given(place);
                return Answer::Reused;
            }
            let key = self.cells.key_at(place);
            match self.claim_present(place) {
                Ok((Claimed::Granted(number), input)) => {
                    Answer::Granted(Claim::new(key, number, input))
                }
                Ok((Claimed::Reused, _)) => Answer::Reused,
                Ok((Claimed::Taken(number), _)) => Answer::Taken(number),
                Err(_) => Answer::NoMemory,
            }
        } else {
            Answer::Spent
        }
    }

    /// Takes back a claim that was granted. No memory is taken.
    pub fn give_back(&mut self, claim: Claim) -> Released
        ensures { CellsGiveBackTo self.old claim.key claim.number result self.new }
    {
        self.give_back_claim(claim.key(), claim.number())
    }
}
