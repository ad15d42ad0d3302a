//! The laws.

ghost use Rattle.lay_core.specs.CoreLaws.Laws.{CleanCellsAreGiven, GrantedBatchesAreOneByOne, GrantedClaimsHaveOneWork};
ghost use Rattle.lay_core.specs.CoreLaws.Laws.{GrantsArePaidByChanges, GrantsAreWithin, LayoutsGiveInputs, OneGivenInput};
ghost use Rattle.lay_core.specs.CoreLaws.Laws.{OneListOfChanges, OriginsStay, ReadyCellsAreGiven, TurnsAreChanges, TurnsAreFew};
ghost use Rattle.lay_core.specs.CoreLaws.Laws.{TurnsAreOfVersions, TurnsAreWithin, VersionsAreDocuments};

use lay_cell_work::cell_laws::{inputs_are_kept, one_cell_local, present_inputs_lead_inward};
use lay_cell_work::outcome_laws::{batches_are_one_by_one, one_work};
use lay_contexts::{anonymous_boxes_are_in_flow, one_context_list, one_formatting_context_list};
use lay_doc::one_style_column;
use lay_document_cells::claims_work;

/// A cell is given one input in the layout of a document.
pub fn one_given_input()
    ensures { OneGivenInput }
{
    one_style_column();
    one_context_list();
    one_formatting_context_list();
    inputs_are_kept();
    one_cell_local();
    present_inputs_lead_inward();
}

/// A cell that is ready is given that among the values that cells keep.
pub fn ready_cells_are_given()
    ensures { ReadyCellsAreGiven }
{}

/// What a clean cell keeps is of that input, and right beside it.
pub fn clean_cells_are_given()
    ensures { CleanCellsAreGiven }
{}

/// Among values that are all right each cell is given that, and the tree of them is the layout of the document.
pub fn layouts_give_inputs()
    ensures { LayoutsGiveInputs }
{
    anonymous_boxes_are_in_flow();
}

/// A history has one list of changes of a cell's input.
pub fn one_list_of_changes()
    ensures { OneListOfChanges }
{
    one_given_input();
}

/// And not more turns than changes.
pub fn turns_are_few()
    ensures { TurnsAreFew }
{
    one_given_input();
}

/// Whatever calls came to a core, the turns of a cell are of versions of its document.
pub fn turns_are_of_versions()
    ensures { TurnsAreOfVersions }
{
    one_style_column();
    one_context_list();
    one_formatting_context_list();
    inputs_are_kept();
    claims_work();
    one_given_input();
}

/// They are at most the accepted lists of edits.
pub fn turns_are_within()
    ensures { TurnsAreWithin }
{
    turns_are_of_versions();
}

/// They are at most the changes of its input.
pub fn turns_are_changes()
    ensures { TurnsAreChanges }
{
    turns_are_of_versions();
    turns_are_few();
}

/// Its grants are at most one more than the accepted lists of edits and the claims of it that were given back.
pub fn grants_are_within()
    ensures { GrantsAreWithin }
{
    turns_are_within();
}

/// Its grants are at most one more than the changes and the claims of it that were given back.
pub fn grants_are_paid_by_changes()
    ensures { GrantsArePaidByChanges }
{
    turns_are_changes();
}

/// A core keeps the document and the face that it began with.
pub fn origins_stay()
    ensures { OriginsStay }
{
    claims_work();
}

/// Each version of a core that calls led to is a document.
pub fn versions_are_documents()
    ensures { VersionsAreDocuments }
{}

/// A claim that a core grants has one work.
pub fn granted_claims_have_one_work()
    ensures { GrantedClaimsHaveOneWork }
{
    present_inputs_lead_inward();
    one_work();
}

/// A batch of claims that a core granted comes to what they come to one after another.
pub fn granted_batches_are_one_by_one()
    ensures { GrantedBatchesAreOneByOne }
{
    present_inputs_lead_inward();
    batches_are_one_by_one();
}
