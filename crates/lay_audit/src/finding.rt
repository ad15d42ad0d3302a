//! Which entry's line stands next.

ghost use Rattle.std.specs.Prelude.{◌≡◌, ◌+◌, ◌<◌, ◌^◌, IfOk, IfSome, List, None, length};
ghost use Rattle.std.specs.Bool.{Decides};
ghost use Rattle.lay_history.specs.declared.edits.command.Cmd.{Cmd as ACmd};
ghost use Rattle.lay_history.specs.declared.edits.command.Reply.{Reply as AReply};
ghost use Rattle.lay_audit.specs.declared.step.Step.{Step as AStep};
ghost use Rattle.lay_audit.specs.NextLines.{BeginsWith, RepliesNext, StandsNext, StandsNot, edit_count, reply_end};

use crate::lines::{behind, command_front, number_line, reply_end};
use crate::present::{Present, command_at};
use crate::step::Step;
use lay_history::edits::{Cmd, CmdList, Reply};
use lay_units::NoMemory;
use std::alloc::Global;

/// The step whose entry's line stands next, of those that may come.
pub(crate) fn find_step(
    alloc: Global,
    scripts: &[CmdList],
    present: &Present,
    rest: &[u8],
) -> Result<Option<Step>, NoMemory>
    requires editors { length present.now.next ≡ length scripts.now }
    requires count { present.now.count + 1 < 2 ^ 64 }
    ensures some { IfOk result (λ o. IfSome o (StandsNext scripts.now present.now rest.now)) }
    ensures none { IfOk result (λ o. o ≡ None → (s : AStep) → StandsNot scripts.now present.now rest.now s) }
{
    if is_publication(alloc, present, rest)? {
        return Ok(Some(Step::Publish));
    }
    for place in 0..scripts.len() {
        if let Some(reply) = find_reply(alloc, scripts, present, place, rest)? {
            return Ok(Some(Step::Answer { place, reply }));
        }
    }
    Ok(None)
}

/// Whether it is that the present version is published.
fn is_publication(alloc: Global, present: &Present, rest: &[u8]) -> Result<bool, NoMemory>
    ensures { (scripts : List (List ACmd)) → IfOk result (λ b. Decides b (StandsNext scripts present.now rest.now Step.Publish)) }
{
    if present.is_published() {
        return Ok(false);
    }
    let line = number_line(alloc, "publish ", present.count())?;
    Ok(behind(rest, line.as_bytes()).is_some())
}

/// The reply to the next command of the editor at a place, where that stands next.
fn find_reply(
    alloc: Global,
    scripts: &[CmdList],
    present: &Present,
    place: usize,
    rest: &[u8],
) -> Result<Option<Reply>, NoMemory>
    requires place { place < length scripts.now }
    requires editors { length present.now.next ≡ length scripts.now }
    requires count { present.now.count + 1 < 2 ^ 64 }
    ensures some { IfOk result (λ o. IfSome o (λ r. StandsNext scripts.now present.now rest.now (Step.Answer place r))) }
    ensures none { IfOk result (λ o. o ≡ None → (r : AReply) → StandsNot scripts.now present.now rest.now (Step.Answer place r)) }
{
    let index = present.next(place);
    let Some(command) = command_at(scripts, place, index) else {
        return Ok(None);
    };
    let front = command_front(alloc, place as u64 + 1, index as u64, command)?;
    match behind(rest, front.as_bytes()) {
        Some(said) => find_said(alloc, present, command, said),
        None => Ok(None),
    }
}

/// The right reply to a command that is said next.
fn find_said(
    alloc: Global,
    present: &Present,
    command: &Cmd,
    said: &[u8],
) -> Result<Option<Reply>, NoMemory>
    requires count { present.now.count + 1 < 2 ^ 64 }
    ensures some { IfOk result (λ o. IfSome o (RepliesNext present.now command.now said.now)) }
    ensures none { IfOk result (λ o. o ≡ None → (r : AReply) → RepliesNext present.now command.now said.now r → ⊥) }
{
    if let Some(reply) = present.right_reply(alloc, command)? {
        if says(alloc, command, said, reply)? {
            return Ok(Some(reply));
        }
    }
    if present.may_lack(command) && says(alloc, command, said, Reply::NoMemory)? {
        return Ok(Some(Reply::NoMemory));
    }
    Ok(None)
}

fn says(alloc: Global, command: &Cmd, said: &[u8], reply: Reply) -> Result<bool, NoMemory>
    ensures { IfOk result (λ b. Decides b (BeginsWith said.now (reply_end (edit_count command.now) reply))) }
{
    let end = reply_end(alloc, command, reply)?;
    Ok(behind(said, end.as_bytes()).is_some())
}
