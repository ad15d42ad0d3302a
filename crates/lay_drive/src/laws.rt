//! The law of runs.

ghost use Rattle.lay_drive.specs.Laws.{PassesAnswerScripts};

/// Where each pass has made its editor's calls, the history has each editor's calls once and in order, and no other.
pub fn passes_answer_scripts()
    ensures { PassesAnswerScripts }
{}
