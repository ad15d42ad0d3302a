//! What is asked of a core.

use crate::core_calls::CoreCalls;
use lay_case_reading::{Count, Key, Phase, Question, Said, shown_counts};
use lay_doc::NodeId;
use lay_units::NoMemory;
use std::alloc::Global;

/// The answer to a question.
pub(crate) fn question<C: CoreCalls>(
    alloc: Global,
    core: &C,
    asked: Question,
) -> Result<Said, NoMemory> {
    let numbers = core.numbers();
    Ok(match asked {
        Question::Laid => Said::Number(numbers.laid),
        Question::Draws => Said::Number(numbers.draws),
        Question::Accepted => Said::Number(numbers.accepted),
        Question::Entries => Said::Number(numbers.entries),
        Question::FewLaid(most) => truth(numbers.laid <= most),
        Question::LaidOf(key) => number_or_none(core.granted_of(key)),
        Question::Contexts(version) => core.contexts(version),
        Question::AsScratch => core.as_scratch(alloc)?,
        Question::Cells(nodes) => {
            let counts = counts(alloc, core, nodes.as_slice())?;
            Said::Text(shown_counts(alloc, counts.as_slice())?)
        }
    })
}

fn truth(is_so: bool) -> Said {
    Said::Word(if is_so { "true" } else { "false" })
}

fn number_or_none(number: Option<u64>) -> Said {
    match number {
        Some(number) => Said::Number(number),
        None => Said::Word("none"),
    }
}

/// How many claims were granted of the cells of each of these nodes.
pub(crate) fn counts<C: CoreCalls>(
    alloc: Global,
    core: &C,
    nodes: &[NodeId],
) -> Result<Vec<Count>, NoMemory> {
    let mut counts = Vec::new(alloc);
    for node in nodes {
        let node = *node;
        let laid = granted_of_node(core, node);
        counts.push(Count { node, laid })?;
    }
    Ok(counts)
}

/// How many claims were granted of the three cells of a node; None where it has none.
fn granted_of_node<C: CoreCalls>(core: &C, node: NodeId) -> Option<[u64; 3]> {
    let measure = core.granted_of(Key {
        node,
        phase: Phase::Measure,
    })?;
    let size = core.granted_of(Key {
        node,
        phase: Phase::Size,
    })?;
    let place = core.granted_of(Key {
        node,
        phase: Phase::Place,
    })?;
    Some([measure, size, place])
}
