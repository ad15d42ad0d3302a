//! How many claims of the cells of nodes were granted.

use lay_doc::{Doc, NodeId};
use lay_units::NoMemory;
use std::alloc::Global;

/// How many claims of the three cells of a node were granted; None where it has no cells.
#[derive(Clone, Copy)]
pub struct Count {
    pub node: NodeId,
    pub laid: Option<[u64; 3]>,
}

/// What was counted the last time, of the nodes and of all together.
#[derive(Drop)]
pub struct Grants {
    counts: Vec<Count>,
    laid: u64,
}

impl Grants {
    /// Nothing was counted.
    pub fn new(alloc: Global) -> Grants {
        Grants {
            counts: Vec::new(alloc),
            laid: 0,
        }
    }

    /// How many claims were granted since the last time, and the cells whose counts differ, in the order of the counts: `4: 1:P 14:MSP`.
    pub fn since(
        &mut self,
        alloc: Global,
        counts: Vec<Count>,
        laid: u64,
    ) -> Result<String, NoMemory> {
        let granted = laid.saturating_sub(self.laid);
        let cells = self.differences(alloc, counts.as_slice())?;
        self.counts = counts;
        self.laid = laid;
        let mark = if cells.is_empty() { "" } else { ":" };
        Ok(format!(in alloc; "{granted}{mark}{cells}")?)
    }

    /// The cells whose counts differ from those of the last time, each after a blank.
    fn differences(&self, alloc: Global, counts: &[Count]) -> Result<String, NoMemory> {
        let mut text = String::new(alloc);
        for count in counts {
            if let Some(laid) = count.laid {
                push_difference(&mut text, count.node, self.was(count.node), laid)?;
            }
        }
        Ok(text)
    }

    /// What was counted of a node.
    fn was(&self, node: NodeId) -> [u64; 3] {
        for count in self.counts.iter() {
            if count.node == node {
                return count.laid.unwrap_or([0, 0, 0]);
            }
        }
        [0, 0, 0]
    }
}

/// Adds a node with the letters of the phases whose count is another than it was, where one is.
fn push_difference(
    text: &mut String,
    node: NodeId,
    was: [u64; 3],
    laid: [u64; 3],
) -> Result<(), NoMemory> {
    if was == laid {
        return Ok(());
    }
    write!(text, " {}:", node.0)?;
    for (phase, letter) in ["M", "S", "P"].iter().enumerate() {
        if phase < 3 && was[phase] != laid[phase] {
            text.push_str(letter)?;
        }
    }
    Ok(())
}

/// Counts as `1+1+1 none`.
pub fn shown_counts(alloc: Global, counts: &[Count]) -> Result<String, NoMemory> {
    let mut text = String::new(alloc);
    for count in counts {
        if !text.is_empty() {
            text.push(' ')?;
        }
        match count.laid {
            Some(laid) => write!(text, "{}+{}+{}", laid[0], laid[1], laid[2])?,
            None => text.push_str("none")?,
        }
    }
    Ok(text)
}

/// The ids of a document's nodes, in order.
pub fn ids(alloc: Global, doc: &Doc) -> Result<Vec<NodeId>, NoMemory> {
    let mut ids = Vec::new(alloc);
    for node in doc.nodes() {
        ids.push(node.id)?;
    }
    Ok(ids)
}
