//! The trees of published versions.

ghost use Rattle.std.specs.Prelude.{◌≡◌, option_map};
ghost use Rattle.lay_history.specs.Trees.{tree_at};

use lay_frag::Tree;
use std::marker::Model;
use std::sync::Arc;

/// A version that is published, which is the number of accepted edits of its document, and its tree.
#[derive(Drop)]
pub struct PublishedTree {
    version: u64,
    tree: Arc<Tree>,
}

impl Model for PublishedTree {
    ghost use Rattle.lay_history.specs.Trees.{PublishedTreeValue};

    ghost Value = { PublishedTreeValue };

    ghost view = { λ p. record { version = p.version; tree = p.tree.value } };
}

impl PublishedTree {
    /// A version and its tree.
    pub fn new(version: u64, tree: Arc<Tree>) -> PublishedTree
        ensures { result ≡ record { version = version; tree = tree.value } }
    {
        PublishedTree { version, tree }
    }

    /// The version.
    pub fn version(&self) -> u64
        ensures { result ≡ self.now.version }
    {
        self.version
    }

    /// The tree, shared.
    pub fn tree(&self) -> &Arc<Tree>
        ensures { result.now.value ≡ self.now.tree }
    {
        &self.tree
    }
}

/// The tree of a version; None where it isn't among these.
pub fn tree_at(trees: &[PublishedTree], version: u64) -> Option<&Arc<Tree>>
    ensures { option_map (λ t. t.now.value) result ≡ tree_at version trees.now }
{
    for published in trees {
        if published.version == version {
            return Some(&published.tree);
        }
    }
    None
}
