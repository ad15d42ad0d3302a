//! Laws of what stands in lines.

ghost use Rattle.lay_line_items.specs.ClusterLaws.{ClustersBeginAtCharacters};

/// The grapheme clusters of a text begin at its characters, in order.
pub fn clusters_begin_at_characters()
    ensures { ClustersBeginAtCharacters }
{}
