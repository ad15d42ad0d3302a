//! The laws of histories.

ghost use Rattle.lay_history.specs.Laws.{FewVersions, OneHistory, OneOrder, RefusalsAreWithin, ShownVersionsRise, VersionsRise};

/// The versions that a legal history publishes rise to the number of accepted lists of edits.
pub fn versions_rise()
    ensures { VersionsRise }
{}

/// A legal history publishes at most one version more than lists are accepted.
pub fn few_versions()
    ensures { FewVersions }
{}

/// The versions that a legal history shows never fall, and a `Sync` shows the one with all edits that were accepted
/// before it.
pub fn shown_versions_rise()
    ensures { ShownVersionsRise }
{}

/// A legal history refuses a list at a place that it has.
pub fn refusals_are_within()
    ensures { RefusalsAreWithin }
{}

/// What the lines of a report show of a history and the scripts of its editors determine it.
pub fn one_history()
    ensures { OneHistory }
{}

/// Where editors take turns, their scripts determine the order of all calls.
pub fn one_order()
    ensures { OneOrder }
{}
