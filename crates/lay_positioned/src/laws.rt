//! The laws of the definitions. The functions do nothing.

ghost use Rattle.lay_positioned.specs.Laws.{OneContainingRect, OneHolder, OneLevelCount, OneLevels, OneNearestHolder};
ghost use Rattle.lay_positioned.specs.Laws.{SettingsAreValues, SettingsComeOfWays, WaysLeadDown, WaysLeadOut};

/// Formatting contexts have one column of levels.
pub fn one_levels()
    ensures { OneLevels }
{}

/// And these have one count.
pub fn one_level_count()
    ensures { OneLevelCount }
{}

/// Around a box one is the nearest that can be a containing block, or none is.
pub fn one_nearest_holder()
    ensures { OneNearestHolder }
{}

/// An absolutely positioned formatting context has one holder, or none.
pub fn one_holder()
    ensures { OneHolder }
{}

/// And one containing block.
pub fn one_containing_rect()
    ensures { OneContainingRect }
{}

/// What is on the way to a containing block has a lower level than what is positioned by that.
pub fn ways_lead_down()
    ensures { WaysLeadDown }
{}

/// And it stands before it.
pub fn ways_lead_out()
    ensures { WaysLeadOut }
{}

/// What an absolutely positioned box is given comes of the formatting contexts on the way to its containing block alone.
pub fn settings_come_of_ways()
    ensures { SettingsComeOfWays }
{}

/// It is given what is found outward in so many steps as formatting contexts and boxes stand before it.
pub fn settings_are_values()
    ensures { SettingsAreValues }
{}
