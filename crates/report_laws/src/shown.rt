//! Reports without places.
ghost use Rattle.report_laws.specs.Shown.{EntriesAreShown, OneThreadIsLawful, PlacesMayBeLeftOut};

/// A lawful run stays one where its packets tell neither their place nor that they were parked, as in the text of a
/// report without places.
pub fn places_may_be_left_out()
    ensures lawful { PlacesMayBeLeftOut }
    ensures entries { EntriesAreShown }
{}

/// What one thread reports of lines, without places, slices may report of them too, whatever their room and lanes.
pub fn one_thread_is_lawful_on_slices()
    ensures { OneThreadIsLawful }
{}
