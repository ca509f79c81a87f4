//! What others do.
ghost use Rattle.report_laws.specs.Neighbours.{NeighboursChangeNothing, NorInAnyEpoch, MayBeReplaced};

/// Nothing that neighbours do changes what the sequential gateway tells of a subscriber. Take any slots, and two traces
/// whose lines are the same one by one, but for lines that are no command or packet of these slots and admit the same.
/// Then the C and P entries of these slots are the same, with their line numbers and in order; so are the effects of
/// each of them, its charging records and its open counters.
pub fn neighbours_change_nothing()
    ensures all { NeighboursChangeNothing }

    // Where epochs end alike they are the same epoch by epoch.
    ensures epochs { NorInAnyEpoch }
{}

/// A line that admits no one, and is no command or packet of some slots, may have `S1U 00` of its moment in its place.
pub fn others_may_be_replaced()
    ensures { MayBeReplaced }
{}
