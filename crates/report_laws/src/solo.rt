//! What `solo` wrote.
ghost use Rattle.report_laws.specs.Solo.{SoloTellsTheSame, SoloInEachEpoch, SoloPartsTellAll};

/// Both laws hold of what `solo` wrote, whatever the octets of its traces say: of two traces that are alike to some
/// slots, and of a trace in parts.
pub fn solo_reports_share_nothing()
    ensures all { SoloTellsTheSame }
    ensures epochs { SoloInEachEpoch }
    ensures parts { SoloPartsTellAll }
{}
