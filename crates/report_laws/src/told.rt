//! What lawful reports tell.
ghost use Rattle.report_laws.specs.Held.{AtMostOneFate, FatesFollow};
ghost use Rattle.report_laws.specs.Octets.{ToldHaveOctets};
ghost use Rattle.report_laws.specs.Ranges.{EntriesAreInRange};

/// A packet has at most one H entry in a lawful report. A P entry tells that it was held, and the H entry is of a
/// command that isn't among those before the packet.
pub fn held_packets_have_one_fate()
    ensures one { AtMostOneFate }
    ensures follows { FatesFollow }
{}

/// What a lawful report tells has octets: the message of a reply, a packet that goes on, a notification, an End Marker.
pub fn told_have_octets()
    ensures { ToldHaveOctets }
{}

/// Each entry of a report that an input may have, without its place, is one that a report can hold, whatever the
/// input's octets say. So `report_lines::read` reads it again from its text.
pub fn entries_are_in_range()
    ensures { EntriesAreInRange }
{}
