//! Laws of what is remembered of a slot, each the contract of a function that does nothing.
ghost use Rattle.lawful_run.specs.RangeLaws.{AnswersAreShort, EventsChargeFew, EventsLeadInRange};
ghost use Rattle.lawful_run.specs.RangeLaws.{HeldPacketsCame, LinesAskOnce, OpenPiecesAreInRange};

/// Behind fewer than 2^40 events in their ranges, all that is remembered of the slot is in its ranges.
pub fn events_lead_in_range()
    ensures { EventsLeadInRange }
{}

/// What a line means asks of each bearer at most once.
pub fn lines_ask_once()
    ensures { LinesAskOnce }
{}

/// So the answer that a session keeps has fewer than 2^16 octets.
pub fn answers_are_short()
    ensures { AnswersAreShort }
{}

/// A packet that is held is one of the slot's events.
pub fn held_packets_came()
    ensures { HeldPacketsCame }
{}

/// An event charges at most forty-nine things.
pub fn events_charge_few()
    ensures { EventsChargeFew }
{}

/// No count of a life's open piece is above the number of things that the book heard, and its moments are below 2^50.
pub fn open_pieces_are_in_range()
    ensures { OpenPiecesAreInRange }
{}
