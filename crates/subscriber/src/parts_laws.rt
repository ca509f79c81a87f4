//! What counters that are alike do.
ghost use Rattle.subscriber.specs.Alike.{AlikePiecesStayAlike, PacketsAreAlike, VersionsAreAlike};
ghost use Rattle.subscriber.specs.Alike.{SessionsKeepPlaces, MadeOnesAreAlike};
ghost use Rattle.subscriber.specs.Subscribers.{CommandsStayAlike, PacketsStayAlike};
ghost use Rattle.subscriber.specs.Charging.{PacketsMayBeCharged, VersionsMayBeCharged, FittingPiecesAreOpen};

/// Pieces that are the same but for their order make the same charging records of whatever may be posted
/// to the ones, and stay the same.
pub fn alike_pieces_stay_alike()
    ensures { AlikePiecesStayAlike }
{}

/// A packet has the same verdict by both, makes the same charging records, and leaves them alike.
pub fn packets_are_alike()
    ensures { PacketsAreAlike }
{}

/// So does a version of which the bearers that go on keep their places and their quality of service, with the
/// same effects; and those that a command leaves of a session do.
pub fn versions_are_alike()
    ensures alike { VersionsAreAlike }
    ensures places { SessionsKeepPlaces }
{}

/// Counters that were made of parts are like those that these were read of, in whatever order the pieces are.
pub fn made_ones_are_alike()
    ensures { MadeOnesAreAlike }
{}

/// Where each active bearer has a piece, no others have one and counts are low, what a packet or a version
/// charges may be posted, and so it is again behind it, of the version that is then. Parts that fit a version
/// have such pieces.
pub fn pieces_may_be_charged()
    ensures packets { PacketsMayBeCharged }
    ensures versions { VersionsMayBeCharged }
    ensures fitting { FittingPiecesAreOpen }
{}

/// Whole subscribers that are alike answer a command and a packet alike, make the same charging records, and
/// are alike behind it.
pub fn subscribers_stay_alike()
    ensures commands { CommandsStayAlike }
    ensures packets { PacketsStayAlike }
{}
