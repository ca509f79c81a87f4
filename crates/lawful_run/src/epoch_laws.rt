//! The law of the join.
ghost use Rattle.lawful_run.specs.Joined.{PiecesAreAnEpoch};

/// Where the entries of an epoch's lines are right but for what is left open of commands and packets, and
/// what is told of each slot is right by itself, the filled entries with the effects and charging records by
/// slot are a lawful epoch.
pub fn pieces_are_an_epoch()
    ensures { PiecesAreAnEpoch }
{}
