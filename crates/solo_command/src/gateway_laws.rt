//! How lines and epochs are answered, and what is saved of a subscriber that answered them.
ghost use Rattle.solo_command.specs.GatewayLaws.{EpochsGoOn, LinesGoOn, NextEpochGoesOn, NextLineGoesOn};
ghost use Rattle.solo_command.specs.GatewayLaws.{PiecesFitInOrder};

/// What is told of lines or of whole epochs, and then of those behind them, is told of all of them.
pub fn lines_go_on()
    ensures lines { LinesGoOn }
    ensures next { NextLineGoesOn }
    ensures epochs { EpochsGoOn }
    ensures next_epoch { NextEpochGoesOn }
{}

/// Parts of counters that fit a version do so with their pieces in the order of its bearers, as they are saved.
pub fn pieces_fit_in_order()
    ensures { PiecesFitInOrder }
{}
