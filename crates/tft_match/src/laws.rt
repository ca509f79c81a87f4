//! Laws of the choice, each the contract of a function that does nothing.
ghost use Rattle.tft_match.specs.Choice.{OneFilterDecides};
ghost use Rattle.tft_match.specs.Chosen.{ChosenIsTaken};

/// Where the rows are of different bearers in the order of their indices, and no two filters of a
/// row have one identifier, it is one filter that decides.
pub fn one_filter_decides()
    ensures { OneFilterDecides }
{}

/// The function by which the layers above name the chosen bearer tells the one that the packet takes.
pub fn chosen_is_taken()
    ensures { ChosenIsTaken }
{}
