//! Laws of subscribers at rest.
ghost use Rattle.at_rest.specs.Rest.{RestLeavesRoom, RestGoesOn, NewOneIsAtRest};

use subscriber::few_events_leave_room;

/// Each subscriber at rest can take a further event.
pub fn rest_leaves_room()
    ensures { RestLeavesRoom }
{
    few_events_leave_room();
}

/// What is kept of a subscriber stays true behind more lines.
pub fn rest_goes_on()
    ensures { RestGoesOn }
{}

/// A subscriber before its first event is at rest.
pub fn new_one_is_at_rest()
    ensures { NewOneIsAtRest }
{}
