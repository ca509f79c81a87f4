//! Laws of the text of a state, each the contract of a function that does nothing.
ghost use Rattle.record_codec.specs.StateLaws.{LinesSayOneState, TextsSayTheirStates};

use crate::one_file_of_a_state;

/// What is written of a state is read as that state, and what comes behind it is left.
pub fn texts_say_their_states()
    ensures { TextsSayTheirStates }
{}

/// An input has one state before its trace, or none.
pub fn lines_say_one_state()
    ensures { LinesSayOneState }
{
    one_file_of_a_state();
}
