//! Laws of conversations.
ghost use Rattle.asremote.specs.Conversation.{NumbersStay, GoneStay};
ghost use Rattle.asremote.specs.Talk.{SaysAsSession};

/// Where no line is of another form but the one that ends it, a conversation says what the session of the same lines
/// says.
pub fn a_session_turn_by_turn()
    ensures same { SaysAsSession }
{}

/// What was looked up keeps its number to the end of a conversation, and once its module was built again or discarded,
/// it is not there any more.
pub fn numbers_stay()
    ensures kept { NumbersStay }
    ensures gone { GoneStay }
{}
