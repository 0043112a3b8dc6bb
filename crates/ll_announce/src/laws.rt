//! A worked example of the definitions, as the contract of an empty function.
ghost use Rattle.ll_announce.specs.Worked.{WorkedMessages};

/// Shows the messages of a worked example.
pub fn worked_messages()
    ensures { WorkedMessages }
{}
