//! Laws of streams of messages. Each function does nothing, and its contract is the law.

ghost use Rattle.cut_messages.specs.Laws.{ReadingsAgree, MessagesTakeRoom, FaultsStay};

/// A stream has one reading: its messages and what comes after them are determined.
pub fn readings_agree()
    ensures { ReadingsAgree }
{}

/// Each message takes from 5 to 65,541 bytes of its stream.
#[tactic(auto, using(crate::proofs::Streams::room))]
pub fn messages_take_room()
    ensures { MessagesTakeRoom }
{}

/// A fault in a stream stays there, and no message begins at its place.
pub fn faults_stay()
    ensures { FaultsStay }
{}
