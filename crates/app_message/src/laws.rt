//! The laws that join reading to spelling. They have no code: each is proved for the definitions
//! that the contracts of this crate cite.

ghost use Rattle.app_message.specs.Laws.{OctetsAreSpelled, OneStream, NoPrefix, ReadAgain};
ghost use Rattle.app_message.specs.Laws.{AnyCutting};

/// Every stream of octets consists of the spellings of the messages that are read, each of which
/// can be spelled, and of what is left. Without a fault that is the rest, and no whole message;
/// with a fault it begins with that fault.
pub fn octets_are_spelled()
    ensures { OctetsAreSpelled }
{}

/// Octets can be divided so in one way only: the messages, the rest and the fault of a stream are
/// determined.
pub fn one_stream()
    ensures { OneStream }
{}

/// Each message has one spelling, and no spelling begins another. If two spellings, each followed
/// by octets, are the same octets, the messages are equal, and so is what follows.
pub fn no_prefix()
    ensures { NoPrefix }
{}

/// What was spelled is read again, whatever follows it.
pub fn read_again()
    ensures { ReadAgain }
{}

/// However a stream is cut in two, its messages are those of the first piece, and then those that
/// the second piece brings.
pub fn any_cutting()
    ensures { AnyCutting }
{}
