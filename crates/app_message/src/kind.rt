//! What a message is for.

ghost use Rattle.std.specs.Prelude.{◌≡◌, ◌<◌};
ghost use Rattle.app_message.specs.Spelling.{kind_code};

/// The kind of a message. Its code is in the top three bits of the status octet. The codes 5 and 6
/// mean no kind.
#[derive(Clone, Copy, Debug, PartialEq, Eq)]
pub enum Kind {
    /// A question, code 0.
    Read,
    /// The answer to a Read, code 1.
    Answer,
    /// A command, code 2.
    Write,
    /// An unsolicited message that is to be acknowledged, code 3.
    Report,
    /// An unsolicited message that is not acknowledged, code 4.
    Notice,
    /// The acknowledgement of a Write or Report, code 7.
    Ack,
}

impl Kind {
    /// Returns the code of the kind, below 8.
    pub fn code(self) -> u8
        ensures value { result ≡ kind_code self }
        ensures range { result < 8 }
    {
        match self {
            Kind::Read => 0,
            Kind::Answer => 1,
            Kind::Write => 2,
            Kind::Report => 3,
            Kind::Notice => 4,
            Kind::Ack => 7,
        }
    }
}
