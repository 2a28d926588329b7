ghost use Rattle.std.specs.Prelude.{◌≡◌};
ghost use Rattle.cut_messages.specs.Kinds.{byte_of};

/// What a message is for. A client sends `Submit`, `Count` and `Quit`; a server answers by
/// `Row`, `Done`, `Count` and `Fault`.
#[derive(Clone, Copy, Debug, PartialEq, Eq)]
pub enum Kind {
    /// A study to run: the text of its plan.
    Submit,
    /// As a request, the number of a study's slot, in 4 bytes. As a reply, how many of its trials
    /// are counted, in 8 bytes.
    Count,
    /// No further request. It has no payload.
    Quit,
    /// A line of a table, with its line feed.
    Row,
    /// The table is whole. It has no payload.
    Done,
    /// A request failed: the fault's number, in 2 bytes.
    Fault,
}

impl Kind {
    /// The byte that a frame of this kind begins with: a letter. `Count` has the same one both
    /// ways.
    pub fn byte(self) -> u8
        ensures { result ≡ byte_of self }
    {
        match self {
            Kind::Submit => b'R',
            Kind::Count => b'S',
            Kind::Quit => b'Q',
            Kind::Row => b'T',
            Kind::Done => b'Z',
            Kind::Fault => b'E',
        }
    }
}
