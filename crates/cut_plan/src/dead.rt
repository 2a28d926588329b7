ghost use Rattle.std.specs.Prelude.{◌≡◌};
ghost use Rattle.cut_plan.specs.Words.{dead_word, dead_of};

/// Whether observers that have crashed still raise alerts.
#[derive(Clone, Copy, Debug, PartialEq, Eq)]
pub enum Dead {
    /// A crashed observer raises no alert.
    Silent,
    /// A crashed observer still raises the alerts about failed subjects. It raises none about cut links.
    Speak,
}

impl Dead {
    /// The word that names it in a plan.
    pub(crate) fn word(self) -> &'static str
        ensures { result.now ≡ dead_word self }
    {
        match self {
            Dead::Silent => "silent",
            Dead::Speak => "speak",
        }
    }

    /// What a word of a plan names.
    pub(crate) fn of_word(word: &str) -> Option<Dead>
        ensures { result ≡ dead_of word.now }
    {
        match word {
            "silent" => Some(Dead::Silent),
            "speak" => Some(Dead::Speak),
            _ => None,
        }
    }
}
