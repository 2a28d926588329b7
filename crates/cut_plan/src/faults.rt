ghost use Rattle.std.specs.Prelude.{◌≡◌};
ghost use Rattle.cut_plan.specs.Words.{faults_word, faults_of};

/// How the targets of a study fail.
#[derive(Clone, Copy, Debug, PartialEq, Eq)]
pub enum Faults {
    /// A target has crashed.
    Crash,
    /// A target is alive, and everything that is sent to it is lost.
    Deaf,
}

impl Faults {
    /// The word that names it in a plan.
    pub(crate) fn word(self) -> &'static str
        ensures { result.now ≡ faults_word self }
    {
        match self {
            Faults::Crash => "crash",
            Faults::Deaf => "deaf",
        }
    }

    /// What a word of a plan names.
    pub(crate) fn of_word(word: &str) -> Option<Faults>
        ensures { result ≡ faults_of word.now }
    {
        match word {
            "crash" => Some(Faults::Crash),
            "deaf" => Some(Faults::Deaf),
            _ => None,
        }
    }
}
