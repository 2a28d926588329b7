ghost use Rattle.std.specs.Prelude.{◌≡◌, ◌+◌, ◌≤◌, ◌++◌, length};
ghost use Rattle.std.specs.Fmt.{decimal};
ghost use Rattle.cut_progress.specs.Lines.{left_words, line_text};

use arrayvec::ArrayString;
use itoa::Buffer;

/// The text of a line, kept in the value itself.
pub type LineText = ArrayString<128>;

/// A line of progress: what is printed of a study while it is run.
#[derive(Clone, Copy, Debug, PartialEq, Eq)]
pub struct ProgressLine {
    /// How many of its trials are held.
    pub held: u64,
    /// How many trials it has.
    pub all: u64,
    /// For how many seconds it has been run.
    pub seconds: u64,
    /// For how many seconds it is still to be run, if that is estimated.
    pub left: Option<u64>,
}

impl ProgressLine {
    /// The line as it is printed, with its line feed. This takes no memory.
    #[tactic(auto, unfolding(crate::specs::Lines::line_text))]
    pub fn text(&self) -> LineText
        ensures { result.bytes ≡ line_text self.now }
    {
        let mut text = LineText::new();
        push_number(&mut text, "cutlab: ", self.held);
        push_number(&mut text, " of ", self.all);
        push_number(&mut text, " trials, ", self.seconds);
        text.push_str(" s");
        push_left(&mut text, self.left);
        text.push_str("\n");
        text
    }
}

/// Appends some words and a number in decimal.
fn push_number(text: &mut LineText, words: &str, number: u64)
    requires { length text.old.bytes + length words.now + 20 ≤ 128 }
    ensures text { text.new.bytes ≡ text.old.bytes ++ words.now ++ decimal number }
    ensures short { length text.new.bytes ≤ length text.old.bytes + length words.now + 20 }
{
    let mut digits = Buffer::new();
    text.push_str(words);
    text.push_str(digits.format(number));
}

/// Adds for how many seconds a study is still to be run, if that is estimated.
fn push_left(text: &mut LineText, left: Option<u64>)
    requires { length text.old.bytes ≤ 83 }
    ensures text { text.new.bytes ≡ text.old.bytes ++ left_words left }
    ensures short { length text.new.bytes ≤ 118 }
{
    if let Some(seconds) = left {
        push_number(text, ", about ", seconds);
        text.push_str(" s left");
    }
}
