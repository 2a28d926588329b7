ghost use Rattle.std.specs.Prelude.{◌≡◌, ◌+◌, ◌++◌, ◌≤◌, length};
ghost use Rattle.std.specs.Fmt.{decimal};
ghost use Rattle.cut_machines.specs.Share.{share_line};

use arrayvec::ArrayString;
use cut_shares::share::Share;
use itoa::Buffer;

/// A line of an answer, kept in the value itself.
pub(crate) type AnswerText = ArrayString<64>;

/// The line that says how many trials a share has, all of which are held. This takes no memory.
pub(crate) fn share_line(share: Share, trials: u32) -> AnswerText
    ensures { result.bytes ≡ share_line share trials }
{
    let mut text = AnswerText::new();
    text.push_str("share ");
    push_number(&mut text, share.index);
    text.push_str(" of ");
    push_number(&mut text, share.shares);
    text.push_str(": ");
    push_number(&mut text, trials);
    text.push_str(" of ");
    push_number(&mut text, trials);
    text.push_str("\n");
    text
}

/// Adds a number in decimal.
fn push_number(text: &mut AnswerText, number: u32)
    requires { length text.old.bytes ≤ 54 }
    ensures text { text.new.bytes ≡ text.old.bytes ++ decimal number }
    ensures short { length text.new.bytes ≤ length text.old.bytes + 10 }
{
    let mut digits = Buffer::new();
    text.push_str(digits.format(number));
}
