//! The commands of studies on many machines.

ghost use Rattle.std.specs.Prelude.{◌≡◌, ◌==◌, ℕ, codes, IfOk, IfSome, IfNone, slice_index};
ghost use Rattle.clap.specs.Words.{found_of, rows_of};
ghost use Rattle.cut_command_line.specs.Line.{GivesShare, IsDigitsIn, IsSizedJob};
ghost use Rattle.cut_command_line.specs.inside.Line.{GivesJob};

use crate::job::{Job, JoinOptions, ShareOptions};
use crate::line::{flag_given, number_given, plan_given};
use crate::options::{LARGEST_PIECE, MOST_CHECKPOINTS, MOST_SHARES, MOST_WORKERS};
use clap::ArgMatches;
use std::alloc::{AllocError, Global};

/// What is reported of a word that is not a share.
pub(crate) const WRONG_SHARE: &str =
    "the value for '<I/N>' is none: expected the number of a share, from 1, a slash, and how many shares there are, at most 100000, as in 2/8";

/// What is wrong if more checkpoints are given than are joined.
pub(crate) const TOO_MANY_FILES: &str =
    "the values for '<OLD>...' are too many: expected at most 1000 checkpoints";

/// Which share, and of how many.
#[derive(Clone, Copy)]
struct ShareNumber {
    index: u32,
    shares: u32,
}

/// The share that the matches of `share` give.
pub(crate) fn share_job<'a>(given: &ArgMatches<'a>) -> Option<Job<'a>>
    ensures gives { GivesJob (codes "share") (rows_of (found_of given.now)) result }
    ensures sized { IfSome result (λ job. IsSizedJob job) }
{
    let share = share_given(given)?;
    let file = given.get_str("file")?;
    let piece = number_given(given, "piece", LARGEST_PIECE)?;
    let workers = number_given(given, "workers", MOST_WORKERS)?;
    Some(Job::Share(ShareOptions {
        index: share.index,
        shares: share.shares,
        file,
        piece,
        workers,
        progress: flag_given(given, "progress"),
        plan: plan_given(given),
    }))
}

/// The join that the matches of `join` give.
pub(crate) fn join_job<'a>(
    alloc: Global,
    given: &ArgMatches<'a>,
) -> Result<Option<Job<'a>>, AllocError>
    ensures gives { IfOk result (λ found. GivesJob (codes "join") (rows_of (found_of given.now)) found) }
    ensures sized { IfOk result (λ found. IfSome found (λ job. IsSizedJob job)) }
{
    let Some(new) = given.get_str("new") else {
        return Ok(None);
    };
    let Some(old) = given.get_strs("old") else {
        return Ok(None);
    };
    if old.len() > MOST_CHECKPOINTS {
        return Ok(None);
    }
    let old = Vec::from_slice(alloc, old)?;
    Ok(Some(Job::Join(JoinOptions {
        new,
        old,
        which: flag_given(given, "which"),
        plan: plan_given(given),
    })))
}

/// The number of the share that the matches give, and how many there are.
fn share_given(given: &ArgMatches) -> Option<ShareNumber>
    ensures some { IfSome result (λ s. GivesShare (rows_of (found_of given.now)) s.index s.shares) }
    ensures none { IfNone result
        ((index shares : ℕ) → GivesShare (rows_of (found_of given.now)) index shares → ⊥) }
{
    let text = given.get_str("share")?;
    let (first, second) = text.split_once('/')?;
    let index = parse_number(first, MOST_SHARES)?;
    let shares = parse_number(second, MOST_SHARES)?;
    if index > shares {
        return None;
    }
    Some(ShareNumber { index, shares })
}

/// The number, from 1 to a greatest one, that a text is in decimal digits alone.
fn parse_number(text: &str, most: u32) -> Option<u32>
    ensures some { IfSome result (λ n. IsDigitsIn most text.now n) }
    ensures none { IfNone result ((n : ℕ) → IsDigitsIn most text.now n → ⊥) }
{
    if has_sign(text) {
        return None;
    }
    let number = text.parse::<u32>().ok()?;
    if number < 1 || number > most {
        return None;
    }
    Some(number)
}

/// Whether a text begins with a plus sign.
fn has_sign(text: &str) -> bool
    ensures { result ≡ (slice_index text.now 0 == 43) }
{
    text.as_bytes().first() == Some(&b'+')
}
