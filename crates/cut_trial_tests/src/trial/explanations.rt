//! What no clause says: the lines after the first, and how long a study is estimated to take.

use crate::trial::tables::{MISTAKES, PLAN, PLAN_2, PLANS, PLANS_2, WRONG_PLANS};
use cut_explain::findings::FieldRule;
use cut_explain::{Estimate, estimate_study, explain};
use cut_plan::{Field, Plan, PlanFault, Refusal};
use std::alloc::{AllocError, Global};
use std::cell::Cell;
use std::io::{self, ErrorKind};
use std::test::Fail;
use std::time::{CpuClock, Duration};

/// The first line of what is said of a text that is no JSON.
const NOT_JSON: &str = "refused: 1 NotJson\n";

/// Whether the explanation of a text has this beginning, these lines after it, and a plan if it is to.
fn is_explained(alloc: Global, text: &[u8], start: &str, lines: &str) -> Result<bool, AllocError> {
    let found = explain(alloc, text)?;
    let rest = found.text.as_str().strip_prefix(start).unwrap_or("");
    let is_accepted = lines.starts_with("accepted\n");
    Ok(rest.strip_suffix("\n") == Some(lines) && found.plan.is_ok() == is_accepted)
}

/// A plan with a part replaced, which is written before what stands in its place.
fn edited(alloc: Global, plan: &str, edit: &str) -> Result<String, AllocError> {
    let (old, new) = edit.split_once('|').unwrap_or((edit, ""));
    plan.replace(alloc, old, new)
}

/// Whether the explanation of a plan with the edit of a row is the one below it.
fn is_row(alloc: Global, plan: &str, row: &str) -> Result<bool, AllocError> {
    let (edit, lines) = row.split_once('\n').unwrap_or((row, ""));
    let text = edited(alloc, plan, edit)?;
    is_explained(alloc, text.as_bytes(), "", lines)
}

#[test]
fn plans_are_described(rt: HostRuntime) -> Result<(), Fail> {
    for row in PLANS.split("\n---\n") {
        assert!(rt; is_row(rt.alloc(), PLAN, row)?, "{row}");
    }
    for row in PLANS_2.split("\n---\n") {
        assert!(rt; is_row(rt.alloc(), PLAN_2, row)?, "{row}");
    }
    Ok(())
}

#[test]
fn wrong_fields_are_named(rt: HostRuntime) -> Result<(), Fail> {
    for row in WRONG_PLANS.split("\n---\n") {
        assert!(rt; is_row(rt.alloc(), PLAN, row)?, "{row}");
    }
    let wanted = "found a list of 2; expected an object, in braces";
    assert!(rt; is_explained(rt.alloc(), b"[1, 2]", "refused: 2 NotObject\n", wanted)?);
    let blanks = vec![in rt.alloc(); b' '; 65_537]?;
    let wanted = "the text has 65537 bytes; expected at most 65536";
    assert!(rt; is_explained(rt.alloc(), &blanks, "refused: 19 PlanTooLong\n", wanted)?);
    Ok(())
}

/// Whether a row's text is explained by the line above it.
fn is_mistake(alloc: Global, row: &str) -> Result<bool, AllocError> {
    let (said, text) = row.split_once('\n').unwrap_or((row, ""));
    is_explained(alloc, text.as_bytes(), NOT_JSON, said)
}

#[test]
fn mistakes_of_syntax_are_placed(rt: HostRuntime) -> Result<(), Fail> {
    for row in MISTAKES.split("\n---\n") {
        assert!(rt; is_mistake(rt.alloc(), row)?, "{row}");
    }
    let wanted = "line 2, column 3: the byte here is no UTF-8";
    assert!(rt; is_explained(rt.alloc(), b"{\n \"\xE9\": 1}", NOT_JSON, wanted)?);
    let wanted = "line 1, column 1: a byte order mark; expected the text to begin with a brace";
    assert!(rt; is_explained(rt.alloc(), b"\xEF\xBB\xBF{}", NOT_JSON, wanted)?);
    Ok(())
}

/// Whether a text is refused for the range of a field.
fn is_out_of_range(alloc: Global, text: &[u8]) -> Result<bool, AllocError> {
    match Plan::from_json(alloc, text) {
        Err(PlanFault::Refused(refusal)) => Ok(matches!(refusal, Refusal::OutOfRange(_))),
        Err(PlanFault::Memory) => Err(AllocError),
        Ok(_) => Ok(false),
    }
}

/// Fields of numbers and of lists of numbers, of which all but `deaf` are in a plan of version 1.
const FIELDS: [Field; 10] = [
    Field::Copies,
    Field::Deaf,
    Field::H,
    Field::K,
    Field::L,
    Field::Liars,
    Field::Links,
    Field::Nodes,
    Field::Repeats,
    Field::Version,
];

/// The ends of the range of a field's numbers, and what stands around one of them.
fn range_of(field: Field) -> (u64, u64, &'static str) {
    match FieldRule::of_field(field, None) {
        FieldRule::Number { least, most } => (least, most, "}"),
        _ => (1, 32, "]}"),
    }
}

/// A plan with a number of its field once more at its end, where it counts.
fn with_number(alloc: Global, field: Field, number: u64, end: &str) -> Result<String, AllocError> {
    let plan = if field == Field::Deaf { PLAN_2 } else { PLAN };
    let plan = plan.strip_suffix("}").unwrap_or("");
    let name = field.name();
    let start = if end == "}" { "" } else { "[" };
    format!(in alloc; "{plan},\"{name}\":{start}{number}{end}")
}

/// Whether a plan with a number of a field is refused exactly where the field's rule says so.
fn is_ruled(alloc: Global, field: Field, number: u64) -> Result<bool, AllocError> {
    let (least, most, end) = range_of(field);
    let text = with_number(alloc, field, number, end)?;
    let is_within = least <= number && number <= most;
    Ok(is_out_of_range(alloc, text.as_bytes())? != is_within)
}

// At both ends of each range and one beyond, a plan is refused exactly where the rules say so.
#[test]
fn ranges_are_those_of_plans(rt: HostRuntime) -> Result<(), Fail> {
    for field in FIELDS {
        let (least, most, _) = range_of(field);
        for number in [least.saturating_sub(1), least, most, most.saturating_add(1)] {
            assert!(rt; is_ruled(rt.alloc(), field, number)?, "{field:?} {number}");
        }
    }
    Ok(())
}

/// A processor's clock that is read at the times of a text, in milliseconds, one after another, and not once more.
#[derive(Drop)]
struct Script<'a> {
    left: Cell<&'a str>,
}

impl CpuClock for Script<'_> {
    fn thread_cpu_time(&self) -> io::Result<Duration> {
        let left = self.left.get();
        let (first, rest) = left.split_once(' ').unwrap_or((left, ""));
        self.left.set(rest);
        match first.parse::<u64>() {
            Ok(millis) => Ok(Duration::from_millis(millis)),
            Err(_) => Err(io::Error::from(ErrorKind::Other)),
        }
    }

    fn process_cpu_time(&self) -> io::Result<Duration> {
        self.thread_cpu_time()
    }
}

/// The line of the estimate for a study by a clock that is read at these times, empty if there is none.
fn estimated(alloc: Global, plan: &Plan, times: &str) -> Result<String, AllocError> {
    let clock = Script {
        left: Cell::new(times),
    };
    match estimate_study(alloc, &clock, plan)? {
        Some(estimate) => estimate.line(alloc),
        None => Ok(String::new(alloc)),
    }
}

/// What comes after the time in the line of an estimate, up to the number of trials.
const BY_WORKERS: &str =
    " of a processor by one worker, by n workers about 1/n of it (measured on ";

/// How many trials the study has, times at which a clock is read, and the time and the trials of the estimate. The
/// rings are made between the first two times; then each piece has its two. A mean is over the last pieces of one size,
/// except for the first piece: over 300 ms; the same and 60 ms for the rings; 1,100 ms; 2, 6 and 250 ms, in pieces of
/// four; half of 1 ms.
const ESTIMATES: &str = "2||
2|5|
2|5 6 7|
2|0 0 0 100 100 400|about 400 to 800 ms|2 trials)
2|0 60 60 160 200 500|about 440 to 880 ms|2 trials)
1000|0 0 0 1100|about 12 to 24 min|1 trial)
1000|0 0 0 2 2 5 5 13 13 37 37 1037|about 57 to 114 s|15 trials)
2|0 0 0 1 1 2|less than 10 ms|3 trials)";

/// Whether the study of as many trials as a row says has the estimate that the row has.
fn is_estimated(alloc: Global, row: &str) -> Result<bool, PlanFault> {
    let (trials, rest) = row.split_once('|').unwrap_or((row, ""));
    let (times, wanted) = rest.split_once('|').unwrap_or((rest, ""));
    let repeats = format!(in alloc; "\"repeats\":{trials}")?;
    let text = PLAN.replace(alloc, "\"repeats\":2", &repeats)?;
    let plan = Plan::from_json(alloc, text.as_bytes())?;
    let found = estimated(alloc, &plan, times)?;
    Ok(found.as_str() == estimate_line(alloc, wanted)?.as_str())
}

/// The line of an estimate of this time and trials, which are written with a bar between them, and none if there is no
/// bar.
fn estimate_line(alloc: Global, wanted: &str) -> Result<String, AllocError> {
    match wanted.split_once('|') {
        Some((time, trials)) => format!(in alloc; "{time}{BY_WORKERS}{trials}\n"),
        None => Ok(String::new(alloc)),
    }
}

#[test]
fn studies_are_estimated(rt: HostRuntime) -> Result<(), Fail> {
    for row in ESTIMATES.lines() {
        assert!(rt; is_estimated(rt.alloc(), row)?, "{row}");
    }
    Ok(())
}

/// Seconds, and the range that they are printed as.
const TIMES: &str = "0|less than 10 ms
1|about 0.6 to 1.3 s
9|about 6 to 12 s
89|about 59 to 118 s
119|about 1.3 to 2.6 min
5399|about 59 to 119 min
5400|about 1.0 to 2.0 h
129600|about 1.0 to 2.0 days
864000|about 6 to 13 days";

/// Whether the seconds of a row are printed as it says.
fn is_printed(alloc: Global, row: &str) -> Result<bool, AllocError> {
    let (seconds, wanted) = row.split_once('|').unwrap_or((row, ""));
    let estimate = Estimate {
        time: Duration::from_secs(seconds.parse::<u64>().unwrap_or(0)),
        trials: 3,
    };
    let found = estimate.to_string(alloc)?;
    let (time, rest) = found.as_str().split_once(BY_WORKERS).unwrap_or(("", ""));
    Ok(time == wanted && rest == "3 trials)")
}

#[test]
fn times_are_rounded(rt: HostRuntime) -> Result<(), Fail> {
    for row in TIMES.lines() {
        assert!(rt; is_printed(rt.alloc(), row)?, "{row}");
    }
    Ok(())
}
