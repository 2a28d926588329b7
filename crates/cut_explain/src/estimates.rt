//! How long a study takes, by a few of its trials.
ghost use Rattle.std.specs.Prelude.{◌≡◌};
ghost use Rattle.cut_outcome.specs.Outcome.{rings_of};

use cut_outcome::Piece;
use cut_plan::Plan;
use cut_rings::Rings;
use cut_trial::{TrialFault, run_piece};
use std::alloc::{AllocError, Global};
use std::fmt;
use std::time::{CpuClock, Duration};

/// For how many milliseconds trials are run, unless a piece lasts longer.
const LONGEST: u64 = 1000;

/// A piece that takes fewer milliseconds is followed by one of twice as many trials.
const SHORT: u64 = 4;

/// How many pieces are run at most, and how many trials each has at most.
const MOST_PIECES: u32 = 64;

const MOST_TRIALS: u32 = 16;

/// How long a study takes, by some trials that were run.
#[derive(Clone, Copy, Debug, PartialEq, Eq)]
pub struct Estimate {
    /// How long a processor works for all trials.
    pub time: Duration,
    /// How many trials were run to estimate it.
    pub trials: u32,
}

impl Estimate {
    /// The estimate as a line, with a line feed.
    pub fn line(&self, alloc: Global) -> Result<String, AllocError> {
        format!(in alloc; "{self}\n")
    }
}

impl fmt::Display for Estimate {
    fn fmt<W: fmt::Write>(&self, f: &mut fmt::Formatter<W>) -> fmt::Result {
        let range = TimeRange(millis_of(self.time));
        let trials = self.trials;
        let plural = if trials == 1 { "" } else { "s" };
        write!(
            f,
            "{range} of a processor by one worker, by n workers about 1/n of it (measured on {trials} trial{plural})"
        )
    }
}

/// The milliseconds of a time.
fn millis_of(time: Duration) -> u64 {
    time.as_secs()
        .saturating_mul(1000)
        .saturating_add(u64::from(time.subsec_millis()))
}

/// An estimate of some milliseconds as it is printed: from two thirds of it to four thirds.
#[derive(Clone, Copy)]
struct TimeRange(u64);

impl fmt::Display for TimeRange {
    fn fmt<W: fmt::Write>(&self, f: &mut fmt::Formatter<W>) -> fmt::Result {
        let low = self.0.saturating_mul(2) / 3;
        let high = self.0.saturating_mul(4) / 3;
        if high < 10 {
            return f.write_str("less than 10 ms");
        }
        let (unit, name) = unit_of(high);
        let is_few = name != "ms" && high < unit.saturating_mul(10);
        let (low, high) = (
            Amount::of_millis(low, unit, is_few),
            Amount::of_millis(high, unit, is_few),
        );
        write!(f, "about {low} to {high} {name}")
    }
}

/// The unit in which this many milliseconds are printed: how many milliseconds it has, and its name.
fn unit_of(millis: u64) -> (u64, &'static str) {
    match millis {
        0..=999 => (1, "ms"),
        1_000..=119_999 => (1_000, "s"),
        120_000..=7_199_999 => (60_000, "min"),
        7_200_000..=172_799_999 => (3_600_000, "h"),
        _ => (86_400_000, "days"),
    }
}

/// An amount of a unit as it is printed: in whole numbers, or with one decimal place.
#[derive(Clone, Copy)]
struct Amount {
    tenths: u64,
    is_few: bool,
}

impl Amount {
    /// The amount of a unit that some milliseconds are.
    fn of_millis(millis: u64, unit: u64, is_few: bool) -> Amount {
        let tenths = millis.saturating_mul(10).checked_div(unit).unwrap_or(0);
        Amount { tenths, is_few }
    }
}

impl fmt::Display for Amount {
    fn fmt<W: fmt::Write>(&self, f: &mut fmt::Formatter<W>) -> fmt::Result {
        let (whole, tenth) = (self.tenths / 10, self.tenths % 10);
        if self.is_few {
            write!(f, "{whole}.{tenth}")
        } else {
            write!(f, "{whole}")
        }
    }
}

/// Estimates how long a processor works for the trials of a plan. It is `None` if the clock can't be read.
///
/// It runs pieces of trials in cells that are spread evenly over the plan, for about a second, and takes the time of a
/// trial to be the mean over them. A piece that is followed by a larger one is left out, and so is the first: so the
/// work that a worker does once for a piece counts as little as it does in a study. The only other work is to make the
/// rings.
pub fn estimate_study<C: CpuClock>(
    alloc: Global,
    clock: &C,
    plan: &Plan,
) -> Result<Option<Estimate>, AllocError> {
    let Ok(start) = clock.thread_cpu_time() else {
        return Ok(None);
    };
    let rings = Rings::hashed(alloc, plan)?;
    let Ok(end) = clock.thread_cpu_time() else {
        return Ok(None);
    };
    let Some(samples) = run_samples(alloc, clock, plan, &rings)? else {
        return Ok(None);
    };
    let each = samples
        .time_each
        .checked_div(samples.pieces)
        .unwrap_or(Duration::ZERO);
    Ok(Some(Estimate {
        time: each
            .saturating_mul(plan.trials())
            .saturating_add(end.saturating_sub(start)),
        trials: samples.trials,
    }))
}

/// Pieces that were run.
#[derive(Clone, Copy)]
struct Samples {
    /// How long a trial of each took, added up, except for those that are left out.
    time_each: Duration,
    /// Over how many pieces.
    pieces: u32,
    /// How many trials were run in all.
    trials: u32,
}

impl Samples {
    /// Adds a piece of `count` trials. With `is_alone` the earlier ones are left out.
    fn add(&mut self, time: Duration, count: u32, is_alone: bool) {
        if is_alone {
            self.time_each = Duration::ZERO;
            self.pieces = 0;
        }
        let each = time.checked_div(count).unwrap_or(Duration::ZERO);
        self.time_each = self.time_each.saturating_add(each);
        self.pieces = self.pieces.saturating_add(1);
        self.trials = self.trials.saturating_add(count);
    }
}

/// Runs pieces of trials for about a second, or all trials where they take less. `None` if the clock can't be read.
fn run_samples<C: CpuClock>(
    alloc: Global,
    clock: &C,
    plan: &Plan,
    rings: &Rings,
) -> Result<Option<Samples>, AllocError>
    requires { rings.now ≡ rings_of plan.now }
{
    let mut samples = Samples {
        time_each: Duration::ZERO,
        pieces: 0,
        trials: 0,
    };
    let mut spent = 0u64;
    let (mut count, mut before) = (1u32, 0u32);
    for number in 0..MOST_PIECES {
        let piece = sample_piece(plan, number, count);
        let Some(time) = time_piece(alloc, clock, plan, rings, piece)? else {
            return Ok(None);
        };
        samples.add(time, count, number == 1 || before < count);
        spent = spent.saturating_add(millis_of(time));
        before = count;
        if spent >= LONGEST || samples.trials >= plan.trials() {
            break;
        }
        if millis_of(time) < SHORT {
            count = count.saturating_mul(2).min(MOST_TRIALS).min(plan.repeats());
        }
    }
    Ok(Some(samples))
}

/// The piece of `count` trials that is run as this number: its cell is that many golden sections of all cells from the
/// first, so that any number of pieces is spread over them evenly.
fn sample_piece(plan: &Plan, number: u32, count: u32) -> Piece {
    let section = u64::from(number).saturating_mul(2_654_435_769) % 4_294_967_296;
    let cell = section.saturating_mul(u64::from(plan.cells())) / 4_294_967_296;
    let places = plan.repeats().saturating_sub(count).saturating_add(1);
    let place = number
        .saturating_mul(count)
        .checked_rem(places)
        .unwrap_or(0);
    let first = (cell as u32)
        .saturating_mul(plan.repeats())
        .saturating_add(place);
    Piece { first, count }
}

/// How long a piece of trials takes. `None` if the clock can't be read.
fn time_piece<C: CpuClock>(
    alloc: Global,
    clock: &C,
    plan: &Plan,
    rings: &Rings,
    piece: Piece,
) -> Result<Option<Duration>, AllocError>
    requires { rings.now ≡ rings_of plan.now }
{
    let Ok(start) = clock.thread_cpu_time() else {
        return Ok(None);
    };
    if let Err(TrialFault::Memory) = run_piece(alloc, plan, rings, piece) {
        return Err(AllocError);
    }
    let Ok(end) = clock.thread_cpu_time() else {
        return Ok(None);
    };
    Ok(Some(end.saturating_sub(start)))
}
