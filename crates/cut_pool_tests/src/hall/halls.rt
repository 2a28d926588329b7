//! Halls in which one thread does what a script says: studies that are worked off, slots that have none yet, and lines
//! that are asked for by what another hall opened.
ghost use Rattle.std.specs.Prelude.{◌≡◌, ◌<◌, ◌≤◌, false, None, Err, IfSome};
ghost use Rattle.cut_slots.specs.declared.not_closed.NotClosed.TheVariants.{SeatMissing};

use crate::hall::deeds::{Deed, End, Foul, Guest, Stormy, close_hall};
use cut_book::{NoShelf, Opened};
use cut_hall::{Blanks, CallLedger, Hall, NotClosed, Pass, Report, StudyCell};
use cut_ledger::{Base, Slip};
use cut_outcome::{Piece, Totals};
use cut_plan::Plan;
use cut_pool_cases::{ONE_LIAR, Study, TWO_TRIALS};
use std::alloc::Global;
use std::marker::Brand;
use std::sync::Wait;
use std::sync::ledger::Blank;
use std::test::Fail;

/// The slip of the first trial of `TWO_TRIALS`.
const FIRST_SLIP: Slip = Slip {
    piece: Piece { first: 0, count: 1 },
    totals: Totals {
        receivers: 4,
        votes: 4,
        decided: 1,
        right: 1,
        ..Totals::ZERO
    },
};

/// A step of a script.
#[derive(Clone, Copy)]
enum Step {
    /// Works in the first slot until nothing is left there, in both ways.
    Work,
    /// Ends the work of all.
    Stop,
    /// Submits a study, and does a deed for it.
    Own(Study, Deed),
    /// Submits a study whose disk holds something before it comes, and does a deed for it.
    Kept(Foul, Study, Deed),
    /// Does a deed for the study of the first slot by what another hall opened, with the slip of its first trial, this
    /// many times.
    Foreign(Study, usize, Deed),
}

/// Steps, and how each ends.
type Script = &'static [(Step, End)];

/// What is done in a new hall of this many slots: by a first pass, by a second one, and by the first one again.
#[derive(Clone, Copy)]
struct Scene {
    slots: u32,
    first: Script,
    second: Script,
    last: Script,
    /// The accepted trials and the calls of the first slot at the end, and whether its study is complete.
    report: (u64, u64, bool),
}

/// What another hall opens for a study if its disk has the slip of the first trial, this many times.
fn opened_elsewhere(alloc: Global, study: Study, slips: usize) -> Option<Opened> {
    let kept = vec![in alloc; FIRST_SLIP; slips].ok()?;
    let plan = Plan::from_json(alloc, study.plan.as_bytes()).ok()?;
    Some(Opened {
        study: 0,
        plan,
        base: Base::from_vec(kept),
    })
}

impl<M: CallLedger, K: CallLedger, R: Wait> Guest<'_, M, K, R> {
    /// Takes a step: how it ends.
    fn take_step(&self, pass: &mut Pass<M>, step: Step) -> End
        requires untrusted { self.now.hall.now.is_trusted ≡ false }
        requires own { pass.old.hall ≡ self.now.hall.now.id }
        requires slot { 0 < self.now.hall.now.slots }
        ensures { pass.new.hall ≡ pass.old.hall }
    {
        match step {
            Step::Work => {
                let first = StudyCell { study: 0, cell: 0 };
                self.hall.work_on_cell(&self.env(), pass, first);
                self.work_off(pass, 0)
            }
            Step::Stop => {
                self.hall.stop(self.rt);
                End::Ended
            }
            Step::Own(study, deed) => self.act(pass, &NoShelf, study, deed),
            Step::Kept(foul, study, deed) => self.act(pass, &foul, study, deed),
            Step::Foreign(study, slips, deed) => self.act_elsewhere(pass, study, slips, deed),
        }
    }

    /// Does a deed for the study of the first slot by what another hall opened.
    fn act_elsewhere(&self, pass: &mut Pass<M>, study: Study, slips: usize, deed: Deed) -> End
        requires own { pass.old.hall ≡ self.now.hall.now.id }
        requires slot { 0 < self.now.hall.now.slots }
        ensures { pass.new.hall ≡ pass.old.hall }
    {
        match opened_elsewhere(self.alloc, study, slips) {
            Some(opened) if opened.study == 0 => self.act_in(pass, &opened, study, deed),
            _ => End::Wrong,
        }
    }

    /// Takes the steps of a script, until one ends otherwise: whether none does.
    fn play(&self, pass: &mut Pass<M>, script: Script) -> bool
        requires untrusted { self.now.hall.now.is_trusted ≡ false }
        requires own { pass.old.hall ≡ self.now.hall.now.id }
        requires slot { 0 < self.now.hall.now.slots }
        ensures { pass.new.hall ≡ pass.old.hall }
    {
        for row in script {
            let (step, wanted) = *row;
            if self.take_step(pass, step) != wanted {
                return false;
            }
        }
        true
    }

    /// Plays a scene by two passes of a hall.
    fn play_by_two(&self, first: &mut Pass<M>, second: &mut Pass<M>, scene: &Scene) -> bool
        requires untrusted { self.now.hall.now.is_trusted ≡ false }
        requires first { first.old.hall ≡ self.now.hall.now.id }
        requires second { second.old.hall ≡ self.now.hall.now.id }
        requires slot { 0 < self.now.hall.now.slots }
        ensures first { first.new.hall ≡ first.old.hall }
        ensures second { second.new.hall ≡ second.old.hall }
    {
        self.play(first, scene.first)
            && self.play(second, scene.second)
            && self.play(first, scene.last)
    }
}

/// A hall and its passes, given back as a pass was missing.
fn given_back<M: CallLedger, K: CallLedger>(
    closing: Result<Report, NotClosed<(Stormy<M, K>, Vec<Pass<M>>)>>,
) -> Option<(Stormy<M, K>, Vec<Pass<M>>)>
    ensures { IfSome result (λ back. closing ≡ Err (SeatMissing back)) }
{
    match closing {
        Err(NotClosed::SeatMissing(back)) => Some(back),
        _ => None,
    }
}

/// Closes a hall with one of its two passes, and then with both: the accepted trials and the calls of the first slot,
/// and whether its study is complete.
fn closed_at_last<M: CallLedger, K: CallLedger>(
    alloc: Global,
    hall: Stormy<M, K>,
    first: Pass<M>,
    second: Pass<M>,
) -> Result<Option<(u64, u64, bool)>, Fail>
    requires ledgers { (M.all ≡ M.parts) × (K.all ≡ K.parts) }
    requires first { first.hall ≡ hall.id }
    requires second { second.hall ≡ hall.id }
{
    let mut passes = Vec::new(alloc);
    passes.push(first)?;
    let Some(back) = given_back(hall.close(alloc, passes)) else {
        return Ok(None);
    };
    let (hall, mut passes) = back;
    passes.push(second)?;
    Ok(first_slot(&close_hall(alloc, hall, passes)?))
}

/// The accepted trials and the calls of the first slot, and whether its study is complete.
fn first_slot(report: &Report) -> Option<(u64, u64, bool)> {
    let slot = report.as_slice().first()?;
    Some((slot.accepted(), slot.calls(), slot.complete()))
}

/// Plays a scene in a new hall: whether it goes as its scripts say, and its report is that of the first slot.
fn play_in_hall<M: CallLedger, K: CallLedger, R: Wait>(
    rt: &R,
    alloc: Global,
    scene: &Scene,
    made: Blank,
    kept: Blank,
) -> Result<bool, Fail>
    requires slots { (0 < scene.now.slots) × (scene.now.slots ≤ 64) }
    requires made { (made.name ≡ M.name) × (made.parts ≡ M.parts) × (M.all ≡ M.parts) × (M.all ≡ 2) }
    requires kept { (kept.name ≡ K.name) × (kept.parts ≡ K.parts) × (K.all ≡ K.parts)
        × (K.all ≡ scene.now.slots) × (K.opening ≡ None) × (K.trusts ≡ false) }
{
    let started = Hall::start(alloc, scene.slots, 2, 1, Blanks { made, kept });
    let (hall, mut passes): (Stormy<M, K>, Vec<Pass<M>>) = started?;
    let Some(mut first) = passes.pop() else {
        unreachable!()
    };
    let Some(mut second) = passes.pop() else {
        unreachable!()
    };
    let guest = Guest {
        rt,
        alloc,
        hall: &hall,
    };
    let is_played = guest.play_by_two(&mut first, &mut second, scene);
    let report = closed_at_last(alloc, hall, first, second)?;
    Ok(is_played && report == Some(scene.report))
}

/// Plays a scene in a new hall, if it has 1 to 64 slots, with the blanks of its two ledgers of calls.
fn play_scene<R: Wait>(rt: &R, alloc: Global, scene: &Scene) -> Result<bool, Fail> {
    if scene.slots == 0 || scene.slots > 64 {
        return Ok(false);
    }
    let (made, kept) = (Blank::new(2), Blank::new(u64::from(scene.slots)));
    play_in_hall::<Brand, Brand, R>(rt, alloc, scene, made, kept)
}

/// A scene of one slot in which nothing is done.
const NOTHING: Scene = Scene {
    slots: 1,
    first: &[],
    second: &[],
    last: &[],
    report: (0, 0, false),
};

/// The study has the only slot, whoever submits it, and no other one does. One worker does both pieces, the line comes,
/// and then it is there as often as it is asked for.
const WORKED: Scene = Scene {
    first: &[
        (Step::Own(TWO_TRIALS, Deed::Submit), End::Slot(0)),
        (Step::Own(TWO_TRIALS, Deed::Submit), End::Slot(0)),
        (Step::Own(ONE_LIAR, Deed::Submit), End::NoSlot),
        (Step::Own(TWO_TRIALS, Deed::WorkOff), End::Worked(true)),
        (Step::Own(TWO_TRIALS, Deed::Again(0)), End::NotGiven),
        (Step::Own(TWO_TRIALS, Deed::Wait(0)), End::Line),
        (Step::Own(TWO_TRIALS, Deed::Again(0)), End::Line),
        (Step::Own(TWO_TRIALS, Deed::Again(0)), End::Line),
        (Step::Own(TWO_TRIALS, Deed::Count), End::Counted(2)),
        (Step::Stop, End::Ended),
    ],
    report: (2, 3, true),
    ..NOTHING
};

/// Work in slots that have no study yet: the study that comes later still has all its pieces.
const EARLY: Scene = Scene {
    slots: 2,
    first: &[(Step::Work, End::Worked(true))],
    second: &[(Step::Work, End::Worked(true))],
    last: &[
        (Step::Work, End::Worked(true)),
        (Step::Own(TWO_TRIALS, Deed::WorkOff), End::Worked(true)),
        (Step::Stop, End::Ended),
        (Step::Own(TWO_TRIALS, Deed::Wait(0)), End::Line),
    ],
    report: (2, 3, true),
    ..NOTHING
};

/// A stopped hall without a study has no line for another hall's.
const NO_STUDY: Scene = Scene {
    first: &[
        (Step::Stop, End::Ended),
        (Step::Foreign(TWO_TRIALS, 0, Deed::Wait(0)), End::Mismatch),
        (Step::Foreign(TWO_TRIALS, 0, Deed::Again(0)), End::Mismatch),
    ],
    ..NOTHING
};

/// Nor has one with another study, or with one that began over other slips.
const OTHER_STUDY: Scene = Scene {
    first: &[
        (Step::Own(ONE_LIAR, Deed::WorkOff), End::Worked(true)),
        (Step::Stop, End::Ended),
        (Step::Foreign(TWO_TRIALS, 0, Deed::Wait(0)), End::Mismatch),
        (Step::Foreign(TWO_TRIALS, 0, Deed::Again(0)), End::Mismatch),
    ],
    report: (1, 1, true),
    ..NOTHING
};

const OTHER_SLIPS: Scene = Scene {
    first: &[
        (Step::Own(TWO_TRIALS, Deed::WorkOff), End::Worked(true)),
        (Step::Stop, End::Ended),
        (Step::Foreign(ONE_LIAR, 0, Deed::Wait(0)), End::Mismatch),
        (Step::Foreign(ONE_LIAR, 0, Deed::Again(0)), End::Mismatch),
        (Step::Foreign(TWO_TRIALS, 1, Deed::Wait(0)), End::Mismatch),
        (Step::Foreign(TWO_TRIALS, 1, Deed::Again(0)), End::Mismatch),
    ],
    report: (2, 2, true),
    ..NOTHING
};

/// One with the same study has the line, which is the same when asked for again.
const SAME_STUDY: Scene = Scene {
    first: &[
        (Step::Own(TWO_TRIALS, Deed::WorkOff), End::Worked(true)),
        (Step::Stop, End::Ended),
        (Step::Foreign(TWO_TRIALS, 0, Deed::Wait(0)), End::Line),
        (Step::Foreign(TWO_TRIALS, 0, Deed::Again(0)), End::Line),
    ],
    report: (2, 3, true),
    ..NOTHING
};

/// One that was stopped before the work has no line.
const NO_WORK: Scene = Scene {
    first: &[
        (Step::Own(TWO_TRIALS, Deed::Submit), End::Slot(0)),
        (Step::Stop, End::Ended),
        (Step::Foreign(TWO_TRIALS, 0, Deed::Wait(0)), End::Stopped),
        (Step::Foreign(TWO_TRIALS, 0, Deed::Again(0)), End::NotGiven),
    ],
    ..NOTHING
};

/// Two studies have a slot each, by whose number each has its own line and count; the end of the work is that in both.
const TWO_STUDIES: Scene = Scene {
    slots: 2,
    first: &[
        (Step::Own(TWO_TRIALS, Deed::Submit), End::Slot(0)),
        (Step::Own(ONE_LIAR, Deed::Submit), End::Slot(1)),
        (Step::Own(TWO_TRIALS, Deed::Submit), End::Slot(0)),
        (Step::Own(ONE_LIAR, Deed::Submit), End::Slot(1)),
        (Step::Own(TWO_TRIALS, Deed::Row(0)), End::Line),
        (Step::Own(TWO_TRIALS, Deed::Count), End::Counted(2)),
        (Step::Own(ONE_LIAR, Deed::Count), End::Counted(0)),
    ],
    second: &[
        (Step::Stop, End::Ended),
        (Step::Own(ONE_LIAR, Deed::WorkOff), End::Worked(false)),
        (Step::Own(ONE_LIAR, Deed::Wait(0)), End::Stopped),
    ],
    last: &[(Step::Own(TWO_TRIALS, Deed::Wait(0)), End::Line)],
    report: (2, 4, true),
};

/// Disks that hold the study of another plan, its own with a damaged header, and its own.
const OTHERS: Foul = Foul {
    held: ONE_LIAR,
    is_damaged: false,
};

const DAMAGED: Foul = Foul {
    held: TWO_TRIALS,
    is_damaged: true,
};

const ITS_OWN: Foul = Foul {
    held: TWO_TRIALS,
    is_damaged: false,
};

/// A study whose disk holds another plan's, or is damaged, is refused, and takes no slot: the next one has it.
const FOUL_DISKS: Scene = Scene {
    first: &[
        (Step::Kept(OTHERS, TWO_TRIALS, Deed::Submit), End::Failed),
        (Step::Kept(DAMAGED, TWO_TRIALS, Deed::Submit), End::Failed),
        (Step::Work, End::Worked(true)),
        (Step::Kept(ITS_OWN, TWO_TRIALS, Deed::Submit), End::Slot(0)),
        (Step::Kept(OTHERS, TWO_TRIALS, Deed::Row(0)), End::Line),
    ],
    report: (2, 3, true),
    ..NOTHING
};

/// The scenes, each once.
const SCENES: &[Scene] = &[
    WORKED,
    EARLY,
    TWO_STUDIES,
    FOUL_DISKS,
    NO_STUDY,
    OTHER_STUDY,
    OTHER_SLIPS,
    SAME_STUDY,
    NO_WORK,
];

#[test]
fn halls_do_what_scripts_say(rt: HostRuntime) -> Result<(), Fail> {
    for (number, scene) in SCENES.iter().enumerate() {
        assert!(rt; play_scene(&rt, rt.alloc(), scene)?, "{number}");
    }
    Ok(())
}
