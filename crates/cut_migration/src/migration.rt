ghost use Rattle.std.specs.Prelude.{◌≡◌, ◌↔◌, IsErrOf, IsTrue};
ghost use Rattle.cut_fields.specs.declared.version.Version.TheVariants.{One, Two};
ghost use Rattle.cut_plan.specs.Plan.{IsPlan};
ghost use Rattle.cut_plan.specs.Targets.{upgraded};
ghost use Rattle.cut_plan.specs.Failing.{version_of};
ghost use Rattle.cut_outcome.specs.Sum.{is_piece};
ghost use Rattle.cut_ledger.specs.Slips.{AreGood};
ghost use Rattle.cut_ledger.specs.World.{IsTrueSlip};
ghost use Rattle.cut_migration.specs.Migration.{EndsMigration};
ghost use Rattle.cut_migration.specs.inside.Migration.{MovesOne};

use cut_disks::Disk;
use cut_journal::{Journal, StoreFault, laws};
use cut_ledger::{Ledger, Slip};
use cut_outcome::{PieceResult, Totals};
use cut_plan::{Plan, Version};
use cut_rings::Rings;
use cut_trial::PieceRunner;
use std::alloc::Global;

/// Moves the slips of a study of version 1 to the journal of its plan's upgrade: runs the trials of each slip again for
/// the upgrade, and keeps the result if the numbers that both versions have are those of the slip. Returns the number
/// of slips moved, `slips.len()`.
///
/// It is refused before any write if the plan is not of version 1, then if a slip is one that no ledger begins with,
/// and then if the journal is not that of the upgrade. After that the first slip whose sums are not those of its trials
/// ends it, as do a broken journal, a disk that fails, and memory that is refused: the slips before the present one are
/// kept then, and no later one; if the disk failed the present one may be kept too.
///
/// Each slip is moved by one append. So a crash at any moment leaves the slips that were acknowledged by then, and at
/// most one more.
pub fn migrate<D: Disk>(
    alloc: Global,
    slips: &[Slip],
    plan: &Plan,
    journal: &mut Journal<D>,
) -> Result<u64, StoreFault>
    ensures version { IsErrOf result StoreFault.NotVersion1 ↔ (version_of plan.now.failing ≡ Two) }
    ensures ends { EndsMigration D.log result plan.now slips.now journal.old journal.new }
{
    laws::journals_stay_readable(journal);
    if plan.version() != Version::One {
        return Err(StoreFault::NotVersion1);
    }
    Ledger::from_slips(alloc, plan.try_clone(alloc)?, slips)?;
    let upgrade = plan.upgrade(alloc)?;
    if !journal.plan().same(&upgrade) {
        return Err(StoreFault::OtherPlan);
    }
    let rings = Rings::hashed(alloc, &upgrade)?;
    let runner = PieceRunner {
        alloc,
        plan: &upgrade,
        rings: &rings,
    };
    move_slips(slips, Target { plan, runner }, journal)
}

/// A plan of version 1, and what runs pieces of its upgrade.
#[derive(Clone, Copy)]
struct Target<'p, 'u> {
    plan: &'p Plan,
    runner: PieceRunner<'u>,
    ghost accepted: { IsPlan plan.now },
    ghost version: { version_of plan.now.failing ≡ One },
    ghost upgrade_of: { runner.plan.now ≡ upgraded plan.now },
}

/// Moves slips one after another.
fn move_slips<D: Disk>(
    slips: &[Slip],
    target: Target<'_, '_>,
    journal: &mut Journal<D>,
) -> Result<u64, StoreFault>
    requires good { AreGood target.plan.now slips.now }
    requires plan { journal.old.plan ≡ upgraded target.plan.now }
    ensures ends { EndsMigration D.log result target.entry.plan.now slips.now journal.old journal.new }
    ensures version { IsErrOf result StoreFault.NotVersion1 → ⊥ }
{
    laws::journals_stay_readable(journal);
    let mut count = 0;
    for slip in slips {
        move_slip(slip, count + 1, target, journal)?;
        count += 1;
    }
    Ok(count)
}

/// Moves a slip, which has this number.
fn move_slip<D: Disk>(
    slip: &Slip,
    number: u64,
    target: Target<'_, '_>,
    journal: &mut Journal<D>,
) -> Result<(), StoreFault>
    requires piece { IsTrue (is_piece target.plan.now slip.now.piece) }
    requires plan { journal.old.plan ≡ upgraded target.plan.now }
    ensures { MovesOne D.log result target.entry.plan.now number slip.now journal.old journal.new }
{
    laws::journals_stay_readable(journal);
    let Some(result) = target.runner.run(slip.piece) else {
        return Err(StoreFault::Memory);
    };
    if !is_true(slip, &result, target) {
        return Err(StoreFault::Disagrees(number));
    }
    journal.add(&result)
}

/// Whether a slip of a plan of version 1 has the sums that its trials give, which are those of the upgrade
/// but for `settled`, as the result for the upgrade has them.
fn is_true(slip: &Slip, found: &PieceResult, target: Target<'_, '_>) -> bool
    requires piece { IsTrue (is_piece target.plan.now slip.now.piece) }
    requires found { found.now ≡ record { plan = target.runner.plan.now; piece = slip.now.piece } }
    ensures { IsTrue result ↔ IsTrueSlip target.entry.plan.now slip.now }
{
    cut_outcome::laws::pieces_have_possible_totals();
    cut_outcome::laws::upgrades_keep_outcomes();
    let unshown = Totals {
        settled: 0,
        ..found.totals()
    };
    are_same(unshown, slip.totals)
}

/// Whether two sums are the same, number by number.
fn are_same(one: Totals, other: Totals) -> bool
    ensures { IsTrue result ↔ (one ≡ other) }
{
    one == other
}
