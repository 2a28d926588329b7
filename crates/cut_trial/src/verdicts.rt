ghost use Rattle.std.specs.Prelude.{◌≡◌, ◌<◌, length, count_by};
ghost use Rattle.std.specs.Option.{option_copied};
ghost use Rattle.cut_alerts.specs.Assignment.{is_target};
ghost use Rattle.cut_outcome.specs.Verdicts.{targets_of, judged, is_missed, lacks_target, has_other, AreAscending};
ghost use Rattle.cut_detector.specs.declared.proposal.Proposal as proposals;

use cut_alerts::Roles;
use cut_detector::Proposal;
use cut_outcome::Verdict;

/// The verdict on a receiver that announced nothing.
pub(crate) const SILENT: Verdict = Verdict {
    silent: true,
    conflict: false,
    extra: false,
};

/// The verdict on a receiver that announced exactly the targets.
pub(crate) const EXACT: Verdict = Verdict {
    silent: false,
    conflict: false,
    extra: false,
};

/// Judges a receiver's proposal, if it made one, by the trial's roles: a conflict lacks a target (the Rapid paper's
/// sensitivity study), and an extra one has a process that is not a target (this project's profile). It may be both.
/// The members may be any, in any order.
pub fn verdict(proposal: Option<&Proposal>, roles: &Roles) -> Verdict
    ensures { result ≡ judged roles.now (option_copied proposal.entry) }
{
    match proposal {
        None => SILENT,
        Some(found) => Verdict {
            silent: false,
            conflict: lacks_target(found.members.as_slice(), roles),
            extra: has_other(found.members.as_slice(), roles),
        },
    }
}

/// The verdict on a proposal of ascending members, where there are this many targets. It looks at each
/// member once: all targets are among them where as many members are targets as there are targets.
pub(crate) fn verdict_on_ascending(members: &[u16], roles: &Roles, targets: usize) -> Verdict
    requires ascending { AreAscending roles.now members.now }
    requires targets { targets ≡ length (targets_of roles.now) }
    ensures { (p : proposals.Proposal) → p.members ≡ members.now → result ≡ judged roles.now (Some p) }
{
    let found = targets_among(members, roles);
    Verdict {
        silent: false,
        conflict: found < targets,
        extra: found < members.len(),
    }
}

/// How many of the members are targets.
fn targets_among(members: &[u16], roles: &Roles) -> usize
    ensures { result ≡ count_by (λ p. is_target roles.now p) members.now }
{
    members.iter().filter(|m| is_target(**m, roles)).count()
}

/// Whether some target is not among the members.
fn lacks_target(members: &[u16], roles: &Roles) -> bool
    ensures { result ≡ lacks_target roles.now members.now }
{
    (0..roles.nodes()).any(|process| is_missed(process, members, roles))
}

/// Whether a process is a target that is not among the members.
fn is_missed(process: u16, members: &[u16], roles: &Roles) -> bool
    ensures { result ≡ is_missed roles.now members.now process }
{
    is_target(process, roles) && !members.contains(&process)
}

/// Whether some member is no target.
fn has_other(members: &[u16], roles: &Roles) -> bool
    ensures { result ≡ has_other roles.now members.now }
{
    members.iter().any(|m| !is_target(*m, roles))
}

/// Whether a number is that of a target; numbers past the last process are not.
fn is_target(process: u16, roles: &Roles) -> bool
    ensures { result ≡ is_target roles.now process }
{
    process < roles.nodes() && roles.is_target(process)
}
