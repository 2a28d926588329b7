//! Laws of the roles that trials draw. Each function does nothing, and its contract is the law.

ghost use Rattle.cut_alerts.specs.Laws.{
  AsManyDeafDrawAlike,
  NoneDeafDrawsCrashes,
  AllDeafDrawsDeaf,
  OneMoreDeafTurnsOne,
};

/// How targets fail changes the roles of a trial, and so its alerts, only by how many of its targets
/// are deaf. With no deaf target they are those of crashes; with as many deaf targets as targets, or
/// more, those of deaf targets alone.
pub fn as_many_deaf_draw_alike()
    ensures alike { AsManyDeafDrawAlike }
    ensures none { NoneDeafDrawsCrashes }
    ensures all { AllDeafDrawsDeaf }
{}

/// One more deaf target changes the role of at most one process of a trial: the crashed one of the highest rank becomes
/// deaf.
pub fn one_more_deaf_turns_one()
    ensures { OneMoreDeafTurnsOne }
{}
