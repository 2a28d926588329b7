ghost use Rattle.cut_session.specs.Own.{TrustedRepliesAreOwn};

/// A client of a hall whose studies begin with true slips reads the frames of its plan's own table, line by line
/// as the definitions give it trial by trial: all of them, or the first ones and then a fault, or a fault alone.
///
/// A hall is such a one where its shelf keeps nothing, without any premise. Over a shelf that keeps studies it is
/// one if it is known what is on its disks and the slips on each of them are true; of files of the system neither is known.
pub fn trusted_replies_are_own()
    ensures { TrustedRepliesAreOwn }
{
    cut_plan::laws::accepted_texts_give_plans();
    cut_ledger::laws::true_slips_give_the_table();
}
