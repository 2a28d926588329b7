//! Conflicts, by the orders in which alerts come.

ghost use Rattle.cut_laws.specs.Conflicts.{
  ConflictsAreSettledTooSoon,
  ReceiversSettleTooSoon,
  ReversesHaveDualWatermarks,
};

/// A proposal lacks a target exactly where, after some number of deliveries, some process is stable, none is
/// unstable, and some target isn't stable. It need not be asked which number is the least, since alerts only add to
/// what is stable. So the share of all orders that end in a conflict is the share that have such a beginning.
pub fn conflicts_are_settled_too_soon()
    ensures sets { ConflictsAreSettledTooSoon }
    ensures trials { ReceiversSettleTooSoon }
{
    cut_draws::laws::edges_come_at_their_first_time();
    cut_detector::laws::more_edges_only_add();
    cut_detector::laws::proposes_at_least_place();
}

/// If each target is reported once on each of K rings, nobody else is, and there are no implicit alerts, an order of
/// the alerts ends in a conflict by H and L exactly if the reverse order does by K + 1 - L and K + 1 - H. So of all
/// orders the two pairs have equal shares of conflicts, as (9, 3) and (8, 2) have for ten rings.
pub fn reverses_have_dual_watermarks()
    ensures { ReversesHaveDualWatermarks }
{
    cut_detector::laws::a_wider_gap_proposes_later();
    conflicts_are_settled_too_soon();
}
