//! Two plans that differ in H alone, or in L alone, trial by trial.

ghost use Rattle.cut_laws.specs.OtherWatermarks.{AHigherHWaitsLonger, ALowerLWaitsLonger, LongerWaitsAddUp};

/// Two plans that differ in their one H alone have the same trials. With the higher H each receiver waits longer: no
/// fewer are silent, no more are a conflict, and who proposes does so no sooner, of no fewer processes. So in each
/// line of the two tables conflicts only fall and silences only grow.
pub fn a_higher_h_waits_longer()
    ensures { AHigherHWaitsLonger }
{
    cut_detector::laws::a_wider_gap_proposes_later();
    cut_draws::laws::edges_come_at_their_first_time();
    cut_outcome::laws::higher_h();
    cut_detector::laws::proposes_at_least_place();
}

/// Without implicit alerts the same holds of two plans that differ in their one L alone, with the lower L.
pub fn a_lower_l_waits_longer()
    ensures { ALowerLWaitsLonger }
{
    cut_detector::laws::a_wider_gap_proposes_later();
    cut_draws::laws::edges_come_at_their_first_time();
    cut_detector::laws::proposes_at_least_place();
    cut_outcome::laws::wider_gap();
}

/// Where receivers wait longer by a second plan than by a first, and by a third than by the second, they wait longer
/// by the third than by the first. So without implicit alerts the gap can be widened at both ends.
pub fn longer_waits_add_up()
    ensures { LongerWaitsAddUp }
{}
