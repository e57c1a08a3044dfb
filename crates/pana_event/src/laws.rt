//! Laws of events, for the proofs of those who keep them: each function ensures one, and does nothing.
ghost use Rattle.pana_event.specs.laws.Events.{AgreeingAreSame, BelowEachOtherAreSame, BelowIsTested, GreatestIsAttained, JoinAddsNoLevel, JoinHasGreaterLevels, JoinHasNoOrder, JoinIsOne, JoinKeepsLimits, LeastIsAttained, NormIsNormal, NormKeepsLevels};

/// Two normal events of depth at most 256 that agree at all points are one tree.
pub fn agreeing_are_same()
    ensures { AgreeingAreSame }
{}

/// Two normal events of depth at most 256 that are each below the other are one tree.
pub fn below_each_other_are_same()
    ensures { BelowEachOtherAreSame }
{}

/// Whether one event is below another that is normal, both of depth at most 256, is what the test says.
pub fn below_is_tested()
    ensures { BelowIsTested }
{}

/// The join of two events of depth at most 256 has the greater level at every point.
pub fn join_has_greater_levels()
    ensures { JoinHasGreaterLevels }
{}

/// The order of two events doesn't matter to their join.
pub fn join_has_no_order()
    ensures { JoinHasNoOrder }
{}

/// The greatest level of a join is the greater of both.
pub fn join_adds_no_level()
    ensures { JoinAddsNoLevel }
{}

/// The join of two events that are normal and within the limits is so too.
pub fn join_keeps_limits()
    ensures { JoinKeepsLimits }
{}

/// A normal event with the greater level at every point is the join, where all are normal and of depth at most 256.
pub fn join_is_one()
    ensures { JoinIsOne }
{}

/// The least level is that of some point, and for a normal event the own number of its root.
pub fn least_is_attained()
    ensures { LeastIsAttained }
{}

/// The greatest level is that of some point.
pub fn greatest_is_attained()
    ensures { GreatestIsAttained }
{}

/// The normal form of a number over two normal halves is normal.
pub fn norm_is_normal()
    ensures { NormIsNormal }
{}

/// The normal form of a number over two halves has the levels of their fork.
pub fn norm_keeps_levels()
    ensures { NormKeepsLevels }
{}
