// Laws of demands: each function is proved, and does nothing.
ghost use Rattle.demands.specs.Laws.{FirstIsOfTheList, MetWhereNoneIsFirst, UnmetStandsBehindMetOnes, KindsAreCarried};

/// The first unmet of some demands is the first in their list that is not met.
pub fn first_is_of_the_list<K>()
    ensures { FirstIsOfTheList K }
{}

/// Where no demand is the first unmet, every demand is met.
pub fn met_where_none_is_first<K>()
    ensures { MetWhereNoneIsFirst K }
{}

/// The first unmet demand is not met, and all demands before it in the list are met.
pub fn unmet_stands_behind_met_ones<K>()
    ensures { UnmetStandsBehindMetOnes K }
{}

/// Demands whose faults are carried over to other kinds have the same first fault, of the other kind.
pub fn kinds_are_carried<K, L>()
    ensures { KindsAreCarried K L }
{}
