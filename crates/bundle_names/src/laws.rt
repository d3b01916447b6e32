// Laws of the demands on names: each function is proved, and does nothing.
ghost use Rattle.bundle_names.specs.Laws.{FaultIsOfOneList, FaultStandsBehindMetOnes, AcceptedMeetAll};

/// The fault of a bundle's names is the first of one ordered list of demands.
pub fn fault_is_of_one_list()
    ensures { FaultIsOfOneList }
{}

/// It is not met, and all demands before it in the list are.
pub fn fault_stands_behind_met_ones()
    ensures { FaultStandsBehindMetOnes }
{}

/// Where no name is at fault, every demand on names is met.
pub fn accepted_meet_all()
    ensures { AcceptedMeetAll }
{}
