// What holds of the objects over each step.
ghost use Rattle.object_laws.specs.Leaves.{StepsKeepLeaves, CastsStayGood};

/// A step keeps the leaves of each object that is there, whatever the client answers: it adds objects, and cells die. So a reference that
/// can be cast to a class can be cast to it after each later step.
pub fn steps_keep_leaves()
    ensures leaves { StepsKeepLeaves }
    ensures casts { CastsStayGood }
{}
