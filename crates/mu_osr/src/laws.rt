// Laws of edits: each function is proved, and does nothing.
ghost use Rattle.mu_osr.specs.Laws.{PoppedFramesFit, PushedFramesFit, PopsAsAbstract, PushesAsAbstract};

/// A pop leaves the frames of a ready stack well typed, and so does the push of a function of a well-typed program, which has a frame or a
/// case always.
pub fn edits_keep_frames_well_typed()
    ensures popped { PoppedFramesFit }
    ensures pushed { PushedFramesFit }
{}

/// What `pop_to` and `push` do to the frames is what the abstract machine's pop and push do, and what they refuse is its case.
pub fn edits_are_abstract_edits()
    ensures pops { PopsAsAbstract }
    ensures pushes { PushesAsAbstract }
{}
