ghost use Rattle.std.specs.Prelude.{◌≡◌, ◌++◌};
ghost use Rattle.mu_values.specs.Rooms.{HasRoomFor};
ghost use Rattle.frames.specs.Chains.{stands};
ghost use Rattle.frames.specs.FrameOf.{frame_of};

use mu_base::{Ids, Types};
use mu_values::{Passed, Slots};

/// An exceptional destination: a block, by number, with the values of its arguments.
#[derive(Drop)]
pub struct Handler {
    pub block: u32,
    pub args: Slots,
}

/// What a function has come to that was entered and did not return yet. Blocks are counted over the bundle, instructions within
/// their block, both from 0.
#[derive(Drop)]
pub struct Frame {
    /// The block that it stands in.
    pub block: u32,
    /// The instruction that it stands at.
    pub at: u32,
    /// The values of the block's variables so far, by number.
    pub slots: Slots,
    /// Whether it waits for its parameters, before its first instruction.
    pub fresh: bool,
    /// The classes of the types of the values that it waits for.
    pub waits: Types,
    /// Where an exception goes that comes while it waits.
    pub handler: Option<Handler>,
    /// What a client sees of it while it waits.
    pub kept: Passed,
    /// The objects that end with it.
    pub cells: Ids,
}

impl Frame {
    /// It goes to that place of its block, with its variables as they are, and waits for nothing then; its objects stay.
    pub fn stand_at(&mut self, at: u32)
        ensures { frame_of self.new ≡ stands (frame_of self.old) self.old.block at self.old.slots.values }
    {
        self.at = at;
        self.fresh = false;
        self.waits.clear();
        self.handler = None;
        self.kept.clear();
    }

    /// The same, with these results behind its variables. Its list must have room for them.
    pub fn stand_behind(&mut self, at: u32, results: &Slots)
        requires { HasRoomFor self.old.slots results.now.values }
        ensures { frame_of self.new ≡ stands (frame_of self.old) self.old.block at (self.old.slots.values ++ results.now.values) }
    {
        self.slots.append_reserved(results);
        self.stand_at(at);
    }
}
