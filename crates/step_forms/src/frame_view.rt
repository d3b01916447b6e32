// What a frame shows of the instruction that it stands at.
use crate::variables::Variables;

/// The place of an instruction, and the variables of its block.
#[derive(Clone, Copy)]
pub struct FrameView<'a> {
    /// The number of the block.
    pub block: u32,
    /// The number of the instruction in the block.
    pub at: u32,
    /// The classes of the block's variables.
    pub types: &'a [u32],
    /// Their values.
    pub vars: &'a Variables<'a>,
}
