//! The body of a function.
ghost use Rattle.std.specs.Prelude.{◌≡◌, OnOk, IfOk, suc, nat_le, length};
ghost use Rattle.text_forms.specs.Reading.{read};
ghost use Rattle.text_forms.specs.Answers.{Gives, kept};
ghost use Rattle.ir_tree.specs.Instructions.{leaves_out};
ghost use Rattle.ir_tree.specs.Bodies.{body, body_rest, blocks_of};
ghost use Rattle.ir_text.specs.BodiesSoFar.{begun, followed, blocks_so_far};

use crate::blocks::head;
use crate::lines::line;
use ir_lex::Cursor;
use ir_tree::{Block, BlockHead, CommonInst, Inst, Line, Op};
use std::alloc::{AllocError, Global};
use std::mem;
use text_forms::{Listing, ReadError, Symbol};

/// How many instructions a block may have.
const INST_LIMIT: usize = 4096;

/// How many blocks a function may have.
const BLOCK_LIMIT: usize = 4096;

/// What is read of a body: the blocks that are whole, the one that lines are still read of, and whether `( )` may still belong
/// to its last instruction.
#[derive(Drop)]
struct BodySoFar {
    whole: Listing<Block>,
    head: BlockHead,
    insts: Listing<Inst>,
    open_list: bool,
}

/// Whether the list of values of an instruction may be left out.
fn leaves_out(op: &Op) -> bool
    ensures { result ≡ leaves_out op.now }
{
    matches!(
        op,
        Op::Common(CommonInst::ThreadExit | CommonInst::CurrentStack | CommonInst::GetThreadlocal)
    )
}

impl BodySoFar {
    /// The head of the first block.
    fn new(alloc: Global, head: BlockHead) -> BodySoFar
        ensures { result ≡ begun head }
    {
        BodySoFar {
            whole: Listing::new(alloc),
            head,
            insts: Listing::new(alloc),
            open_list: false,
        }
    }

    /// Whether the block has all the instructions that it may have.
    fn is_full(&self) -> bool
        ensures { result ≡ nat_le 4096 (length self.now.insts) }
    {
        self.insts.len() >= INST_LIMIT
    }

    /// Whether the function has all the blocks that it may have.
    fn is_crowded(&self) -> bool
        ensures { result ≡ nat_le 4096 (suc (length self.now.whole)) }
    {
        self.whole.len() >= BLOCK_LIMIT - 1
    }

    /// Adds what the line says. After a refusal because it is out of memory lines are lost.
    fn add(&mut self, alloc: Global, line: Line) -> Result<(), AllocError>
        ensures { OnOk result (self.new ≡ followed self.old line) }
    {
        match line {
            Line::Inst(inst) => {
                self.open_list = leaves_out(&inst.op);
                self.insts.push(inst)?;
            }
            Line::Head(next) => {
                let head = mem::replace(&mut self.head, next);
                let insts = mem::replace(&mut self.insts, Listing::new(alloc));
                self.whole.push(Block { head, insts })?;
                self.open_list = false;
            }
            Line::EmptyList => self.open_list = false,
        }
        Ok(())
    }

    /// All blocks, where no more lines follow.
    fn blocks(self) -> Result<Listing<Block>, AllocError>
        ensures { IfOk result (λ blocks. blocks ≡ blocks_so_far self) }
    {
        let mut blocks = self.whole;
        blocks.push(Block {
            head: self.head,
            insts: self.insts,
        })?;
        Ok(blocks)
    }
}

/// The lines behind the first head, up to `}`, as blocks.
#[tactic(auto, using(ir_lex::specs::Lemmas::Cursors::one_goes_on))]
fn body_rest(
    cursor: &mut Cursor,
    alloc: Global,
    head: BlockHead,
) -> Result<Listing<Block>, ReadError>
    ensures { Gives result cursor.new (kept (λ x. blocks_of head x.0) (read body_rest cursor.old)) }
{
    let mut body = BodySoFar::new(alloc, head);
    'each: while !cursor.at(Symbol::BraceClose) {
        let line = line(
            cursor,
            alloc,
            body.is_full(),
            body.is_crowded(),
            body.open_list,
        )?;
        body.add(alloc, line)?;
    }
    cursor.bump();
    let blocks = body.blocks()?;
    Ok(blocks)
}

/// `{ block block* }`
#[tactic(auto, unfolding(ir_tree::specs::Bodies::body))]
pub fn body(cursor: &mut Cursor, alloc: Global) -> Result<Listing<Block>, ReadError>
    ensures { Gives result cursor.new (read body cursor.old) }
{
    cursor.mark(Symbol::BraceOpen)?;
    let head = head(cursor, alloc)?;
    let blocks = body_rest(cursor, alloc, head)?;
    Ok(blocks)
}
