//! Words that stand for something by themselves.
ghost use Rattle.std.specs.Prelude.{◌≡◌, false};
ghost use Rattle.text_forms.specs.Tokens.{is_last};
ghost use Rattle.text_forms.specs.Forms.{made};
ghost use Rattle.text_forms.specs.Reading.{read};
ghost use Rattle.text_forms.specs.Answers.{Gives};
ghost use Rattle.ir_lex.specs.TokenForms.{mark};
ghost use Rattle.ir_tree.specs.Words.{one_of, binary_words, compare_words, convert_words, update_words, order_words, order};

use ir_lex::Cursor;
use ir_tree::WrittenOrder;
use mu_base::{BinaryOp, CompareOp, ConvertOp, Order, UpdateOp};
use text_forms::{ReadError, Symbol};

/// The word, and what it stands for.
fn word<T: Drop>(cursor: &mut Cursor, symbol: Symbol, meaning: T) -> Result<(usize, T), ReadError>
    requires { is_last symbol ≡ false }
    ensures { Gives result cursor.new (read (made (λ place. (place, meaning)) (mark symbol)) cursor.old) }
{
    let place = cursor.mark(symbol)?;
    Ok((place, meaning))
}

/// `ADD`, `SUB` and the like
pub fn binary_op(cursor: &mut Cursor) -> Result<(usize, BinaryOp), ReadError>
    ensures { Gives result cursor.new (read (one_of binary_words) cursor.old) }
{
    match cursor.symbol() {
        Symbol::Add => word(cursor, Symbol::Add, BinaryOp::Add),
        Symbol::Sub => word(cursor, Symbol::Sub, BinaryOp::Sub),
        Symbol::Mul => word(cursor, Symbol::Mul, BinaryOp::Mul),
        Symbol::Sdiv => word(cursor, Symbol::Sdiv, BinaryOp::Sdiv),
        Symbol::Srem => word(cursor, Symbol::Srem, BinaryOp::Srem),
        Symbol::Udiv => word(cursor, Symbol::Udiv, BinaryOp::Udiv),
        Symbol::Urem => word(cursor, Symbol::Urem, BinaryOp::Urem),
        Symbol::Shl => word(cursor, Symbol::Shl, BinaryOp::Shl),
        Symbol::Lshr => word(cursor, Symbol::Lshr, BinaryOp::Lshr),
        Symbol::Ashr => word(cursor, Symbol::Ashr, BinaryOp::Ashr),
        Symbol::And => word(cursor, Symbol::And, BinaryOp::And),
        Symbol::Or => word(cursor, Symbol::Or, BinaryOp::Or),
        Symbol::Xor => word(cursor, Symbol::Xor, BinaryOp::Xor),
        _ => Err(ReadError::Fault(cursor.fault())),
    }
}

/// `EQ`, `NE` and the like
pub fn compare_op(cursor: &mut Cursor) -> Result<(usize, CompareOp), ReadError>
    ensures { Gives result cursor.new (read (one_of compare_words) cursor.old) }
{
    match cursor.symbol() {
        Symbol::Eq => word(cursor, Symbol::Eq, CompareOp::Eq),
        Symbol::Ne => word(cursor, Symbol::Ne, CompareOp::Ne),
        Symbol::Slt => word(cursor, Symbol::Slt, CompareOp::Slt),
        Symbol::Sle => word(cursor, Symbol::Sle, CompareOp::Sle),
        Symbol::Sgt => word(cursor, Symbol::Sgt, CompareOp::Sgt),
        Symbol::Sge => word(cursor, Symbol::Sge, CompareOp::Sge),
        Symbol::Ult => word(cursor, Symbol::Ult, CompareOp::Ult),
        Symbol::Ule => word(cursor, Symbol::Ule, CompareOp::Ule),
        Symbol::Ugt => word(cursor, Symbol::Ugt, CompareOp::Ugt),
        Symbol::Uge => word(cursor, Symbol::Uge, CompareOp::Uge),
        _ => Err(ReadError::Fault(cursor.fault())),
    }
}

/// `TRUNC`, `ZEXT` or `SEXT`
pub fn convert_op(cursor: &mut Cursor) -> Result<(usize, ConvertOp), ReadError>
    ensures { Gives result cursor.new (read (one_of convert_words) cursor.old) }
{
    match cursor.symbol() {
        Symbol::Trunc => word(cursor, Symbol::Trunc, ConvertOp::Trunc),
        Symbol::Zext => word(cursor, Symbol::Zext, ConvertOp::Zext),
        Symbol::Sext => word(cursor, Symbol::Sext, ConvertOp::Sext),
        _ => Err(ReadError::Fault(cursor.fault())),
    }
}

/// `XCHG`, `ADD` and the like
pub fn update_op(cursor: &mut Cursor) -> Result<(usize, UpdateOp), ReadError>
    ensures { Gives result cursor.new (read (one_of update_words) cursor.old) }
{
    match cursor.symbol() {
        Symbol::Xchg => word(cursor, Symbol::Xchg, UpdateOp::Xchg),
        Symbol::Add => word(cursor, Symbol::Add, UpdateOp::Add),
        Symbol::Sub => word(cursor, Symbol::Sub, UpdateOp::Sub),
        Symbol::And => word(cursor, Symbol::And, UpdateOp::And),
        Symbol::Nand => word(cursor, Symbol::Nand, UpdateOp::Nand),
        Symbol::Or => word(cursor, Symbol::Or, UpdateOp::Or),
        Symbol::Xor => word(cursor, Symbol::Xor, UpdateOp::Xor),
        Symbol::Max => word(cursor, Symbol::Max, UpdateOp::Max),
        Symbol::Min => word(cursor, Symbol::Min, UpdateOp::Min),
        Symbol::Umax => word(cursor, Symbol::Umax, UpdateOp::Umax),
        Symbol::Umin => word(cursor, Symbol::Umin, UpdateOp::Umin),
        _ => Err(ReadError::Fault(cursor.fault())),
    }
}

/// `NOT_ATOMIC`, `RELAXED` and the like
pub fn memory_order(cursor: &mut Cursor) -> Result<(usize, Order), ReadError>
    ensures { Gives result cursor.new (read (one_of order_words) cursor.old) }
{
    match cursor.symbol() {
        Symbol::NotAtomic => word(cursor, Symbol::NotAtomic, Order::NotAtomic),
        Symbol::Relaxed => word(cursor, Symbol::Relaxed, Order::Relaxed),
        Symbol::Consume => word(cursor, Symbol::Consume, Order::Consume),
        Symbol::Acquire => word(cursor, Symbol::Acquire, Order::Acquire),
        Symbol::Release => word(cursor, Symbol::Release, Order::Release),
        Symbol::AcqRel => word(cursor, Symbol::AcqRel, Order::AcqRel),
        Symbol::SeqCst => word(cursor, Symbol::SeqCst, Order::SeqCst),
        _ => Err(ReadError::Fault(cursor.fault())),
    }
}

/// ord
#[tactic(auto, unfolding(ir_tree::specs::Words::order))]
pub fn order(cursor: &mut Cursor) -> Result<WrittenOrder, ReadError>
    ensures { Gives result cursor.new (read order cursor.old) }
{
    let (place, order) = memory_order(cursor)?;
    Ok(WrittenOrder { place, order })
}
