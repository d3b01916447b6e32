// How operations and memory orders are spelled.
ghost use Rattle.std.specs.Prelude.{◌≡◌};
ghost use Rattle.ir_print.specs.Operators.{binary_text, compare_text, convert_text, update_text, order_text};

use crate::spellings::spelling;
use mu_base::{BinaryOp, CompareOp, ConvertOp, Order, UpdateOp};
use text_forms::Symbol;

pub fn binary(op: BinaryOp) -> &'static [u8]
    ensures { result.now ≡ binary_text op }
{
    match op {
        BinaryOp::Add => spelling(Symbol::Add),
        BinaryOp::Sub => spelling(Symbol::Sub),
        BinaryOp::Mul => spelling(Symbol::Mul),
        BinaryOp::Sdiv => spelling(Symbol::Sdiv),
        BinaryOp::Srem => spelling(Symbol::Srem),
        BinaryOp::Udiv => spelling(Symbol::Udiv),
        BinaryOp::Urem => spelling(Symbol::Urem),
        BinaryOp::Shl => spelling(Symbol::Shl),
        BinaryOp::Lshr => spelling(Symbol::Lshr),
        BinaryOp::Ashr => spelling(Symbol::Ashr),
        BinaryOp::And => spelling(Symbol::And),
        BinaryOp::Or => spelling(Symbol::Or),
        BinaryOp::Xor => spelling(Symbol::Xor),
    }
}

pub fn compare(op: CompareOp) -> &'static [u8]
    ensures { result.now ≡ compare_text op }
{
    match op {
        CompareOp::Eq => spelling(Symbol::Eq),
        CompareOp::Ne => spelling(Symbol::Ne),
        CompareOp::Slt => spelling(Symbol::Slt),
        CompareOp::Sle => spelling(Symbol::Sle),
        CompareOp::Sgt => spelling(Symbol::Sgt),
        CompareOp::Sge => spelling(Symbol::Sge),
        CompareOp::Ult => spelling(Symbol::Ult),
        CompareOp::Ule => spelling(Symbol::Ule),
        CompareOp::Ugt => spelling(Symbol::Ugt),
        CompareOp::Uge => spelling(Symbol::Uge),
    }
}

pub fn convert(op: ConvertOp) -> &'static [u8]
    ensures { result.now ≡ convert_text op }
{
    match op {
        ConvertOp::Trunc => spelling(Symbol::Trunc),
        ConvertOp::Zext => spelling(Symbol::Zext),
        ConvertOp::Sext => spelling(Symbol::Sext),
    }
}

pub fn update(op: UpdateOp) -> &'static [u8]
    ensures { result.now ≡ update_text op }
{
    match op {
        UpdateOp::Xchg => spelling(Symbol::Xchg),
        UpdateOp::Add => spelling(Symbol::Add),
        UpdateOp::Sub => spelling(Symbol::Sub),
        UpdateOp::And => spelling(Symbol::And),
        UpdateOp::Nand => spelling(Symbol::Nand),
        UpdateOp::Or => spelling(Symbol::Or),
        UpdateOp::Xor => spelling(Symbol::Xor),
        UpdateOp::Max => spelling(Symbol::Max),
        UpdateOp::Min => spelling(Symbol::Min),
        UpdateOp::Umax => spelling(Symbol::Umax),
        UpdateOp::Umin => spelling(Symbol::Umin),
    }
}

pub fn order(order: Order) -> &'static [u8]
    ensures { result.now ≡ order_text order }
{
    match order {
        Order::NotAtomic => spelling(Symbol::NotAtomic),
        Order::Relaxed => spelling(Symbol::Relaxed),
        Order::Consume => spelling(Symbol::Consume),
        Order::Acquire => spelling(Symbol::Acquire),
        Order::Release => spelling(Symbol::Release),
        Order::AcqRel => spelling(Symbol::AcqRel),
        Order::SeqCst => spelling(Symbol::SeqCst),
    }
}
