ghost use Rattle.std.specs.Prelude.{◌≡◌, Some, slice_get, IfOk, IsTrue};
ghost use Rattle.type_definitions.specs.declared.definition.TypeDef.TheVariants as types;
ghost use Rattle.mu_values.specs.declared.literals.LiteralKind.TheVariants as literals;
ghost use Rattle.mu_values.specs.Integers.{IsInteger};

use mu_base::{BinaryOp, CompareOp, ConvertOp, Types, UpdateOp};
use mu_types::{Classes, TypeDef, TypeFault};
use mu_values::{
    ConstFault, ConstKind, Literal, LiteralKind, Made, Passed, Scalar, Slots, Value, binary,
    compare, convert, judge_const, make_const, updated,
};
use std::alloc::{AllocError, Global};
use std::process::Abort;
use std::test::Fail;
use text_forms::Listing;
use type_classes::{TypeGraph, classes};

fn is_integer(width: u32, n: u128) -> bool
    ensures { IsTrue result → IsInteger width n }
{
    1 <= width && width <= 128 && (width == 128 || n < 1 << width)
}

/// An operation on two integers of a width, and what it makes of them.
type Row = (BinaryOp, u32, u128, u128, Option<u128>);

const ROWS: [Row; 82] = [
    (BinaryOp::Add, 8, 255, 1, Some(0)),
    (BinaryOp::Add, 8, 127, 1, Some(128)),
    (BinaryOp::Add, 8, 128, 128, Some(0)),
    (BinaryOp::Add, 64, 18446744073709551615, 1, Some(0)),
    (
        BinaryOp::Add,
        64,
        9223372036854775807,
        1,
        Some(9223372036854775808),
    ),
    (
        BinaryOp::Add,
        64,
        9223372036854775808,
        9223372036854775808,
        Some(0),
    ),
    (BinaryOp::Sub, 8, 0, 1, Some(255)),
    (BinaryOp::Sub, 8, 128, 1, Some(127)),
    (BinaryOp::Sub, 8, 0, 128, Some(128)),
    (BinaryOp::Sub, 64, 0, 1, Some(18446744073709551615)),
    (
        BinaryOp::Sub,
        64,
        9223372036854775808,
        1,
        Some(9223372036854775807),
    ),
    (
        BinaryOp::Sub,
        64,
        0,
        9223372036854775808,
        Some(9223372036854775808),
    ),
    (BinaryOp::Mul, 8, 255, 255, Some(1)),
    (BinaryOp::Mul, 8, 128, 2, Some(0)),
    (BinaryOp::Mul, 8, 127, 127, Some(1)),
    (
        BinaryOp::Mul,
        64,
        18446744073709551615,
        18446744073709551615,
        Some(1),
    ),
    (BinaryOp::Mul, 64, 9223372036854775808, 2, Some(0)),
    (
        BinaryOp::Mul,
        64,
        9223372036854775807,
        9223372036854775807,
        Some(1),
    ),
    (BinaryOp::Sdiv, 8, 128, 255, Some(128)),
    (BinaryOp::Sdiv, 8, 128, 1, Some(128)),
    (BinaryOp::Sdiv, 8, 249, 2, Some(253)),
    (
        BinaryOp::Sdiv,
        64,
        9223372036854775808,
        18446744073709551615,
        Some(9223372036854775808),
    ),
    (
        BinaryOp::Sdiv,
        64,
        9223372036854775808,
        1,
        Some(9223372036854775808),
    ),
    (
        BinaryOp::Sdiv,
        64,
        18446744073709551609,
        2,
        Some(18446744073709551613),
    ),
    (BinaryOp::Srem, 8, 128, 255, Some(0)),
    (BinaryOp::Srem, 8, 249, 2, Some(255)),
    (BinaryOp::Srem, 8, 7, 254, Some(1)),
    (
        BinaryOp::Srem,
        64,
        9223372036854775808,
        18446744073709551615,
        Some(0),
    ),
    (
        BinaryOp::Srem,
        64,
        18446744073709551609,
        2,
        Some(18446744073709551615),
    ),
    (BinaryOp::Srem, 64, 7, 18446744073709551614, Some(1)),
    (BinaryOp::Udiv, 8, 255, 2, Some(127)),
    (BinaryOp::Udiv, 8, 128, 255, Some(0)),
    (BinaryOp::Udiv, 8, 255, 128, Some(1)),
    (
        BinaryOp::Udiv,
        64,
        18446744073709551615,
        2,
        Some(9223372036854775807),
    ),
    (
        BinaryOp::Udiv,
        64,
        9223372036854775808,
        18446744073709551615,
        Some(0),
    ),
    (
        BinaryOp::Udiv,
        64,
        18446744073709551615,
        9223372036854775808,
        Some(1),
    ),
    (BinaryOp::Urem, 8, 255, 2, Some(1)),
    (BinaryOp::Urem, 8, 128, 255, Some(128)),
    (BinaryOp::Urem, 8, 255, 128, Some(127)),
    (BinaryOp::Urem, 64, 18446744073709551615, 2, Some(1)),
    (
        BinaryOp::Urem,
        64,
        9223372036854775808,
        18446744073709551615,
        Some(9223372036854775808),
    ),
    (
        BinaryOp::Urem,
        64,
        18446744073709551615,
        9223372036854775808,
        Some(9223372036854775807),
    ),
    (BinaryOp::Shl, 8, 255, 8, Some(255)),
    (BinaryOp::Shl, 8, 1, 7, Some(128)),
    (BinaryOp::Shl, 8, 255, 9, Some(254)),
    (
        BinaryOp::Shl,
        64,
        18446744073709551615,
        64,
        Some(18446744073709551615),
    ),
    (BinaryOp::Shl, 64, 1, 63, Some(9223372036854775808)),
    (
        BinaryOp::Shl,
        64,
        18446744073709551615,
        65,
        Some(18446744073709551614),
    ),
    (BinaryOp::Lshr, 8, 255, 8, Some(255)),
    (BinaryOp::Lshr, 8, 255, 7, Some(1)),
    (BinaryOp::Lshr, 8, 128, 9, Some(64)),
    (
        BinaryOp::Lshr,
        64,
        18446744073709551615,
        64,
        Some(18446744073709551615),
    ),
    (BinaryOp::Lshr, 64, 18446744073709551615, 63, Some(1)),
    (
        BinaryOp::Lshr,
        64,
        9223372036854775808,
        65,
        Some(4611686018427387904),
    ),
    (BinaryOp::Ashr, 8, 128, 8, Some(128)),
    (BinaryOp::Ashr, 8, 128, 7, Some(255)),
    (BinaryOp::Ashr, 8, 127, 1, Some(63)),
    (
        BinaryOp::Ashr,
        64,
        9223372036854775808,
        64,
        Some(9223372036854775808),
    ),
    (
        BinaryOp::Ashr,
        64,
        9223372036854775808,
        63,
        Some(18446744073709551615),
    ),
    (
        BinaryOp::Ashr,
        64,
        9223372036854775807,
        1,
        Some(4611686018427387903),
    ),
    (BinaryOp::And, 8, 255, 128, Some(128)),
    (BinaryOp::And, 8, 90, 60, Some(24)),
    (
        BinaryOp::And,
        64,
        18446744073709551615,
        9223372036854775808,
        Some(9223372036854775808),
    ),
    (BinaryOp::And, 64, 90, 60, Some(24)),
    (BinaryOp::Or, 8, 127, 128, Some(255)),
    (BinaryOp::Or, 8, 90, 60, Some(126)),
    (
        BinaryOp::Or,
        64,
        9223372036854775807,
        9223372036854775808,
        Some(18446744073709551615),
    ),
    (BinaryOp::Or, 64, 90, 60, Some(126)),
    (BinaryOp::Xor, 8, 255, 128, Some(127)),
    (BinaryOp::Xor, 8, 90, 60, Some(102)),
    (
        BinaryOp::Xor,
        64,
        18446744073709551615,
        9223372036854775808,
        Some(9223372036854775807),
    ),
    (BinaryOp::Xor, 64, 90, 60, Some(102)),
    (BinaryOp::Sdiv, 1, 1, 1, Some(1)),
    (BinaryOp::Sdiv, 1, 1, 0, None),
    (BinaryOp::Srem, 1, 1, 1, Some(0)),
    (BinaryOp::Srem, 1, 1, 0, None),
    (BinaryOp::Srem, 1, 0, 0, None),
    (BinaryOp::Ashr, 1, 1, 1, Some(1)),
    (BinaryOp::Ashr, 1, 1, 0, Some(1)),
    (BinaryOp::Ashr, 1, 0, 1, Some(0)),
    (BinaryOp::Shl, 1, 1, 1, Some(1)),
    (BinaryOp::Shl, 1, 1, 0, Some(1)),
];

fn computes(rt: &impl Abort, rows: &[Row]) {
    for row in rows {
        let (op, width, a, b, expected) = *row;
        if is_integer(width, a) && is_integer(width, b) {
            assert_eq!(rt; binary(op, width, a, b), expected);
        } else {
            assert!(rt; false, "no integers of {width} bits");
        }
    }
}

#[test]
fn computes_with_integers(rt: HostRuntime) -> Result<(), Fail> {
    computes(&rt, &ROWS);
    Ok(())
}

/// The integer of 128 bits that are all 1: as a signed one -1.
const ONES: u128 = u128::MAX;

/// The least signed integer of 128 bits.
const LEAST: u128 = 170141183460469231731687303715884105728;

/// An operation on two integers of 128 bits, and the integer that it makes of them.
type Widest = (BinaryOp, u128, u128, u128);

const WIDEST: [Widest; 26] = [
    (BinaryOp::Add, ONES, 1, 0),
    (BinaryOp::Add, LEAST, LEAST, 0),
    (BinaryOp::Add, LEAST - 1, 1, LEAST),
    (BinaryOp::Sub, 0, 1, ONES),
    (BinaryOp::Sub, LEAST, 1, LEAST - 1),
    (BinaryOp::Mul, ONES, ONES, 1),
    (BinaryOp::Mul, LEAST, 2, 0),
    (
        BinaryOp::Mul,
        1512366075204170947332355369683137040,
        338770000845734292516042252062085074415,
        250830954792862432417646302229912718576,
    ),
    (BinaryOp::Mul, LEAST - 1, LEAST - 1, 1),
    (BinaryOp::Sdiv, LEAST, ONES, LEAST),
    (BinaryOp::Sdiv, LEAST, 1, LEAST),
    (BinaryOp::Sdiv, ONES - 6, 2, ONES - 2),
    (BinaryOp::Srem, LEAST, ONES, 0),
    (BinaryOp::Srem, ONES - 6, 2, ONES),
    (BinaryOp::Srem, 7, ONES - 1, 1),
    (BinaryOp::Udiv, ONES, 2, LEAST - 1),
    (BinaryOp::Udiv, ONES, LEAST, 1),
    (BinaryOp::Urem, ONES, LEAST, LEAST - 1),
    (BinaryOp::Shl, 1, 127, LEAST),
    (BinaryOp::Shl, ONES, 128, ONES),
    (BinaryOp::Shl, 1512366075204170947332355369683137040, 127, 0),
    (BinaryOp::Lshr, ONES, 127, 1),
    (BinaryOp::Lshr, ONES, 128, ONES),
    (BinaryOp::Ashr, LEAST, 127, ONES),
    (BinaryOp::Ashr, LEAST, 128, LEAST),
    (
        BinaryOp::Ashr,
        LEAST - 1,
        1,
        85070591730234615865843651857942052863,
    ),
];

fn computes_widest(rt: &impl Abort, rows: &[Widest]) {
    for row in rows {
        let (op, a, b, expected) = *row;
        assert_eq!(rt; binary(op, 128, a, b), Some(expected));
    }
}

#[test]
fn computes_with_the_widest_integers(rt: HostRuntime) -> Result<(), Fail> {
    computes_widest(&rt, &WIDEST);
    Ok(())
}

#[test]
fn converts_the_widest_integers(rt: HostRuntime) -> Result<(), Fail> {
    let least = Scalar::Int {
        width: 128,
        bits: LEAST,
    };
    let one = Scalar::Int {
        width: 128,
        bits: 1,
    };
    assert!(rt; compare(CompareOp::Slt, &least, &one));
    assert!(rt; compare(CompareOp::Ugt, &least, &one));
    assert_eq!(rt; convert(ConvertOp::Trunc, 128, 64, LEAST + 5), 5);
    assert_eq!(rt; convert(ConvertOp::Trunc, 128, 128, ONES), ONES);
    assert_eq!(rt;
        convert(ConvertOp::Zext, 64, 128, 9223372036854775808),
        9223372036854775808
    );
    assert_eq!(rt;
        convert(ConvertOp::Sext, 64, 128, 9223372036854775808),
        ONES - 9223372036854775807
    );
    assert_eq!(rt; convert(ConvertOp::Sext, 1, 128, 1), ONES);
    Ok(())
}

#[test]
fn updates_integers(rt: HostRuntime) -> Result<(), Fail> {
    assert_eq!(rt; updated(UpdateOp::Nand, 8, 12, 10), 247);
    assert_eq!(rt; updated(UpdateOp::Max, 8, 128, 127), 127);
    assert_eq!(rt; updated(UpdateOp::Umax, 8, 128, 127), 128);
    assert_eq!(rt; updated(UpdateOp::Nand, 128, ONES, ONES), 0);
    Ok(())
}

#[test]
fn compares_and_converts(rt: HostRuntime) -> Result<(), Fail> {
    let least = Scalar::Int {
        width: 8,
        bits: 128,
    };
    let one = Scalar::Int { width: 8, bits: 1 };
    assert!(rt; compare(CompareOp::Slt, &least, &one));
    assert!(rt; !compare(CompareOp::Ult, &least, &one));
    assert!(rt; compare(CompareOp::Uge, &least, &one));
    assert!(rt; compare(CompareOp::Eq, &Scalar::Null, &Scalar::Null));
    assert!(rt; compare(CompareOp::Ne, &Scalar::Null, &Scalar::Object(0)));
    assert_eq!(rt; convert(ConvertOp::Trunc, 64, 8, 511), 255);
    assert_eq!(rt; convert(ConvertOp::Zext, 8, 64, 128), 128);
    assert_eq!(rt; convert(ConvertOp::Sext, 8, 16, 128), 65408);
    Ok(())
}

fn value(alloc: Global, scalars: &[Scalar]) -> Result<Value, AllocError> {
    let mut value = Value::new(alloc);
    for scalar in scalars {
        value.push(*scalar)?;
    }
    Ok(value)
}

#[test]
fn keeps_values_in_a_row(rt: HostRuntime) -> Result<(), Fail> {
    let mut slots = Slots::new(rt.alloc());
    slots.reserve(2, 2)?;
    slots.push(value(rt.alloc(), &[Scalar::Null, Scalar::Func(7)])?)?;
    slots.push(value(rt.alloc(), &[])?)?;
    slots.push_scalar(Scalar::Stack(1))?;
    slots.push_slice(&[Scalar::Thread(2), Scalar::Null])?;
    assert_eq!(rt; slots.len(), 4);
    assert_eq!(rt; slots.at(0), [Scalar::Null, Scalar::Func(7)].as_slice());
    assert_eq!(rt; slots.at(1).len(), 0);
    assert_eq!(rt; slots.at(2), [Scalar::Stack(1)].as_slice());
    assert_eq!(rt; slots.at(3), [Scalar::Thread(2), Scalar::Null].as_slice());
    let mut types = Types::new(rt.alloc());
    for class in 4..8 {
        types.push(class)?;
    }
    if types.len() == slots.len() {
        let passed = Passed::new(types, slots);
        assert_eq!(rt; passed.types().len(), 4);
        assert_eq!(rt; passed.values().len(), 4);
        let (types, mut slots) = passed.into_parts();
        assert_eq!(rt; types.at(1), 5);
        assert_eq!(rt; slots.at(0).len(), 2);
        slots.clear();
        assert_eq!(rt; slots.len(), 0);
    }
    Ok(())
}

/// The types of a bundle that has `int<8>` and `int<128>` alone
fn two_types(alloc: Global) -> Result<Classes, TypeFault>
    ensures narrow { IfOk result (λ c. slice_get c.definitions 0 ≡ Some (types.Int 8)) }
    ensures wide { IfOk result (λ c. slice_get c.definitions 1 ≡ Some (types.Int 128)) }
{
    let mut graph = TypeGraph::new(alloc);
    graph.add(TypeDef::Int { width: 8 }, Listing::new(alloc))?;
    graph.add(TypeDef::Int { width: 128 }, Listing::new(alloc))?;
    classes(alloc, graph)
}

fn number(negative: bool, magnitude: u128) -> Literal
    ensures { result.kind ≡ literals.Number negative magnitude }
{
    Literal {
        place: 40,
        kind: LiteralKind::Number {
            negative,
            magnitude,
        },
    }
}

#[test]
fn judges_and_makes_constants(rt: HostRuntime) -> Result<(), Fail> {
    let types = Listing::new(rt.alloc());
    let classes = two_types(rt.alloc())?;
    assert_eq!(rt;
        judge_const(&classes, 0, &number(false, 255), &types),
        Ok(())
    );
    assert_eq!(rt;
        judge_const(&classes, 0, &number(true, 128), &types),
        Ok(())
    );
    let too_wide = ConstFault {
        kind: ConstKind::OutOfWidth,
        place: 40,
    };
    assert_eq!(rt;
        judge_const(&classes, 0, &number(false, 256), &types),
        Err(too_wide)
    );
    assert_eq!(rt;
        judge_const(&classes, 0, &number(true, 129), &types),
        Err(too_wide)
    );
    assert_eq!(rt;
        judge_const(&classes, 1, &number(false, ONES), &types),
        Ok(())
    );
    assert_eq!(rt;
        judge_const(&classes, 1, &number(true, LEAST), &types),
        Ok(())
    );
    assert_eq!(rt;
        judge_const(&classes, 1, &number(true, LEAST + 1), &types),
        Err(too_wide)
    );
    let mut made = Made::new(rt.alloc());
    let least = make_const(rt.alloc(), &classes, 0, &number(true, 128), &made)?;
    let expected = Scalar::Int {
        width: 8,
        bits: 128,
    };
    assert_eq!(rt; least.as_slice(), [expected].as_slice());
    made.add(3, least)?;
    assert_eq!(rt; made.value(3), [expected].as_slice());
    assert_eq!(rt; made.value(0).len(), 0);
    assert!(rt; made.take(3).is_some());
    assert_eq!(rt; made.value(3).len(), 0);
    Ok(())
}
