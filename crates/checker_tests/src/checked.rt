// What a checked bundle answers by name and by number.
use bundle_check::check;
use bundle_names::{Sort, resolve};
use checked_code::{Checked, EntryFault, Form};
use ir_text::read_bundle;
use mu_values::Scalar;
use std::alloc::{AllocError, Global};
use std::process::Abort;
use std::test::Fail;

// The constant `@both` has a member before it and one behind it, where its type stands too.
const TEXT: &[u8] =
    b".typedef @i64 = int<64> .typedef @i1 = int<1> .funcsig @s = (@i64) -> (@i64) .funcsig @m = () -> (@i64) .const @a <@i64> = 7 .global @g <@i1> .funcdecl @d <@m> .funcdef @f VERSION %v <@s> { %e(<@i64> %x): %y = ADD <@i64> %x @a RET (%y) %h() [%z]: RET (@a) } .funcdef @main VERSION %w <@m> { %e(): %r = CALL <@s> @f (@a) RET (%r) } .const @both <@pair> = {@a @on} .const @on <@i1> = -1 .typedef @pair = struct<@i64 @i1>";

// A checked bundle is dropped at one place alone, since each place is proved: the tests lend it.
fn checked(alloc: Global, text: &[u8]) -> Result<Checked, Fail> {
    let bundle = read_bundle(alloc, text)?;
    let names = resolve(alloc, bundle)?;
    Ok(check(alloc, names)?)
}

fn finds(rt: &impl Abort, code: &Checked) {
    for (name, sort) in [
        ("@i64", Some(Sort::Written(0))),
        ("@m", Some(Sort::Signature(1))),
        ("@a", Some(Sort::Constant(0))),
        ("@g", Some(Sort::GlobalCell(0))),
        ("@f", Some(Sort::Function(1))),
        ("@none", None),
    ] {
        assert_eq!(rt; code.find(name), sort, "{name}");
    }
}

fn enters(rt: &impl Abort, code: &Checked) {
    for (name, entry) in [
        ("@main", Ok(2)),
        ("@none", Err(EntryFault::Unknown)),
        ("@f", Err(EntryFault::BadSignature)),
        ("@d", Err(EntryFault::NoBody)),
    ] {
        assert_eq!(rt; code.entry(name), entry, "{name}");
    }
}

// Each of these asks one question of the bundle, where there is an answer: what a call requires is then proved once, with little around it.
fn constant_type(code: &Checked, n: u32) -> Option<u32> {
    if (n as usize) < code.constants() {
        Some(code.constant_type(n))
    } else {
        None
    }
}

fn is_constant(code: &Checked, n: u32, scalars: &[Scalar]) -> bool {
    (n as usize) < code.constants() && code.constant(n).as_slice() == scalars
}

fn global_type(code: &Checked, n: u32) -> Option<u32> {
    if n < code.globals() {
        Some(code.global_type(n))
    } else {
        None
    }
}

fn first_block(code: &Checked, function: u32) -> Option<Option<u32>> {
    if (function as usize) < code.functions() {
        Some(code.function(function).first)
    } else {
        None
    }
}

fn handler(code: &Checked, block: u32) -> Option<Option<u32>> {
    if (block as usize) < code.blocks() {
        Some(code.handler(block))
    } else {
        None
    }
}

// How many variables and instructions a block has.
fn lengths(code: &Checked, block: u32) -> Option<(usize, usize)> {
    if (block as usize) < code.blocks() {
        let block = code.block(block);
        Some((block.classes.len(), block.code.len()))
    } else {
        None
    }
}

fn local_type(code: &Checked, block: u32, variable: u32) -> Option<u32> {
    if (block as usize) < code.blocks() && (variable as usize) < code.block(block).classes.len() {
        Some(code.local_type(block, variable))
    } else {
        None
    }
}

fn is_computation(code: &Checked, block: u32, at: u32) -> Option<bool> {
    if (block as usize) < code.blocks() && (at as usize) < code.block(block).code.len() {
        Some(matches!(code.code(block, at).form, Form::Computation(_)))
    } else {
        None
    }
}

fn is_control(code: &Checked, block: u32, at: u32) -> Option<bool> {
    if (block as usize) < code.blocks() && (at as usize) < code.block(block).code.len() {
        Some(matches!(code.code(block, at).form, Form::Control(_)))
    } else {
        None
    }
}

fn counts(rt: &impl Abort, code: &Checked) {
    assert_eq!(rt; code.constants(), 3);
    assert_eq!(rt; code.globals(), 1);
    assert_eq!(rt; code.functions(), 3);
    assert_eq!(rt; code.blocks(), 3);
}

fn knows_constants(rt: &impl Abort, code: &Checked) {
    let seven = Scalar::Int { width: 64, bits: 7 };
    let one = Scalar::Int { width: 1, bits: 1 };
    assert!(rt; is_constant(code, 0, &[seven]));
    assert!(rt; is_constant(code, 1, &[seven, one]));
}

fn knows_types(rt: &impl Abort, code: &Checked) {
    assert_eq!(rt; constant_type(code, 0), Some(0));
    assert_eq!(rt; global_type(code, 0), Some(1));
    assert_eq!(rt; local_type(code, 0, 1), Some(0));
}

fn knows_functions(rt: &impl Abort, code: &Checked) {
    for (function, first) in [(0, None), (1, Some(0)), (2, Some(2))] {
        assert_eq!(rt; first_block(code, function), Some(first), "{function}");
    }
}

fn knows_blocks(rt: &impl Abort, code: &Checked) {
    assert_eq!(rt; handler(code, 0), Some(None));
    assert_eq!(rt; handler(code, 1), Some(Some(0)));
    assert_eq!(rt; lengths(code, 0), Some((2, 2)));
}

fn knows_instructions(rt: &impl Abort, code: &Checked) {
    assert_eq!(rt; is_computation(code, 0, 0), Some(true));
    assert_eq!(rt; is_control(code, 0, 1), Some(true));
}

fn is_function_name(
    alloc: Global,
    code: &Checked,
    function: u32,
    expected: &[u8],
) -> Result<bool, AllocError> {
    let mut name = Vec::new(alloc);
    if (function as usize) < code.functions() {
        code.function_name(function, &mut name)?;
    }
    Ok(name.as_slice() == expected)
}

fn is_block_name(
    alloc: Global,
    code: &Checked,
    block: u32,
    expected: &[u8],
) -> Result<bool, AllocError> {
    let mut name = Vec::new(alloc);
    if (block as usize) < code.blocks() {
        code.block_name(block, &mut name)?;
    }
    Ok(name.as_slice() == expected)
}

fn writes_names(rt: &impl Abort, alloc: Global, code: &Checked) -> Result<(), AllocError> {
    assert!(rt; is_function_name(alloc, code, 2, b"@main")?);
    assert!(rt; is_block_name(alloc, code, 1, b"@f.v.h")?);
    Ok(())
}

fn answers_all(rt: &impl Abort, code: &Checked) {
    finds(rt, code);
    enters(rt, code);
    counts(rt, code);
    knows_constants(rt, code);
    knows_types(rt, code);
    knows_functions(rt, code);
    knows_blocks(rt, code);
    knows_instructions(rt, code);
}

#[test]
fn answers_by_name_and_by_number(rt: HostRuntime) -> Result<(), Fail> {
    let code = checked(rt.alloc(), TEXT)?;
    answers_all(&rt, &code);
    let written = writes_names(&rt, rt.alloc(), &code);
    Ok(written?)
}
