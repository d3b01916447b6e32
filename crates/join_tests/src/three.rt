// Three bundles are read, joined and printed. Each expected text and fault is worked out by hand from the rules.
ghost use Rattle.std.specs.Prelude.{◌≡◌, length, IfOk};

use bundle_join::{JoinFault, JoinKind, join};
use ir_print::print_bundle;
use ir_text::read_bundle;
use ir_tree::Bundle;
use std::alloc::{AllocError, Global};
use std::test::Fail;
use text_forms::Listing;

fn listed(
    alloc: Global,
    first: Bundle,
    second: Bundle,
    third: Bundle,
) -> Result<Listing<Bundle>, AllocError>
    ensures { IfOk result (λ bundles. length bundles ≡ 3) }
{
    let mut bundles = Listing::new(alloc);
    bundles.push(first)?;
    bundles.push(second)?;
    bundles.push(third)?;
    Ok(bundles)
}

fn joined(
    alloc: Global,
    first: &[u8],
    second: &[u8],
    third: &[u8],
) -> Result<Result<Bundle, JoinFault>, Fail> {
    let first = read_bundle(alloc, first)?;
    let second = read_bundle(alloc, second)?;
    let third = read_bundle(alloc, third)?;
    let bundles = listed(alloc, first, second, third)?;
    Ok(join(alloc, bundles))
}

fn fault(
    alloc: Global,
    first: &[u8],
    second: &[u8],
    third: &[u8],
) -> Result<Option<JoinFault>, Fail> {
    match joined(alloc, first, second, third)? {
        Ok(_) => Ok(None),
        Err(fault) => Ok(Some(fault)),
    }
}

fn at(kind: JoinKind, bundle: u32, place: usize) -> Option<JoinFault> {
    Some(JoinFault::At {
        kind,
        bundle,
        place,
    })
}

const TYPES: &[u8] = b".typedef @i = int<8>\n.const @c <@i> = 1\n";

// The type and the constant are said again, with their numbers in another spelling.
#[test]
fn what_is_said_again_is_left_out(rt: HostRuntime) -> Result<(), Fail> {
    let second = b".typedef @i = int<0x8>\n.global @g <@i>\n";
    let third = b".const @c <@i> = 0x1\n.global @h <@i>\n";
    let bundle = joined(rt.alloc(), TYPES, second, third)?
        .ok()
        .ok_or("a fault")?;
    let mut out = Vec::new(rt.alloc());
    print_bundle(&bundle, &mut out)?;
    let expected = b".typedef @i = int<8>\n.const @c <@i> = 1\n.global @g <@i>\n.global @h <@i>\n";
    assert_eq!(rt; out.as_slice(), expected.as_slice());
    Ok(())
}

// The constant of the third bundle is another one; its name is at byte 7.
#[test]
fn another_constant_is_refused(rt: HostRuntime) -> Result<(), Fail> {
    let found = fault(rt.alloc(), TYPES, b"", b".const @c <@i> = 2\n")?;
    assert_eq!(rt; found, at(JoinKind::Duplicate, 2, 7));
    Ok(())
}

// The type of the second bundle is another one; its name is at byte 9. What the third one says is no longer asked.
#[test]
fn another_type_is_refused(rt: HostRuntime) -> Result<(), Fail> {
    let third = b".const @c <@i> = 2\n";
    let found = fault(rt.alloc(), TYPES, b".typedef @i = int<16>\n", third)?;
    assert_eq!(rt; found, at(JoinKind::OtherType, 1, 9));
    Ok(())
}

// The second bundle has another signature of the same function, whose name stands after the 23 bytes of a line and the 24 bytes of
// `.funcdef @f VERSION %v <`.
#[test]
fn a_definition_of_another_signature_is_refused(rt: HostRuntime) -> Result<(), Fail> {
    let first = b".funcsig @s = () -> ()\n.funcdecl @f <@s>\n";
    let second = b".funcsig @t = () -> ()\n.funcdef @f VERSION %v <@t> {\n%e():\n  RET ()\n}\n";
    let found = fault(rt.alloc(), first, second, b"")?;
    assert_eq!(rt; found, at(JoinKind::OtherSignature, 1, 47));
    Ok(())
}

// Two types of one name in one bundle are both kept: they are not compared. The third bundle says the same as the first of them.
#[test]
fn items_of_one_bundle_are_not_compared(rt: HostRuntime) -> Result<(), Fail> {
    let twice = b".typedef @i = int<8>\n.typedef @i = int<16>\n";
    let third = b".typedef @i = int<8>\n";
    let bundle = joined(rt.alloc(), b"", twice, third)?
        .ok()
        .ok_or("a fault")?;
    let mut out = Vec::new(rt.alloc());
    print_bundle(&bundle, &mut out)?;
    assert_eq!(rt; out.as_slice(), twice.as_slice());
    Ok(())
}
