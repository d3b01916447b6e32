// A small bundle is printed.
use ir_lex::{Name, Number, Numeral};
use ir_print::print_bundle;
use ir_tree::{Bundle, Const, Item, Literal, TypeForm, Typedef};
use std::alloc::{AllocError, Global};
use std::test::Fail;
use text_forms::Listing;

fn name(alloc: Global, text: &[u8]) -> Result<Name, AllocError> {
    Ok(Name {
        place: 7,
        text: Listing::from_slice(alloc, text)?,
    })
}

fn number(negative: bool, magnitude: u128) -> Numeral {
    Numeral {
        place: 7,
        number: Number {
            negative,
            magnitude,
        },
    }
}

fn type_and_constant(alloc: Global) -> Result<Bundle, AllocError> {
    let mut bundle = Listing::new(alloc);
    bundle.push(Item::Typedef(Typedef {
        place: 7,
        name: name(alloc, b"@i64")?,
        form: TypeForm::Int {
            width: number(false, 64),
        },
    }))?;
    bundle.push(Item::Const(Const {
        place: 7,
        name: name(alloc, b"@k")?,
        of_type: name(alloc, b"@i64")?,
        literal: Literal::Number(number(true, 1)),
    }))?;
    Ok(bundle)
}

#[test]
fn appends_the_canonical_text(rt: HostRuntime) -> Result<(), Fail> {
    let bundle = type_and_constant(rt.alloc())?;
    let mut out = Vec::from_slice(rt.alloc(), b"? ")?;
    print_bundle(&bundle, &mut out)?;
    let expected = b"? .typedef @i64 = int<64>\n.const @k <@i64> = -1\n";
    assert_eq!(rt; out.as_slice(), expected.as_slice());
    Ok(())
}
