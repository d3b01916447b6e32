// When two items say the same: they are equal save for places.
ghost use Rattle.std.specs.Prelude.{◌≡◌};
ghost use Rattle.bundle_join.specs.Alike.{same_name, same_names, same_number, same_form, same_literal, alike_types, alike_signatures, alike_constants, alike_declarations};

use ir_lex::{Name, Numeral};
use ir_tree::{Const, Funcdecl, Funcsig, Literal, TypeForm, Typedef};

/// Whether two names have the same text.
pub fn same_name(a: &Name, b: &Name) -> bool
    ensures { result ≡ same_name a.now b.now }
{
    a.text.as_slice() == b.text.as_slice()
}

fn same_names(a: &[Name], b: &[Name]) -> bool
    ensures { result ≡ same_names a.now b.now }
{
    if a.len() != b.len() {
        return false;
    }
    for i in 0..a.len() {
        if !same_name(&a[i], &b[i]) {
            return false;
        }
    }
    true
}

fn same_number(a: &Numeral, b: &Numeral) -> bool
    ensures { result ≡ same_number a.now b.now }
{
    a.number.negative == b.number.negative && a.number.magnitude == b.number.magnitude
}

fn same_form(a: &TypeForm, b: &TypeForm) -> bool
    ensures { result ≡ same_form a.now b.now }
{
    match (a, b) {
        (TypeForm::Int { width: w }, TypeForm::Int { width: v }) => same_number(w, v),
        (TypeForm::Struct { fields: ts }, TypeForm::Struct { fields: us }) => {
            same_names(ts.as_slice(), us.as_slice())
        }
        (
            TypeForm::Array {
                element: t,
                length: n,
            },
            TypeForm::Array {
                element: u,
                length: m,
            },
        ) => same_name(t, u) && same_number(n, m),
        (
            TypeForm::Hybrid {
                fixed: ts,
                element: t,
            },
            TypeForm::Hybrid {
                fixed: us,
                element: u,
            },
        ) => same_names(ts.as_slice(), us.as_slice()) && same_name(t, u),
        (TypeForm::Void, TypeForm::Void) => true,
        (TypeForm::Ref { of_type: t }, TypeForm::Ref { of_type: u }) => same_name(t, u),
        (TypeForm::Iref { of_type: t }, TypeForm::Iref { of_type: u }) => same_name(t, u),
        (TypeForm::Funcref { signature: s }, TypeForm::Funcref { signature: r }) => same_name(s, r),
        (TypeForm::Stackref, TypeForm::Stackref) => true,
        (TypeForm::Threadref, TypeForm::Threadref) => true,
        _ => false,
    }
}

fn same_literal(a: &Literal, b: &Literal) -> bool
    ensures { result ≡ same_literal a.now b.now }
{
    match (a, b) {
        (Literal::Number(n), Literal::Number(m)) => same_number(n, m),
        (Literal::Null { .. }, Literal::Null { .. }) => true,
        (Literal::Members { constants: ns, .. }, Literal::Members { constants: ms, .. }) =>
            same_names(ns.as_slice(), ms.as_slice()),
        _ => false,
    }
}

/// Whether two type definitions are equal save for places.
pub fn alike_types(a: &Typedef, b: &Typedef) -> bool
    ensures { result ≡ alike_types a.now b.now }
{
    same_name(&a.name, &b.name) && same_form(&a.form, &b.form)
}

/// Whether two signature definitions are equal save for places.
pub fn alike_signatures(a: &Funcsig, b: &Funcsig) -> bool
    ensures { result ≡ alike_signatures a.now b.now }
{
    same_name(&a.name, &b.name)
        && same_names(a.takes.as_slice(), b.takes.as_slice())
        && same_names(a.gives.as_slice(), b.gives.as_slice())
}

/// Whether two constants are equal save for places.
pub fn alike_constants(a: &Const, b: &Const) -> bool
    ensures { result ≡ alike_constants a.now b.now }
{
    same_name(&a.name, &b.name)
        && same_name(&a.of_type, &b.of_type)
        && same_literal(&a.literal, &b.literal)
}

/// Whether two declarations of functions are equal save for places.
pub fn alike_declarations(a: &Funcdecl, b: &Funcdecl) -> bool
    ensures { result ≡ alike_declarations a.now b.now }
{
    same_name(&a.name, &b.name) && same_name(&a.signature, &b.signature)
}
