// What becomes of an item whose name an earlier bundle defines.
ghost use Rattle.std.specs.Prelude.{◌≡◌, if◌then◌else◌};
ghost use Rattle.bundle_join.specs.declared.fault.JoinKind.TheVariants.{OtherSignature};
ghost use Rattle.bundle_join.specs.declared.verdict.Verdict.TheVariants.{Kept, LeftOut, Refused};
ghost use Rattle.bundle_join.specs.Alike.{same_name};
ghost use Rattle.bundle_join.specs.Joined.{name_of, place_of, against};

use crate::alike::{alike_constants, alike_declarations, alike_signatures, alike_types, same_name};
use crate::fault::JoinKind;
use crate::verdict::Verdict;
use ir_lex::Name;
use ir_tree::Item;

/// The global name that an item defines.
pub fn name_of(item: &Item) -> &Name
    ensures { result.now ≡ name_of item.now }
{
    match item {
        Item::Typedef(d) => &d.name,
        Item::Funcsig(d) => &d.name,
        Item::Const(d) => &d.name,
        Item::GlobalCell(d) => &d.name,
        Item::Funcdecl(d) => &d.name,
        Item::Funcdef(d) => &d.name,
    }
}

/// The place of the directive of an item: the offset of its first byte.
pub fn place_of(item: &Item) -> usize
    ensures { result ≡ place_of item.now }
{
    match item {
        Item::Typedef(d) => d.place,
        Item::Funcsig(d) => d.place,
        Item::Const(d) => d.place,
        Item::GlobalCell(d) => d.place,
        Item::Funcdecl(d) => d.place,
        Item::Funcdef(d) => d.place,
    }
}

// An item that says the same is left out, another one is refused at its name.
fn left_out(alike: bool, kind: JoinKind, name: &Name) -> Verdict
    ensures { result ≡ (if alike then LeftOut else Refused kind name.now.place) }
{
    if alike {
        Verdict::LeftOut
    } else {
        Verdict::Refused {
            kind,
            place: name.place,
        }
    }
}

// A declaration and a definition that name one signature are both kept; another one is refused at the later name.
fn both_kept(first: &Name, later: &Name) -> Verdict
    ensures { result ≡ (if same_name first.now later.now then Kept else Refused OtherSignature later.now.place) }
{
    if same_name(first, later) {
        Verdict::Kept
    } else {
        Verdict::Refused {
            kind: JoinKind::OtherSignature,
            place: later.place,
        }
    }
}

/// What becomes of an item, where an earlier bundle gave the first one, of the same name, to the joined bundle.
pub fn against(first: &Item, later: &Item) -> Verdict
    ensures { result ≡ against first.now later.now }
{
    match (first, later) {
        (Item::Typedef(d), Item::Typedef(e)) => {
            left_out(alike_types(d, e), JoinKind::OtherType, &e.name)
        }
        (Item::Funcsig(d), Item::Funcsig(e)) => {
            left_out(alike_signatures(d, e), JoinKind::OtherSignature, &e.name)
        }
        (Item::Const(d), Item::Const(e)) => {
            left_out(alike_constants(d, e), JoinKind::Duplicate, &e.name)
        }
        (Item::Funcdecl(d), Item::Funcdecl(e)) => {
            left_out(alike_declarations(d, e), JoinKind::OtherSignature, &e.name)
        }
        (Item::Funcdecl(d), Item::Funcdef(e)) => both_kept(&d.signature, &e.signature),
        (Item::Funcdef(d), Item::Funcdecl(e)) => both_kept(&d.signature, &e.signature),
        _ => left_out(false, JoinKind::Duplicate, name_of(later)),
    }
}
