// Values.
ghost use Rattle.std.specs.Prelude.{◌≡◌, ◌++◌, OnOk, OnErr, codes, drop, is_some};
ghost use Rattle.mu_base.specs.Files.{IsPrefix};
ghost use Rattle.mu_values.specs.Constants.{member_count};
ghost use Rattle.checked_code.specs.Checking.{bundle_tables};
ghost use Rattle.mu_model.specs.Types.{class_definition};
ghost use Rattle.run_texts.specs.EventTexts.{scalar_text, spaced, value_text, values_text};

use crate::names::function_text;
use crate::numbers::{cell_text, numbered, thread_text, wide_text};
use checked_code::Checked;
use mu_types::TypeDef;
use mu_values::{CellId, Passed, Scalar};
use std::alloc::AllocError;

// Appends a scalar. Where no memory is found a part of it may have been appended.
#[tactic(auto, using(mu_base::specs::Prefixes::prefix_self))]
fn scalar_text(code: &Checked, scalar: &Scalar, out: &mut Vec<u8>) -> Result<(), AllocError>
    ensures appended { OnOk result (out.new.items ≡ out.old.items ++ scalar_text code.now scalar.now) }
    ensures begins { OnErr result (IsPrefix out.old.items out.new.items) }
{
    match *scalar {
        Scalar::Int { bits, .. } => wide_text(bits, out),
        Scalar::Null => out.extend_from_slice(b"NULL"),
        Scalar::Object(object) => numbered(b"#", object, out),
        Scalar::Place { object, at } => cell_text(CellId { object, at }, out),
        Scalar::Func(function) => function_text(code, function, out),
        Scalar::Stack(stack) => numbered(b"s", stack, out),
        Scalar::Thread(thread) => thread_text(thread, out),
    }
}

/// Appends a scalar behind a space. Where no memory is found a part of it may have been appended.
#[tactic(auto, using(mu_base::specs::Prefixes::prefix_self, mu_base::specs::Prefixes::prefix_longer, mu_base::specs::Prefixes::prefix_again))]
pub fn spaced_scalar(code: &Checked, scalar: &Scalar, out: &mut Vec<u8>) -> Result<(), AllocError>
    ensures appended { OnOk result (out.new.items ≡ out.old.items ++ (codes " " ++ scalar_text code.now scalar.now)) }
    ensures begins { OnErr result (IsPrefix out.old.items out.new.items) }
{
    out.extend_from_slice(b" ")?;
    scalar_text(code, scalar, out)
}

// Appends scalars, each behind a space. Where no memory is found some of them may have been appended.
#[tactic(auto, using(mu_base::specs::Prefixes::prefix_self, mu_base::specs::Prefixes::prefix_longer, mu_base::specs::Prefixes::prefix_again, crate::proofs::Spaces::spaced_is))]
fn more_scalars(code: &Checked, scalars: &[Scalar], out: &mut Vec<u8>) -> Result<(), AllocError>
    ensures appended { OnOk result (out.new.items ≡ out.old.items ++ spaced (scalar_text code.now) scalars.now) }
    ensures begins { OnErr result (IsPrefix out.old.items out.new.items) }
{
    for scalar in scalars {
        spaced_scalar(code, scalar, out)?;
    }
    Ok(())
}

// Appends scalars with spaces between them. Where no memory is found some of them may have been appended.
#[tactic(auto, using(mu_base::specs::Prefixes::prefix_self, mu_base::specs::Prefixes::prefix_longer, mu_base::specs::Prefixes::prefix_again))]
fn scalars_text(code: &Checked, scalars: &[Scalar], out: &mut Vec<u8>) -> Result<(), AllocError>
    ensures appended { OnOk result (out.new.items ≡ out.old.items ++ drop 1 (spaced (scalar_text code.now) scalars.now)) }
    ensures begins { OnErr result (IsPrefix out.old.items out.new.items) }
{
    match scalars {
        [] => Ok(()),
        [first, rest @ ..] => {
            scalar_text(code, first, out)?;
            more_scalars(code, rest, out)
        }
    }
}

// Whether the values of the class have members. Such a type is written.
#[tactic(auto, using(crate::proofs::Members::members_written))]
fn has_members(code: &Checked, class: u32) -> bool
    ensures { result ≡ is_some (member_count (class_definition (bundle_tables code.now) class)) }
{
    matches!(
        code.tables().types.definition(class),
        Some(TypeDef::Struct { .. } | TypeDef::Array { .. })
    )
}

// Appends scalars in braces. Where no memory is found a part of it may have been appended.
#[tactic(auto, using(mu_base::specs::Prefixes::prefix_self, mu_base::specs::Prefixes::prefix_longer, mu_base::specs::Prefixes::prefix_again))]
fn braced(code: &Checked, scalars: &[Scalar], out: &mut Vec<u8>) -> Result<(), AllocError>
    ensures appended { OnOk result (out.new.items ≡ out.old.items ++ codes "{" ++ drop 1 (spaced (scalar_text code.now) scalars.now) ++ codes "}") }
    ensures begins { OnErr result (IsPrefix out.old.items out.new.items) }
{
    out.extend_from_slice(b"{")?;
    scalars_text(code, scalars, out)?;
    out.extend_from_slice(b"}")
}

// Appends a value of a class. Where no memory is found a part of it may have been appended.
fn value_text(
    code: &Checked,
    class: u32,
    value: &[Scalar],
    out: &mut Vec<u8>,
) -> Result<(), AllocError>
    ensures appended { OnOk result (out.new.items ≡ out.old.items ++ value_text code.now (class, value.now)) }
    ensures begins { OnErr result (IsPrefix out.old.items out.new.items) }
{
    if has_members(code, class) {
        braced(code, value, out)
    } else {
        scalars_text(code, value, out)
    }
}

// Appends a value of a class behind a space. Where no memory is found a part of it may have been appended.
#[tactic(auto, using(mu_base::specs::Prefixes::prefix_self, mu_base::specs::Prefixes::prefix_longer, mu_base::specs::Prefixes::prefix_again))]
fn spaced_value(
    code: &Checked,
    class: u32,
    value: &[Scalar],
    out: &mut Vec<u8>,
) -> Result<(), AllocError>
    ensures appended { OnOk result (out.new.items ≡ out.old.items ++ (codes " " ++ value_text code.now (class, value.now))) }
    ensures begins { OnErr result (IsPrefix out.old.items out.new.items) }
{
    out.extend_from_slice(b" ")?;
    value_text(code, class, value, out)
}

/// Appends values, each behind a space. Where no memory is found some of them may have been appended.
#[tactic(auto, using(mu_base::specs::Prefixes::prefix_self, mu_base::specs::Prefixes::prefix_longer, mu_base::specs::Prefixes::prefix_again))]
pub fn values_text(code: &Checked, values: &Passed, out: &mut Vec<u8>) -> Result<(), AllocError>
    ensures appended { OnOk result (out.new.items ≡ out.old.items ++ values_text code.now values.now) }
    ensures begins { OnErr result (IsPrefix out.old.items out.new.items) }
{
    for n in 0..values.values().len() {
        spaced_value(code, values.types().at(n), values.values().at(n), out)?;
    }
    Ok(())
}
