// Instructions that make objects, and those that find places in them.
ghost use Rattle.std.specs.Prelude.{◌≡◌, Some, IsSome};
ghost use Rattle.mu_values.specs.Integers.{IsInteger, signed};
ghost use Rattle.checked_code.specs.Checking.{bundle_tables};
ghost use Rattle.mu_model.specs.ObjectForms.{newhybrid_act, getiref_act, getfieldiref_act, getelemiref_act, shiftiref_act, getvarpartiref_act};
ghost use Rattle.model_numbers.specs.Sources.{value_at};
ghost use Rattle.step_forms.specs.Asked.{asked, Lists};

use crate::act::Act;
use crate::operands::scalar;
use crate::variables::Variables;
use crate::way::Way;
use checked_code::{Checked, Source};
use mu_model::Case;
use mu_values::Scalar;

/// NEWHYBRID. The number of elements is unsigned.
#[tactic(auto, using(crate::specs::OperandLaws::operands))]
pub fn newhybrid(
    code: &Checked,
    vars: &Variables,
    class: u32,
    length_class: u32,
    length: Source,
) -> Act
    requires { IsSome (newhybrid_act (bundle_tables code.now) class length_class (value_at code.now vars.now length)) }
    ensures { (ls : Lists) → newhybrid_act (bundle_tables code.now) class length_class (value_at code.now vars.now length) ≡ Some (asked result ls) }
{
    match scalar(code, vars, length) {
        Scalar::Int { bits, .. } => Act::MakesHybrid { class, many: bits },
        _ => unreachable!(),
    }
}

/// GETIREF
#[tactic(auto, using(crate::specs::OperandLaws::objects))]
pub fn getiref(code: &Checked, vars: &Variables, reference: Source) -> Act
    requires { IsSome (getiref_act (value_at code.now vars.now reference)) }
    ensures { (ls : Lists) → getiref_act (value_at code.now vars.now reference) ≡ Some (asked result ls) }
{
    match scalar(code, vars, reference) {
        Scalar::Object(object) => Act::Gives(Scalar::Place { object, at: 0 }),
        Scalar::Null => Act::Faults(Case::NullAccess),
        _ => unreachable!(),
    }
}

/// GETFIELDIREF
#[tactic(auto, using(crate::specs::OperandLaws::operands))]
pub fn getfieldiref(
    code: &Checked,
    vars: &Variables,
    class: u32,
    field: usize,
    location: Source,
) -> Act
    requires { IsSome (getfieldiref_act class field (value_at code.now vars.now location)) }
    ensures { (ls : Lists) → getfieldiref_act class field (value_at code.now vars.now location) ≡ Some (asked result ls) }
{
    Act::Finds {
        way: Way::Field { class, field },
        scalar: scalar(code, vars, location),
    }
}

/// The signed integer that bits write.
#[tactic(auto, using(crate::proofs::Signed::halves))]
fn signed(width: u32, bits: u128) -> i128
    requires { IsInteger width bits }
    ensures { result ≡ signed width bits }
{
    let half = 1u128 << (width - 1);
    if bits < half {
        bits as i128
    } else {
        -1 - (half - 1 - (bits - half)) as i128
    }
}

/// GETELEMIREF. The width of the index is that of its value.
#[tactic(auto, using(crate::specs::OperandLaws::operands))]
pub fn getelemiref(
    code: &Checked,
    vars: &Variables,
    class: u32,
    index_class: u32,
    location: Source,
    index: Source,
) -> Act
    requires { IsSome (getelemiref_act (bundle_tables code.now) class index_class (value_at code.now vars.now location) (value_at code.now vars.now index)) }
    ensures { (ls : Lists) → getelemiref_act (bundle_tables code.now) class index_class (value_at code.now vars.now location) (value_at code.now vars.now index) ≡ Some (asked result ls) }
{
    match scalar(code, vars, index) {
        Scalar::Int { width, bits } => Act::Finds {
            way: Way::Element {
                class,
                index: signed(width, bits),
            },
            scalar: scalar(code, vars, location),
        },
        _ => unreachable!(),
    }
}

/// SHIFTIREF. The width of the offset is that of its value.
#[tactic(auto, using(crate::specs::OperandLaws::operands))]
pub fn shiftiref(
    code: &Checked,
    vars: &Variables,
    class: u32,
    offset_class: u32,
    location: Source,
    offset: Source,
) -> Act
    requires { IsSome (shiftiref_act (bundle_tables code.now) class offset_class (value_at code.now vars.now location) (value_at code.now vars.now offset)) }
    ensures { (ls : Lists) → shiftiref_act (bundle_tables code.now) class offset_class (value_at code.now vars.now location) (value_at code.now vars.now offset) ≡ Some (asked result ls) }
{
    match scalar(code, vars, offset) {
        Scalar::Int { width, bits } => Act::Finds {
            way: Way::Shift {
                class,
                by: signed(width, bits),
            },
            scalar: scalar(code, vars, location),
        },
        _ => unreachable!(),
    }
}

/// GETVARPARTIREF
#[tactic(auto, using(crate::specs::OperandLaws::operands))]
pub fn getvarpartiref(code: &Checked, vars: &Variables, class: u32, location: Source) -> Act
    requires { IsSome (getvarpartiref_act class (value_at code.now vars.now location)) }
    ensures { (ls : Lists) → getvarpartiref_act class (value_at code.now vars.now location) ≡ Some (asked result ls) }
{
    Act::Finds {
        way: Way::VarPart { class },
        scalar: scalar(code, vars, location),
    }
}
