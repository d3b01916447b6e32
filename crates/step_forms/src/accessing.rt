// Instructions that read and write memory.
ghost use Rattle.std.specs.Prelude.{◌≡◌, Some, IsSome};
ghost use Rattle.mu_model.specs.Acts as acts;
ghost use Rattle.mu_model.specs.AccessForms.{cell_act, load_act, store_act, cmpxchg_act, atomicrmw_act};
ghost use Rattle.model_numbers.specs.Sources.{value_at};
ghost use Rattle.step_forms.specs.Asked.{asked, Lists, access_of};

use crate::access::Access;
use crate::act::Act;
use crate::operands::scalar;
use crate::variables::Variables;
use checked_code::{Checked, Source};
use mu_base::{Order, UpdateOp};
use mu_model::Case;
use mu_values::{CellId, Scalar};

/// What is done with the cell at a place.
#[tactic(auto, using(crate::specs::AccessLaws::cells))]
fn at_place(place: Scalar, access: Access) -> Act
    requires { IsSome (cell_act (acts.Accesses (access_of access)) place) }
    ensures { (ls : Lists) → cell_act (acts.Accesses (access_of access)) place ≡ Some (asked result ls) }
{
    match place {
        Scalar::Place { object, at } => Act::Accesses {
            access,
            cell: CellId { object, at },
        },
        Scalar::Null => Act::Faults(Case::NullAccess),
        _ => unreachable!(),
    }
}

/// LOAD
#[tactic(auto, using(crate::specs::AccessLaws::loads))]
pub fn load(code: &Checked, vars: &Variables, order: Order, location: Source) -> Act
    requires { IsSome (load_act order (value_at code.now vars.now location)) }
    ensures { (ls : Lists) → load_act order (value_at code.now vars.now location) ≡ Some (asked result ls) }
{
    at_place(scalar(code, vars, location), Access::Loads { order })
}

/// STORE
#[tactic(auto, using(crate::specs::AccessLaws::stores))]
pub fn store(code: &Checked, vars: &Variables, order: Order, location: Source, value: Source) -> Act
    requires { IsSome (store_act order (value_at code.now vars.now location) (value_at code.now vars.now value)) }
    ensures { (ls : Lists) → store_act order (value_at code.now vars.now location) (value_at code.now vars.now value) ≡ Some (asked result ls) }
{
    let stored = scalar(code, vars, value);
    at_place(
        scalar(code, vars, location),
        Access::Stores {
            order,
            scalar: stored,
        },
    )
}

/// The two orders of a comparison, and whether it is weak.
#[derive(Clone, Copy, Debug, PartialEq, Eq)]
pub struct Comparison {
    pub weak: bool,
    pub success: Order,
    pub failure: Order,
}

/// CMPXCHG
#[tactic(auto, using(crate::specs::AccessLaws::compares))]
pub fn cmpxchg(
    code: &Checked,
    vars: &Variables,
    comparison: Comparison,
    location: Source,
    expected: Source,
    desired: Source,
) -> Act
    requires { IsSome (cmpxchg_act comparison.weak comparison.success comparison.failure (value_at code.now vars.now location) (value_at code.now vars.now expected) (value_at code.now vars.now desired)) }
    ensures { (ls : Lists) → cmpxchg_act comparison.weak comparison.success comparison.failure (value_at code.now vars.now location) (value_at code.now vars.now expected) (value_at code.now vars.now desired) ≡ Some (asked result ls) }
{
    let Comparison {
        weak,
        success,
        failure,
    } = comparison;
    let expected = scalar(code, vars, expected);
    let desired = scalar(code, vars, desired);
    at_place(
        scalar(code, vars, location),
        Access::Compares {
            weak,
            success,
            failure,
            expected,
            desired,
        },
    )
}

/// ATOMICRMW
#[tactic(auto, using(crate::specs::AccessLaws::updates))]
pub fn atomicrmw(
    code: &Checked,
    vars: &Variables,
    order: Order,
    op: UpdateOp,
    location: Source,
    operand: Source,
) -> Act
    requires { IsSome (atomicrmw_act order op (value_at code.now vars.now location) (value_at code.now vars.now operand)) }
    ensures { (ls : Lists) → atomicrmw_act order op (value_at code.now vars.now location) (value_at code.now vars.now operand) ≡ Some (asked result ls) }
{
    let operand = scalar(code, vars, operand);
    at_place(
        scalar(code, vars, location),
        Access::Updates { order, op, operand },
    )
}
