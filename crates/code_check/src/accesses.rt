// Instructions that read or write memory, or order such accesses.
ghost use Rattle.std.specs.Prelude.{◌≡◌, None};
ghost use Rattle.demands.specs.Demands.{Judges, demand};
ghost use Rattle.ir_tree.specs.declared.accessing.Access.TheVariants as accesses;
ghost use Rattle.check_tables.specs.declared.fault.CheckKind.TheVariants.{BadOrder};
ghost use Rattle.check_tables.specs.Lookups.{noted_class, definition_named};
ghost use Rattle.check_tables.specs.TypeTests.{is_scalar};
ghost use Rattle.checked_code.specs.declared.code.AccessForm.TheVariants as forms;
ghost use Rattle.checked_code.specs.Operands.{type_demand};
ghost use Rattle.code_check.specs.Gifts.{listed};
ghost use Rattle.checked_code.specs.Accesses.{may_load, may_store, may_update, may_fail, may_fence, order_demand, updates_type, access_demands, access_gives, access_code};

use crate::gifts::Gift;
use crate::objects::{place_of_type, tested_type};
use crate::operands::{demand, of_type};
use check_tables::{CheckFault, CheckKind, Tables};
use checked_code::{AccessForm, Locals};
use ir_lex::Name;
use ir_tree::{Access, Operand, WrittenOrder};
use mu_base::{Order, UpdateOp};

// ---- orders

fn may_load(order: Order) -> bool
    ensures { result ≡ may_load order }
{
    !matches!(order, Order::Release | Order::AcqRel)
}

fn may_store(order: Order) -> bool
    ensures { result ≡ may_store order }
{
    !matches!(order, Order::Consume | Order::Acquire | Order::AcqRel)
}

fn may_update(order: Order) -> bool
    ensures { result ≡ may_update order }
{
    !matches!(order, Order::NotAtomic)
}

/// Whether a `CMPXCHG` that fails, which is an atomic load then, may have this order.
fn may_fail(order: Order) -> bool
    ensures { result ≡ may_fail order }
{
    may_load(order) && may_update(order)
}

fn may_fence(order: Order) -> bool
    ensures { result ≡ may_fence order }
{
    !matches!(order, Order::NotAtomic | Order::Relaxed | Order::Consume)
}

/// A memory order that has to be allowed.
fn order(allowed: bool, order: WrittenOrder) -> Result<Order, CheckFault>
    ensures { Judges (demand order.place BadOrder allowed) order.order result }
{
    demand(allowed, CheckKind::BadOrder, order.place)?;
    Ok(order.order)
}

// ---- types

fn scalar_type(tables: &Tables, name: &Name) -> Result<u32, CheckFault>
    ensures { Judges (type_demand name.now (is_scalar (definition_named tables.now name.now))) (noted_class tables.now name.now) result }
{
    tested_type(tables, name, tables.is_scalar(name))
}

/// Whether the update is one of values of the type with this name.
fn updates_type(tables: &Tables, op: UpdateOp, name: &Name) -> bool
    ensures { result ≡ updates_type op (definition_named tables.now name.now) }
{
    match op {
        UpdateOp::Xchg => tables.is_scalar(name),
        _ => tables.is_int(name),
    }
}

// ---- the forms, whatever stands behind them

/// The place that an instruction accesses.
#[derive(Clone, Copy)]
struct Accessed<'a> {
    /// The type of what is there.
    of_type: &'a Name,
    /// The reference to the place.
    location: &'a Operand,
}

/// How a `CMPXCHG` compares.
#[derive(Clone, Copy)]
struct Comparison {
    /// Whether it may fail although the value there is the one expected.
    weak: bool,
    /// The order of one that succeeds.
    success: WrittenOrder,
    /// The order of one that fails.
    failure: WrittenOrder,
}

impl Comparison {
    /// A comparison with these orders.
    fn new(weak: bool, success: WrittenOrder, failure: WrittenOrder) -> Comparison
        ensures { result ≡ record { weak = weak; success = success; failure = failure } }
    {
        Comparison {
            weak,
            success,
            failure,
        }
    }
}

fn load(
    tables: &Tables,
    locals: &Locals,
    given: WrittenOrder,
    place: Accessed,
) -> Result<AccessForm, CheckFault>
    ensures { Judges (access_demands tables.now locals.now (accesses.Load given place.entry.of_type.now place.entry.location.now None)) (access_code tables.now locals.now (accesses.Load given place.entry.of_type.now place.entry.location.now None)) result }
{
    let order = order(may_load(given.order), given)?;
    let class = scalar_type(tables, place.of_type)?;
    let location = place_of_type(tables, locals, place.location, place.of_type)?;
    Ok(AccessForm::Load {
        order,
        class,
        location,
    })
}

fn store(
    tables: &Tables,
    locals: &Locals,
    given: WrittenOrder,
    place: Accessed,
    value: &Operand,
) -> Result<AccessForm, CheckFault>
    ensures { Judges (access_demands tables.now locals.now (accesses.Store given place.entry.of_type.now place.entry.location.now value.now None)) (access_code tables.now locals.now (accesses.Store given place.entry.of_type.now place.entry.location.now value.now None)) result }
{
    let order = order(may_store(given.order), given)?;
    let class = scalar_type(tables, place.of_type)?;
    let location = place_of_type(tables, locals, place.location, place.of_type)?;
    let value = of_type(tables, locals, value, place.of_type)?;
    Ok(AccessForm::Store {
        order,
        class,
        location,
        value,
    })
}

fn cmpxchg(
    tables: &Tables,
    locals: &Locals,
    comparison: Comparison,
    place: Accessed,
    expected: &Operand,
    desired: &Operand,
) -> Result<AccessForm, CheckFault>
    ensures { Judges (access_demands tables.now locals.now (accesses.Cmpxchg comparison.weak comparison.success comparison.failure place.entry.of_type.now place.entry.location.now expected.now desired.now None)) (access_code tables.now locals.now (accesses.Cmpxchg comparison.weak comparison.success comparison.failure place.entry.of_type.now place.entry.location.now expected.now desired.now None)) result }
{
    let success = order(may_update(comparison.success.order), comparison.success)?;
    let failure = order(may_fail(comparison.failure.order), comparison.failure)?;
    let class = scalar_type(tables, place.of_type)?;
    let location = place_of_type(tables, locals, place.location, place.of_type)?;
    let expected = of_type(tables, locals, expected, place.of_type)?;
    let desired = of_type(tables, locals, desired, place.of_type)?;
    Ok(AccessForm::Cmpxchg {
        weak: comparison.weak,
        success,
        failure,
        class,
        location,
        expected,
        desired,
    })
}

fn atomicrmw(
    tables: &Tables,
    locals: &Locals,
    given: WrittenOrder,
    op: UpdateOp,
    place: Accessed,
    operand: &Operand,
) -> Result<AccessForm, CheckFault>
    ensures { Judges (access_demands tables.now locals.now (accesses.Atomicrmw given op place.entry.of_type.now place.entry.location.now operand.now None)) (access_code tables.now locals.now (accesses.Atomicrmw given op place.entry.of_type.now place.entry.location.now operand.now None)) result }
{
    let order = order(may_update(given.order), given)?;
    let met = updates_type(tables, op, place.of_type);
    let class = tested_type(tables, place.of_type, met)?;
    let location = place_of_type(tables, locals, place.location, place.of_type)?;
    let operand = of_type(tables, locals, operand, place.of_type)?;
    Ok(AccessForm::Atomicrmw {
        order,
        op,
        class,
        location,
        operand,
    })
}

fn fence(given: WrittenOrder) -> Result<AccessForm, CheckFault>
    ensures { Judges (order_demand may_fence given) (forms.Fence given.order) result }
{
    let order = order(may_fence(given.order), given)?;
    Ok(AccessForm::Fence { order })
}

/// An instruction that reads or writes memory, or orders such accesses.
pub fn access(tables: &Tables, locals: &Locals, access: &Access) -> Result<AccessForm, CheckFault>
    ensures { Judges (access_demands tables.now locals.now access.now) (access_code tables.now locals.now access.now) result }
{
    match access {
        Access::Load {
            order,
            of_type,
            location,
            ..
        } => load(tables, locals, *order, Accessed { of_type, location }),
        Access::Store {
            order,
            of_type,
            location,
            value,
            ..
        } => store(
            tables,
            locals,
            *order,
            Accessed { of_type, location },
            value,
        ),
        Access::Cmpxchg {
            weak,
            success,
            failure,
            of_type,
            location,
            expected,
            desired,
            ..
        } => {
            let comparison = Comparison::new(*weak, *success, *failure);
            let place = Accessed { of_type, location };
            cmpxchg(tables, locals, comparison, place, expected, desired)
        }
        Access::Atomicrmw {
            order,
            op,
            of_type,
            location,
            operand,
            ..
        } => {
            let place = Accessed { of_type, location };
            atomicrmw(tables, locals, *order, *op, place, operand)
        }
        Access::Fence { order } => fence(*order),
    }
}

/// What an instruction gives that reads or writes memory.
pub fn access_gift<'a>(tables: &'a Tables, access: &Access) -> Gift<'a>
    ensures { listed tables.now result ≡ access_gives tables.now access.now }
{
    match access {
        Access::Load { of_type, .. } | Access::Atomicrmw { of_type, .. } => {
            Gift::One(tables.noted_class(of_type))
        }
        Access::Cmpxchg { of_type, .. } => {
            Gift::Two(tables.noted_class(of_type), tables.types.int1())
        }
        Access::Store { .. } | Access::Fence { .. } => Gift::Nothing,
    }
}
