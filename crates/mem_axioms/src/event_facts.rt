//! What an event is: the tests of the definitions, of one event. Each takes constant time and no memory.
ghost use Rattle.std.specs.Prelude.{◌≡◌, ◌&&◌, ◌||◌, true, false, MatchOption};
ghost use Rattle.mu_values.specs.SameScalar.{same_scalar};
ghost use Rattle.mu_values.specs.declared.cells.CellId.{CellId};
ghost use Rattle.mu_values.specs.SameCell.{same_cell};
ghost use Rattle.mem_axioms.specs.Events.{is_atomic, is_seq_cst, loads, accesses, modifies, is_update, is_modification, order_of, position_of, position_taken, is_fence, is_seq_cst_fence, is_wake};
ghost use Rattle.mem_axioms.specs.Synchronizes.{acquires, releases, gives_up, makes_thread};

use crate::types::{Event, Kind, Mode};
use mu_base::Order;
use mu_values::{CellId, Scalar};

/// Whether two cells are one.
pub fn is_same_cell(a: CellId, b: CellId) -> bool
    ensures { result ≡ same_cell a b }
{
    a.object == b.object && a.at == b.at
}

/// Whether two scalars are one.
pub fn is_same_scalar(a: Scalar, b: Scalar) -> bool
    ensures { result ≡ same_scalar a b }
{
    match (a, b) {
        (Scalar::Int { width, bits }, Scalar::Int { width: w, bits: b }) => width == w && bits == b,
        (Scalar::Null, Scalar::Null) => true,
        (Scalar::Object(object), Scalar::Object(other)) => object == other,
        (Scalar::Place { object, at }, Scalar::Place { object: o, at: a }) => object == o
            && at == a,
        (Scalar::Func(function), Scalar::Func(other)) => function == other,
        (Scalar::Stack(stack), Scalar::Stack(other)) => stack == other,
        (Scalar::Thread(thread), Scalar::Thread(other)) => thread == other,
        _ => false,
    }
}

/// Whether an access with this order is atomic.
pub fn atomic(order: Order) -> bool
    ensures { result ≡ is_atomic order }
{
    !matches!(order, Order::NotAtomic)
}

/// Whether the order is SEQ_CST.
pub fn seq_cst(order: Order) -> bool
    ensures { result ≡ is_seq_cst order }
{
    matches!(order, Order::SeqCst)
}

/// Whether a read, update or fence with this order is an acquire.
pub fn acquire(order: Order) -> bool
    ensures { result ≡ acquires order }
{
    matches!(
        order,
        Order::Consume | Order::Acquire | Order::AcqRel | Order::SeqCst
    )
}

/// Whether a write, update or fence with this order is a release.
pub fn release(order: Order) -> bool
    ensures { result ≡ releases order }
{
    matches!(order, Order::Release | Order::AcqRel | Order::SeqCst)
}

/// The cell that the event accesses, if it is an access.
pub fn cell_of(event: &Event) -> Option<CellId>
    ensures { MatchOption result ((cell : CellId) → accesses cell event.now ≡ false) (λ cell. accesses cell event.now ≡ true) }
{
    match event.kind {
        Kind::Access { cell, .. } => Some(cell),
        _ => None,
    }
}

/// Whether the event is an access of the cell.
pub fn is_of_cell(event: &Event, cell: CellId) -> bool
    ensures { result ≡ accesses cell event.now }
{
    match event.kind {
        Kind::Access { cell: other, .. } => is_same_cell(other, cell),
        _ => false,
    }
}

/// Whether the event writes or updates the cell.
pub fn modifies_cell(event: &Event, cell: CellId) -> bool
    ensures { result ≡ modifies cell event.now }
{
    match event.kind {
        Kind::Access {
            mode,
            cell: other,
            ..
        } => !matches!(mode, Mode::Read) && is_same_cell(other, cell),
        _ => false,
    }
}

/// Whether the event writes or updates a cell.
pub fn modification(event: &Event) -> bool
    ensures { result ≡ is_modification event.now }
{
    match event.kind {
        Kind::Access { mode, .. } => !matches!(mode, Mode::Read),
        _ => false,
    }
}

/// Whether the event is an update.
pub fn update(event: &Event) -> bool
    ensures { result ≡ is_update event.now }
{
    match event.kind {
        Kind::Access { mode, .. } => matches!(mode, Mode::Update),
        _ => false,
    }
}

/// The order of an access or a fence. Of any other event it is NOT_ATOMIC.
pub fn order_in(event: &Event) -> Order
    ensures { result ≡ order_of event.now }
{
    match event.kind {
        Kind::Access { order, .. } => order,
        Kind::Fence { order } => order,
        _ => Order::NotAtomic,
    }
}

/// The position that an access reads or makes. Of any other event it is 0.
pub fn position_in(event: &Event) -> u32
    ensures { result ≡ position_of event.now }
{
    match event.kind {
        Kind::Access { position, .. } => position,
        _ => 0,
    }
}

/// The position whose value a read or update takes: an update takes the one under its own. Of an event that is no access it
/// is 0.
pub fn taken_by(event: &Event) -> u32
    ensures { result ≡ position_taken event.now }
{
    match event.kind {
        Kind::Access {
            mode: Mode::Update,
            position,
            ..
        } => position.saturating_sub(1),
        Kind::Access { position, .. } => position,
        _ => 0,
    }
}

/// Whether the event is a fence.
pub fn fence(event: &Event) -> bool
    ensures { result ≡ is_fence event.now }
{
    matches!(event.kind, Kind::Fence { .. })
}

/// Whether the event is a SEQ_CST fence.
pub fn seq_cst_fence(event: &Event) -> bool
    ensures { result ≡ is_seq_cst_fence event.now }
{
    fence(event) && seq_cst(order_in(event))
}

/// Whether the event leaves or makes the stack.
pub fn gives_up_stack(event: &Event, stack: u32) -> bool
    ensures { result ≡ gives_up stack event.now }
{
    match event.kind {
        Kind::Leave { stack: left } => left == stack,
        Kind::NewStack { stack: made } => made == stack,
        _ => false,
    }
}

/// Whether the event makes the thread.
pub fn makes(event: &Event, thread: u32) -> bool
    ensures { result ≡ makes_thread thread event.now }
{
    match event.kind {
        Kind::NewThread { child } => child == thread,
        _ => false,
    }
}

/// Whether the event is a wake.
pub fn wake(event: &Event) -> bool
    ensures { result ≡ is_wake event.now }
{
    matches!(event.kind, Kind::Wake { .. })
}
