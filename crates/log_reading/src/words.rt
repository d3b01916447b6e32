// The words of an event line.
ghost use Rattle.std.specs.Prelude.{◌≡◌, List, map};
ghost use Rattle.log_lines.specs.Words.{look_up, kind_words, order_words, is_order_of, is_fence_order, order};

use log_lines::{KindWord, LogKind};
use mem_axioms::Mode;
use mu_base::Order;

/// A word and what it says.
type Row<T> = (&'static [u8], T);

static KINDS: [Row<KindWord>; 10] = [
    (b"read", KindWord::Access { mode: Mode::Read }),
    (b"write", KindWord::Access { mode: Mode::Write }),
    (b"update", KindWord::Access { mode: Mode::Update }),
    (b"fence", KindWord::Fence),
    (b"stack", KindWord::NewStack),
    (b"thread", KindWord::NewThread),
    (b"leave", KindWord::Leave),
    (b"enter", KindWord::Enter),
    (b"wake", KindWord::Wake),
    (b"woken", KindWord::Woken),
];

static ORDERS: [Row<Order>; 7] = [
    (b"NOT_ATOMIC", Order::NotAtomic),
    (b"RELAXED", Order::Relaxed),
    (b"CONSUME", Order::Consume),
    (b"ACQUIRE", Order::Acquire),
    (b"RELEASE", Order::Release),
    (b"ACQ_REL", Order::AcqRel),
    (b"SEQ_CST", Order::SeqCst),
];

// What the first row with that word says.
fn look_up<T: Copy>(mut rows: &[Row<T>], field: &[u8]) -> Result<T, LogKind>
    ensures { result ≡ look_up (map (λ r. (r.0.now, r.1)) rows.entry.now) field.now }
{
    while let [row, rest @ ..] = rows {
        if row.0 == field {
            return Ok(row.1);
        }
        rows = rest;
    }
    Err(LogKind::Unexpected)
}

/// The word that says what happened.
pub fn kind_word(field: &[u8]) -> Result<KindWord, LogKind>
    ensures { result ≡ look_up kind_words field.now }
{
    look_up(&KINDS, field)
}

// ---- orders

fn is_order_of(mode: Mode, order: Order) -> bool
    ensures { result ≡ is_order_of mode order }
{
    match mode {
        Mode::Read => !matches!(order, Order::Release | Order::AcqRel),
        Mode::Write => !matches!(order, Order::Consume | Order::Acquire | Order::AcqRel),
        Mode::Update => !matches!(order, Order::NotAtomic),
    }
}

fn is_fence_order(order: Order) -> bool
    ensures { result ≡ is_fence_order order }
{
    !matches!(order, Order::NotAtomic | Order::Relaxed | Order::Consume)
}

/// An order that such an access may have.
pub fn access_order(mode: Mode, field: &[u8]) -> Result<Order, LogKind>
    ensures { result ≡ order (is_order_of mode) field.now }
{
    let order = look_up(&ORDERS, field)?;
    if is_order_of(mode, order) {
        Ok(order)
    } else {
        Err(LogKind::Unexpected)
    }
}

/// An order that a fence may have.
pub fn fence_order(field: &[u8]) -> Result<Order, LogKind>
    ensures { result ≡ order is_fence_order field.now }
{
    let order = look_up(&ORDERS, field)?;
    if is_fence_order(order) {
        Ok(order)
    } else {
        Err(LogKind::Unexpected)
    }
}
