// Events.
ghost use Rattle.std.specs.Prelude.{◌≡◌, ◌++◌, OnOk, OnErr, codes, decimal};
ghost use Rattle.mu_base.specs.Files.{IsPrefix};
ghost use Rattle.mem_axioms.specs.declared.types.Kind.TheVariants as kinds;
ghost use Rattle.run_texts.specs.EventTexts.{order_text, mode_text, kind_text, cell_text, scalar_text, thread_text};

use crate::numbers::{number_text, numbered, worded_cell};
use crate::values::spaced_scalar;
use checked_code::Checked;
use mem_axioms::{Event, Kind, Mode};
use mu_base::Order;
use mu_values::{CellId, Scalar};
use std::alloc::AllocError;

// The name of a memory order.
fn order_name(order: Order) -> &'static str
    ensures { result.now ≡ order_text order }
{
    match order {
        Order::NotAtomic => "NOT_ATOMIC",
        Order::Relaxed => "RELAXED",
        Order::Consume => "CONSUME",
        Order::Acquire => "ACQUIRE",
        Order::Release => "RELEASE",
        Order::AcqRel => "ACQ_REL",
        Order::SeqCst => "SEQ_CST",
    }
}

// What an access does, with a space behind it.
fn mode_name(mode: Mode) -> &'static str
    ensures { result.now ≡ mode_text mode }
{
    match mode {
        Mode::Read => "read ",
        Mode::Write => "write ",
        Mode::Update => "update ",
    }
}

// Appends words, and a memory order behind them. Where no memory is found a part of it may have been appended.
#[tactic(auto, using(mu_base::specs::Prefixes::prefix_self, mu_base::specs::Prefixes::prefix_longer))]
fn ordered(words: &[u8], order: Order, out: &mut Vec<u8>) -> Result<(), AllocError>
    ensures appended { OnOk result (out.new.items ≡ out.old.items ++ (words.now ++ order_text order)) }
    ensures begins { OnErr result (IsPrefix out.old.items out.new.items) }
{
    out.extend_from_slice(words)?;
    out.extend_from_slice(order_name(order).as_bytes())
}

// Appends words, a cell and a number. Where no memory is found a part of it may have been appended.
#[tactic(auto, using(mu_base::specs::Prefixes::prefix_self, mu_base::specs::Prefixes::prefix_longer, mu_base::specs::Prefixes::prefix_again))]
fn counted_cell(words: &[u8], cell: CellId, n: u32, out: &mut Vec<u8>) -> Result<(), AllocError>
    ensures appended { OnOk result (out.new.items ≡ out.old.items ++ (words.now ++ cell_text cell ++ codes " " ++ decimal n)) }
    ensures begins { OnErr result (IsPrefix out.old.items out.new.items) }
{
    worded_cell(words, cell, out)?;
    numbered(b" ", n, out)
}

// Appends the part of an access behind its order. Where no memory is found a part of it may have been appended.
#[tactic(auto, using(mu_base::specs::Prefixes::prefix_self, mu_base::specs::Prefixes::prefix_longer, mu_base::specs::Prefixes::prefix_again))]
fn accessed(
    code: &Checked,
    cell: CellId,
    position: u32,
    value: &Scalar,
    out: &mut Vec<u8>,
) -> Result<(), AllocError>
    ensures appended { OnOk result (out.new.items ≡ out.old.items ++ (codes " " ++ cell_text cell ++ codes " " ++ decimal position ++ codes " " ++ scalar_text code.now value.now)) }
    ensures begins { OnErr result (IsPrefix out.old.items out.new.items) }
{
    counted_cell(b" ", cell, position, out)?;
    spaced_scalar(code, value, out)
}

// Appends what happened. Where no memory is found a part of it may have been appended.
#[tactic(auto, using(mu_base::specs::Prefixes::prefix_self, mu_base::specs::Prefixes::prefix_longer, mu_base::specs::Prefixes::prefix_again))]
fn kind_text(code: &Checked, kind: &Kind, out: &mut Vec<u8>) -> Result<(), AllocError>
    ensures appended { OnOk result (out.new.items ≡ out.old.items ++ kind_text code.now kind.now) }
    ensures begins { OnErr result (IsPrefix out.old.items out.new.items) }
{
    match *kind {
        Kind::Access {
            mode,
            cell,
            order,
            position,
            value,
        } => {
            ordered(mode_name(mode).as_bytes(), order, out)?;
            accessed(code, cell, position, &value, out)
        }
        Kind::Fence { order } => ordered(b"fence ", order, out),
        Kind::NewStack { stack } => numbered(b"stack s", stack, out),
        Kind::NewThread { child } => numbered(b"thread t", child, out),
        Kind::Leave { stack } => numbered(b"leave s", stack, out),
        Kind::Enter { stack } => numbered(b"enter s", stack, out),
        Kind::Wake { cell, count } => counted_cell(b"wake ", cell, count, out),
        Kind::Woken { wake } => numbered(b"woken ", wake, out),
    }
}

/// Appends what happened behind a space. Where no memory is found a part of it may have been appended.
#[tactic(auto, using(mu_base::specs::Prefixes::prefix_self, mu_base::specs::Prefixes::prefix_longer, mu_base::specs::Prefixes::prefix_again))]
pub fn spaced_kind(code: &Checked, kind: &Kind, out: &mut Vec<u8>) -> Result<(), AllocError>
    ensures appended { OnOk result (out.new.items ≡ out.old.items ++ (codes " " ++ kind_text code.now kind.now)) }
    ensures begins { OnErr result (IsPrefix out.old.items out.new.items) }
{
    out.extend_from_slice(b" ")?;
    kind_text(code, kind, out)
}

// Appends the number of an event and its thread. Where no memory is found a part of it may have been appended.
#[tactic(auto, using(mu_base::specs::Prefixes::prefix_self, mu_base::specs::Prefixes::prefix_longer, mu_base::specs::Prefixes::prefix_again))]
fn event_head(number: u32, thread: u32, out: &mut Vec<u8>) -> Result<(), AllocError>
    ensures appended { OnOk result (out.new.items ≡ out.old.items ++ (decimal number ++ codes " " ++ thread_text thread)) }
    ensures begins { OnErr result (IsPrefix out.old.items out.new.items) }
{
    number_text(number, out)?;
    numbered(b" t", thread, out)
}

/// Appends an event behind its number, without its line feed. Where no memory is found a part of it may have been appended.
#[tactic(auto, using(mu_base::specs::Prefixes::prefix_self, mu_base::specs::Prefixes::prefix_longer, mu_base::specs::Prefixes::prefix_again))]
pub fn event_text(
    code: &Checked,
    number: u32,
    event: &Event,
    out: &mut Vec<u8>,
) -> Result<(), AllocError>
    ensures appended { OnOk result (out.new.items ≡ out.old.items ++ (decimal number ++ codes " " ++ thread_text event.now.thread ++ codes " " ++ kind_text code.now event.now.kind)) }
    ensures begins { OnErr result (IsPrefix out.old.items out.new.items) }
{
    event_head(number, event.thread, out)?;
    spaced_kind(code, &event.kind, out)
}
