// Instructions that ask the client, enter another stack or start a thread.
ghost use Rattle.std.specs.Prelude.{◌≡◌, option_copied};
ghost use Rattle.demands.specs.Demands.{Judges};
ghost use Rattle.checked_code.specs.Operands.{source_of};
ghost use Rattle.code_check.specs.Gifts.{listed};
ghost use Rattle.checked_code.specs.Stacks.{watchpoint_demand, trapping_demands, trapping_gives, trapping_code, stack_demands, threadlocal_demands, optional_source, switch_demands, switch_gives, switch_code};

use crate::destinations::{entered, normal};
use crate::gifts::Gift;
use crate::operands::{operand, value_types};
use check_tables::{CheckFault, CheckKind, Tables, fault_at};
use checked_code::{Body, Locals, Source, SwitchForm, TrappingForm};
use ir_lex::Numeral;
use ir_tree::{Operand, StackSwitch, Trapping};
use std::alloc::Global;

// ---- asking

/// The number of a watchpoint.
fn watchpoint(written: Numeral) -> Result<u32, CheckFault>
    ensures { Judges (watchpoint_demand written) written.number.magnitude result }
{
    match u32::try_from(written.number.magnitude) {
        Ok(number) if !written.number.negative => Ok(number),
        _ => Err(fault_at(CheckKind::BadIndex, written.place)),
    }
}

/// An instruction that asks the client, or that may be made to.
pub fn trapping(
    alloc: Global,
    tables: &Tables,
    body: &Body,
    locals: &Locals,
    trapping: &Trapping,
) -> Result<TrappingForm, CheckFault>
    ensures { Judges (trapping_demands tables.now body.now locals.now trapping.now) (trapping_code tables.now body.now locals.now trapping.now) result }
{
    match trapping {
        Trapping::Trap { types, .. } => Ok(TrappingForm::Trap {
            classes: value_types(alloc, tables, types.as_slice())?,
        }),
        Trapping::Watchpoint {
            number,
            types,
            disabled,
            ..
        } => Ok(TrappingForm::Watchpoint {
            number: watchpoint(*number)?,
            classes: value_types(alloc, tables, types.as_slice())?,
            disabled: normal(alloc, tables, body, locals, disabled)?,
        }),
        Trapping::Wpbranch {
            number,
            disabled,
            enabled,
        } => Ok(TrappingForm::Wpbranch {
            number: watchpoint(*number)?,
            disabled: normal(alloc, tables, body, locals, disabled)?,
            enabled: normal(alloc, tables, body, locals, enabled)?,
        }),
    }
}

/// What an instruction gives that asks the client.
pub fn trapping_gift<'a>(tables: &Tables, trapping: &'a Trapping) -> Gift<'a>
    ensures { listed tables.now result ≡ trapping_gives tables.now trapping.now }
{
    match trapping {
        Trapping::Trap { types, .. } | Trapping::Watchpoint { types, .. } => {
            Gift::Named(types.as_slice())
        }
        Trapping::Wpbranch { .. } => Gift::Nothing,
    }
}

// ---- entering

/// A reference to a stack.
pub fn stack(tables: &Tables, locals: &Locals, given: &Operand) -> Result<Source, CheckFault>
    ensures { Judges (stack_demands tables.now locals.now given.now) (source_of tables.now locals.now given.now) result }
{
    let wanted = Some(tables.types.stackref());
    operand(tables, locals, CheckKind::OperandType, given, wanted)
}

/// What a thread has of its own, where it is given.
fn threadlocal(
    tables: &Tables,
    locals: &Locals,
    given: &Option<Operand>,
) -> Result<Option<Source>, CheckFault>
    ensures { Judges (threadlocal_demands tables.now locals.now given.now) (optional_source tables.now locals.now given.now) result }
{
    match given {
        Some(given) => {
            let wanted = Some(tables.types.ref_void());
            let source = operand(tables, locals, CheckKind::OperandType, given, wanted)?;
            Ok(Some(source))
        }
        None => Ok(None),
    }
}

/// An instruction that enters another stack, or starts a thread on one.
pub fn switch(
    alloc: Global,
    tables: &Tables,
    locals: &Locals,
    switch: &StackSwitch,
) -> Result<SwitchForm, CheckFault>
    ensures { Judges (switch_demands tables.now locals.now switch.now) (switch_code tables.now locals.now switch.now) result }
{
    match switch {
        StackSwitch::SwapReturning {
            stack: given,
            types,
            entered: clause,
            ..
        } => Ok(SwitchForm::SwapReturning {
            stack: stack(tables, locals, given)?,
            classes: value_types(alloc, tables, types.as_slice())?,
            entered: entered(alloc, tables, locals, clause)?,
        }),
        StackSwitch::SwapKilling {
            stack: given,
            entered: clause,
        } => Ok(SwitchForm::SwapKilling {
            stack: stack(tables, locals, given)?,
            entered: entered(alloc, tables, locals, clause)?,
        }),
        StackSwitch::Newthread {
            stack: given,
            threadlocal: own,
            entered: clause,
            ..
        } => Ok(SwitchForm::Newthread {
            stack: stack(tables, locals, given)?,
            threadlocal: threadlocal(tables, locals, own)?,
            entered: entered(alloc, tables, locals, clause)?,
        }),
    }
}

/// What an instruction gives that enters another stack, or starts a thread on one.
pub fn switch_gift<'a>(tables: &Tables, switch: &'a StackSwitch) -> Gift<'a>
    ensures { listed tables.now result ≡ switch_gives tables.now switch.now }
{
    match switch {
        StackSwitch::SwapReturning { types, .. } => Gift::Named(types.as_slice()),
        StackSwitch::SwapKilling { .. } => Gift::Nothing,
        StackSwitch::Newthread { .. } => Gift::One(tables.types.threadref()),
    }
}
