// Instructions in their block.
ghost use Rattle.std.specs.Prelude.{◌≡◌, false, length, OnOk};
ghost use Rattle.demands.specs.Demands.{Judges};
ghost use Rattle.code_check.specs.Gifts.{listed};
ghost use Rattle.checked_code.specs.Instructions.{op_demands, gives, form_of, after, inst_demands, inst_code, insts_demands, insts_code, after_all, ends};

use crate::accesses::{access, access_gift};
use crate::binding::bind_results;
use crate::clauses::{exceptional_of, is_ending, keepalive_of, normal_of};
use crate::commons::{common, common_gift};
use crate::computations::{computation, computation_gift};
use crate::control::{control, control_gift};
use crate::destinations::{keepalive, optional_exceptional, optional_normal};
use crate::gifts::Gift;
use crate::objects::{addressing, addressing_gift, allocation, allocation_gift};
use crate::stacks::{switch, switch_gift, trapping, trapping_gift};
use check_tables::{CheckFault, CheckKind, Tables, fault_at};
use checked_code::{Body, Code, Form, Locals};
use ir_tree::{Inst, Op};
use std::alloc::Global;
use text_forms::Listing;

/// What an instruction does, by its kind.
fn form(
    alloc: Global,
    tables: &Tables,
    body: &Body,
    locals: &Locals,
    op: &Op,
) -> Result<Form, CheckFault>
    ensures { Judges (op_demands tables.now body.now locals.now op.now) (form_of tables.now body.now locals.now op.now) result }
{
    match op {
        Op::Computation(op) => Ok(Form::Computation(computation(tables, locals, op)?)),
        Op::ControlFlow(op) => Ok(Form::Control(control(alloc, tables, body, locals, op)?)),
        Op::Allocation(op) => Ok(Form::Allocation(allocation(tables, locals, op)?)),
        Op::Addressing(op) => Ok(Form::Addressing(addressing(tables, locals, op)?)),
        Op::Access(op) => Ok(Form::Access(access(tables, locals, op)?)),
        Op::Trapping(op) => Ok(Form::Trapping(trapping(alloc, tables, body, locals, op)?)),
        Op::StackSwitch(op) => Ok(Form::Switch(switch(alloc, tables, locals, op)?)),
        Op::Common(op) => Ok(Form::Common(common(tables, locals, op)?)),
    }
}

/// What an instruction gives.
fn gift<'a>(tables: &'a Tables, op: &'a Op) -> Gift<'a>
    ensures { listed tables.now result ≡ gives tables.now op.now }
{
    match op {
        Op::Computation(op) => computation_gift(tables, op),
        Op::ControlFlow(op) => control_gift(tables, op),
        Op::Allocation(op) => allocation_gift(tables, op),
        Op::Addressing(op) => addressing_gift(tables, op),
        Op::Access(op) => access_gift(tables, op),
        Op::Trapping(op) => trapping_gift(tables, op),
        Op::StackSwitch(op) => switch_gift(tables, op),
        Op::Common(op) => common_gift(tables, op),
    }
}

/// How many results there are.
fn count(tables: &Tables, gift: Gift<'_>) -> usize
    ensures { result ≡ length (listed tables.now gift.entry) }
{
    match gift {
        Gift::Nothing => 0,
        Gift::One(_) => 1,
        Gift::Two(_, _) => 2,
        Gift::Listed(classes) => classes.len(),
        Gift::Named(types) => types.len(),
    }
}

/// An instruction, behind an ending one or not. Its results are variables from then on, and where it goes on with them already.
#[tactic(auto, unfolding(checked_code::specs::Instructions::inst_demands))]
fn inst(
    alloc: Global,
    tables: &Tables,
    body: &Body,
    locals: &mut Locals,
    ended: bool,
    inst: &Inst,
) -> Result<Code, CheckFault>
    ensures judged { Judges (inst_demands tables.now body.now locals.old ended inst.now) (inst_code tables.now body.now locals.old inst.now) result }
    ensures ok { OnOk result (locals.new ≡ after tables.now locals.old inst.now) }
{
    if ended {
        return Err(fault_at(CheckKind::AfterEnding, inst.place));
    }
    let given = gift(tables, &inst.op);
    if inst.results.len() != count(tables, given) {
        return Err(fault_at(CheckKind::ResultCount, inst.place));
    }
    let form = form(alloc, tables, body, locals, &inst.op)?;
    let exceptional = optional_exceptional(alloc, tables, body, locals, exceptional_of(&inst.op));
    let keepalive = keepalive(alloc, locals, keepalive_of(&inst.op));
    bind_results(alloc, tables, locals, inst.results.as_slice(), given)?;
    let normal = optional_normal(alloc, tables, body, locals, normal_of(&inst.op))?;
    Ok(Code {
        form,
        normal,
        exceptional: exceptional?,
        keepalive: keepalive?,
    })
}

/// The instructions of a block, and whether the last of them ends it. Their results are variables from then on.
pub fn insts(
    alloc: Global,
    tables: &Tables,
    body: &Body,
    locals: &mut Locals,
    insts: &[Inst],
) -> Result<(Listing<Code>, bool), CheckFault>
    ensures judged { Judges (insts_demands tables.now body.now locals.old false insts.now) (insts_code tables.now body.now locals.old insts.now, ends false insts.now) result }
    ensures ok { OnOk result (locals.new ≡ after_all tables.now locals.old insts.now) }
{
    let mut code = Listing::new(alloc);
    let mut ended = false;
    let mut left = insts;
    'each: while let [first, more @ ..] = left {
        code.push(inst(alloc, tables, body, locals, ended, first)?)?;
        ended = is_ending(&first.op);
        left = more;
    }
    Ok((code, ended))
}
