// The bits of the constants of the cases of a SWITCH, in a row, so that a step looks at 16 bytes a case.
ghost use Rattle.std.specs.Prelude.{◌≡◌, ◌+◌, ◌<◌, ◌≤◌, List, [], Some, IsSome, IsSomeAnd, IfSome, IfOk, OnOk, length, map, slice_get};
ghost use Rattle.mu_values.specs.SameScalar.{same_scalar};
ghost use Rattle.ir_tree.specs.declared.items.Item.{Item};
ghost use Rattle.checked_code.specs.Constants.{constant_values};
ghost use Rattle.checked_code.specs.Checking.{bundle_tables};
ghost use Rattle.mu_model.specs.Acts as acts;
ghost use Rattle.mu_model.specs.Operands.{scalar_in};
ghost use Rattle.mu_model.specs.ControlForms.{switch_act};
ghost use Rattle.model_numbers.specs.Sources.{value_at, goal_at};
ghost use Rattle.model_numbers.specs.Forms.{arm_at};
ghost use Rattle.step_forms.specs.CaseRows.{bits_of, bits_in, constant_bits, case_bits, cases_at, AreRows};

use crate::control::{SwitchOperands, arrive, is_equal};
use crate::frame_view::FrameView;
use crate::operands::{constant, lent, scalar};
use crate::variables::Variables;
use checked_code::{CaseForm, Checked};
use mu_values::{Scalar, Slots};
use std::alloc::{AllocError, Global};
use std::marker::Model;

/// The bits of an integer, and 0 of other scalars.
#[inline]
fn bits_of(scalar: &Scalar) -> u128
    ensures { result ≡ bits_of scalar.now }
{
    match scalar {
        Scalar::Int { bits, .. } => *bits,
        _ => 0,
    }
}

/// The bits of a value of one integer, and 0 of other values.
fn bits_in(value: &[Scalar]) -> u128
    ensures { result ≡ bits_in (Some value.now) }
{
    match value {
        [scalar] => bits_of(scalar),
        _ => 0,
    }
}

/// The bits of a constant, and 0 where there is none: a case after the first equal one need not have a constant by any contract.
#[tactic(auto, using(crate::specs::CaseRows::constants))]
fn constant_bits(code: &Checked, n: u32) -> u128
    ensures { result ≡ constant_bits code.now n }
{
    if (n as usize) < code.constants() {
        bits_in(code.constant(n).as_slice())
    } else {
        0
    }
}

/// The bits of the constants of cases, in their order.
fn row_of(alloc: Global, code: &Checked, cases: &[CaseForm]) -> Result<Vec<u128>, AllocError>
    ensures { IfOk result (λ row. row.items ≡ map (case_bits code.now) cases.now) }
{
    let mut row = Vec::with_capacity(alloc, cases.len())?;
    let mut left = cases;
    'each: while let [case, more @ ..] = left {
        row.push(constant_bits(code, case.constant))?;
        left = more;
    }
    Ok(row)
}

/// Whether a scalar is the value of constant `n`. `bits` are its bits and `other` those of the constant: of one type, those that differ
/// do so there.
#[tactic(auto, using(crate::specs::CaseRows::bits, crate::specs::OperandLaws::operands))]
#[inline(always)]
fn is_constant(code: &Checked, wanted: &Scalar, bits: u128, other: u128, n: u32) -> bool
    requires there { IsSome (scalar_in (slice_get (constant_values (bundle_tables code.now) code.now) n)) }
    requires bits { bits ≡ bits_of wanted.now }
    requires other { other ≡ constant_bits code.now n }
    ensures { IsSomeAnd (scalar_in (slice_get (constant_values (bundle_tables code.now) code.now) n)) (λ c. result ≡ same_scalar wanted.now c) }
{
    bits == other && is_equal(wanted, lent(constant(code, n)))
}

/// SWITCH, with the bits of its constants in a row. It looks at the cases in order, up to the first that is equal. None comes
/// only where no memory is found.
#[tactic(auto, using(crate::specs::OperandLaws::operands))]
fn arrive_by_row(
    code: &Checked,
    vars: &Variables,
    operands: SwitchOperands,
    row: &[u128],
    values: &mut Slots,
) -> Option<u32>
    requires there { IsSome (switch_act (value_at code.now vars.now operands.operand) (goal_at code.now vars.now operands.default.now) (map (arm_at code.now vars.now) operands.cases.now)) }
    requires row { row.now ≡ map (case_bits code.now) operands.cases.now }
    ensures { IfSome result (λ block. switch_act (value_at code.now vars.now operands.entry.operand) (goal_at code.now vars.now operands.entry.default.now) (map (arm_at code.now vars.now) operands.entry.cases.now) ≡ Some (acts.Goes (record { block = block; values = values.new.values }))) }
{
    let wanted = scalar(code, vars, operands.operand);
    let bits = bits_of(&wanted);
    let mut left = operands.cases;
    let mut others = row;
    'cases: while let [other, rest @ ..] = others {
        let [case, more @ ..] = left else {
            unreachable!()
        };
        if is_constant(code, &wanted, bits, *other, case.constant) {
            return arrive(code, vars, &case.target, values);
        }
        left = more;
        others = rest;
    }
    arrive(code, vars, operands.default, values)
}

/// What is kept of a block: the bits of the constants of the SWITCH that stands at a place of it. There is one at most, which
/// ends the block.
#[derive(Drop)]
pub(crate) struct Row {
    pub at: u32,
    pub bits: Vec<u128>,
}

/// Rows of the constants of each SWITCH that was come to, by block. Contracts see the bundle. A row is made once, when it is first
/// asked for, so that a run which comes to no SWITCH takes no memory for them; where none is found it is asked for again the next time.
#[derive(Drop)]
pub struct CaseRows<'a> {
    alloc: Global,
    code: &'a Checked,
    rows: Vec<Option<Row>>,
}

impl<'a> Model for CaseRows<'a> {
    ghost use Rattle.std.specs.Prelude.{List};
    ghost use Rattle.ir_tree.specs.declared.items.Item.{Item};
    ghost use Rattle.step_forms.specs.CaseRows.{AreRows};

    ghost Value = { List Item };

    ghost view = { λ r. r.code.now };

    ghost invariant = { λ r. AreRows r.code.now r.rows.items };
}

/// What is kept of a block.
#[inline]
fn kept(rows: &[Option<Row>], block: usize) -> &Option<Row>
    requires { block < length rows.now }
    ensures { slice_get rows.now block ≡ Some result.now }
{
    &rows[block]
}

/// Adds rows that are not made yet, until there is one of this block.
#[tactic(auto, using(crate::specs::CaseRows::rows))]
fn reach(rows: &mut Vec<Option<Row>>, block: usize) -> Result<(), AllocError>
    ensures rows { (bundle : List Item) → AreRows bundle rows.old.items → AreRows bundle rows.new.items }
    ensures there { OnOk result (block < length rows.new.items) }
{
    while rows.len() <= block {
        rows.push(None)?;
    }
    Ok(())
}

impl<'a> CaseRows<'a> {
    /// No rows. It takes no memory yet.
    #[tactic(auto, using(crate::specs::CaseRows::rows))]
    pub fn new(alloc: Global, code: &'a Checked) -> CaseRows<'a>
        ensures { result ≡ code.now }
    {
        CaseRows {
            alloc,
            code,
            rows: Vec::new(alloc),
        }
    }

    /// The row of the SWITCH at a place, where it was made.
    #[tactic(auto, using(crate::specs::CaseRows::found))]
    #[inline]
    fn row(&self, block: u32, at: u32) -> Option<&[u128]>
        ensures { IfSome result (λ row. row.now ≡ map (case_bits self.now) (cases_at self.now block at)) }
    {
        let block = block as usize;
        if block >= self.rows.len() {
            return None;
        }
        match kept(&self.rows, block) {
            Some(row) if row.at == at => Some(row.bits.as_slice()),
            _ => None,
        }
    }

    /// Makes the row of the SWITCH at a place, which has these cases.
    #[tactic(auto, using(crate::specs::CaseRows::rows))]
    #[cold]
    #[inline(never)]
    fn make(&mut self, block: u32, at: u32, cases: &[CaseForm]) -> Result<(), AllocError>
        requires { cases.now ≡ cases_at self.old block at }
        ensures { self.new ≡ self.old }
    {
        reach(&mut self.rows, block as usize)?;
        let bits = row_of(self.alloc, self.code, cases)?;
        self.rows[block as usize] = Some(Row { at, bits });
        Ok(())
    }

    /// The block that the SWITCH at a place goes to, with the values for it in the list. None comes only where no memory is found.
    pub(crate) fn arrive(
        &mut self,
        code: &Checked,
        view: FrameView,
        operands: SwitchOperands,
        values: &mut Slots,
    ) -> Option<u32>
        requires code { self.old ≡ code.now }
        requires place { operands.cases.now ≡ cases_at code.now view.block view.at }
        requires there { IsSome (switch_act (value_at code.now view.vars.now operands.operand) (goal_at code.now view.vars.now operands.default.now) (map (arm_at code.now view.vars.now) operands.cases.now)) }
        ensures goes { IfSome result (λ block. switch_act (value_at code.now view.entry.vars.now operands.entry.operand) (goal_at code.now view.entry.vars.now operands.entry.default.now) (map (arm_at code.now view.entry.vars.now) operands.entry.cases.now) ≡ Some (acts.Goes (record { block = block; values = values.new.values }))) }
        ensures same { self.new ≡ self.old }
    {
        if self.row(view.block, view.at).is_none() {
            self.make(view.block, view.at, operands.cases).ok()?;
        }
        let row = self.row(view.block, view.at)?;
        arrive_by_row(code, view.vars, operands, row, values)
    }
}
