// Instructions that say where the function goes on, or that enter or leave one.
ghost use Rattle.std.specs.Prelude.{◌≡◌, ◌++◌, OnOk};
ghost use Rattle.std.specs.List.{flat_map};
ghost use Rattle.ir_print.specs.Words.{text, spaced};
ghost use Rattle.ir_print.specs.Control.{switch_case_words, case_list_words, control_words};

use crate::lists::{bracketed, dest, exc_and_keep, value, values};
use crate::spellings::spelling;
use crate::words::{name, put};
use ir_tree::{Case, ControlFlow};
use std::alloc::AllocError;
use text_forms::Symbol;

#[tactic(auto, unfolding(crate::specs::Control::switch_case_words))]
fn switch_case(out: &mut Vec<u8>, space: &[u8], case: &Case) -> Result<(), AllocError>
    ensures { OnOk result (out.new.items ≡ out.old.items ++ text (switch_case_words space.now case.now)) }
{
    name(out, space, &case.constant)?;
    dest(out, b" ", &case.destination)?;
    Ok(())
}

fn each_case(out: &mut Vec<u8>, cases: &[Case]) -> Result<(), AllocError>
    ensures { OnOk result (out.new.items ≡ out.old.items ++ flat_map (λ x. text (switch_case_words spaced x)) cases.now) }
{
    for one in cases {
        switch_case(out, b" ", one)?;
    }
    Ok(())
}

fn cases(out: &mut Vec<u8>, cases: &[Case]) -> Result<(), AllocError>
    ensures { OnOk result (out.new.items ≡ out.old.items ++ text (flat_map (switch_case_words spaced) cases.now)) }
{
    each_case(out, cases)?;
    Ok(())
}

#[tactic(auto, using(crate::specs::Lemmas::Texts::text_append), unfolding(crate::specs::Control::case_list_words))]
fn case_list(out: &mut Vec<u8>, space: &[u8], listed: &[Case]) -> Result<(), AllocError>
    ensures { OnOk result (out.new.items ≡ out.old.items ++ text (case_list_words space.now listed.now)) }
{
    put(out, space, b"{")?;
    cases(out, listed)?;
    out.extend_from_slice(b" }")?;
    Ok(())
}

#[tactic(auto, using(crate::specs::Lemmas::Texts::text_append), unfolding(crate::specs::Control::control_words))]
pub fn control(out: &mut Vec<u8>, space: &[u8], control: &ControlFlow) -> Result<(), AllocError>
    ensures { OnOk result (out.new.items ≡ out.old.items ++ text (control_words space.now control.now)) }
{
    match control {
        ControlFlow::Branch { destination } => {
            put(out, space, spelling(Symbol::Branch))?;
            dest(out, b" ", destination)?;
        }
        ControlFlow::Branch2 {
            condition,
            if_one,
            if_zero,
        } => {
            put(out, space, spelling(Symbol::Branch2))?;
            value(out, b" ", condition)?;
            dest(out, b" ", if_one)?;
            dest(out, b" ", if_zero)?;
        }
        ControlFlow::Switch {
            of_type,
            operand,
            default,
            cases: listed,
        } => {
            put(out, space, spelling(Symbol::Switch))?;
            bracketed(out, b" ", of_type)?;
            value(out, b" ", operand)?;
            dest(out, b" ", default)?;
            case_list(out, b" ", listed.as_slice())?;
        }
        ControlFlow::Call {
            signature,
            callee,
            arguments,
            exception,
            keepalive,
        } => {
            put(out, space, spelling(Symbol::Call))?;
            bracketed(out, b" ", signature)?;
            value(out, b" ", callee)?;
            values(out, b" ", arguments)?;
            exc_and_keep(out, exception, keepalive)?;
        }
        ControlFlow::Tailcall {
            signature,
            callee,
            arguments,
        } => {
            put(out, space, spelling(Symbol::Tailcall))?;
            bracketed(out, b" ", signature)?;
            value(out, b" ", callee)?;
            values(out, b" ", arguments)?;
        }
        ControlFlow::Ret { values: arguments } => {
            put(out, space, spelling(Symbol::Ret))?;
            values(out, b" ", arguments)?;
        }
        ControlFlow::Throw { exception } => {
            put(out, space, spelling(Symbol::Throw))?;
            value(out, b" ", exception)?;
        }
    }
    Ok(())
}
