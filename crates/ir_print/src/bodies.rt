// Functions' bodies.
ghost use Rattle.std.specs.Prelude.{◌≡◌, ◌++◌, OnOk};
ghost use Rattle.std.specs.List.{flat_map};
ghost use Rattle.ir_print.specs.Words.{text, spaced, on_new_line, indented, listed, optional_words};
ghost use Rattle.ir_print.specs.Instructions.{inst_words};
ghost use Rattle.ir_print.specs.Bodies.{pair_words, handler_words, head_words, block_words, body_words};

use crate::instructions::inst;
use crate::lists::bracketed;
use crate::words::{name, put};
use ir_lex::Name;
use ir_tree::{Block, BlockHead, Inst, Parameter};
use std::alloc::AllocError;

#[tactic(auto, using(crate::specs::Lemmas::Texts::text_append), unfolding(crate::specs::Bodies::pair_words))]
fn pair(out: &mut Vec<u8>, space: &[u8], parameter: &Parameter) -> Result<(), AllocError>
    ensures { OnOk result (out.new.items ≡ out.old.items ++ text (pair_words space.now parameter.now)) }
{
    bracketed(out, space, &parameter.of_type)?;
    name(out, b" ", &parameter.name)?;
    Ok(())
}

// Parameters, each behind a space.
fn each_pair(out: &mut Vec<u8>, parameters: &[Parameter]) -> Result<(), AllocError>
    ensures { OnOk result (out.new.items ≡ out.old.items ++ flat_map (λ x. text (pair_words spaced x)) parameters.now) }
{
    for one in parameters {
        pair(out, b" ", one)?;
    }
    Ok(())
}

fn more_pairs(out: &mut Vec<u8>, parameters: &[Parameter]) -> Result<(), AllocError>
    ensures { OnOk result (out.new.items ≡ out.old.items ++ text (flat_map (pair_words spaced) parameters.now)) }
{
    each_pair(out, parameters)?;
    Ok(())
}

#[tactic(auto, using(crate::specs::Lemmas::Texts::text_append), unfolding(crate::specs::Words::listed))]
fn pairs(out: &mut Vec<u8>, parameters: &[Parameter]) -> Result<(), AllocError>
    ensures { OnOk result (out.new.items ≡ out.old.items ++ text (listed pair_words parameters.now)) }
{
    match parameters {
        [] => {}
        [first, rest @ ..] => {
            pair(out, b"", first)?;
            more_pairs(out, rest)?;
        }
    }
    Ok(())
}

#[tactic(auto, unfolding(crate::specs::Bodies::handler_words))]
fn optional_handler(out: &mut Vec<u8>, handler: &Option<Name>) -> Result<(), AllocError>
    ensures { OnOk result (out.new.items ≡ out.old.items ++ text (optional_words handler_words handler.now)) }
{
    match handler {
        Some(handler) => {
            put(out, b" ", b"[")?;
            name(out, b"", handler)?;
            out.push(b']')?;
        }
        None => {}
    }
    Ok(())
}

#[tactic(auto, using(crate::specs::Lemmas::Texts::text_append), unfolding(crate::specs::Bodies::head_words))]
fn head(out: &mut Vec<u8>, space: &[u8], head: &BlockHead) -> Result<(), AllocError>
    ensures { OnOk result (out.new.items ≡ out.old.items ++ text (head_words space.now head.now)) }
{
    name(out, space, &head.name)?;
    out.push(b'(')?;
    pairs(out, head.parameters.as_slice())?;
    out.push(b')')?;
    optional_handler(out, &head.handler)?;
    out.push(b':')?;
    Ok(())
}

fn each_inst(out: &mut Vec<u8>, insts: &[Inst]) -> Result<(), AllocError>
    ensures { OnOk result (out.new.items ≡ out.old.items ++ flat_map (λ x. text (inst_words indented x)) insts.now) }
{
    for one in insts {
        inst(out, b"\n  ", one)?;
    }
    Ok(())
}

fn insts(out: &mut Vec<u8>, insts: &[Inst]) -> Result<(), AllocError>
    ensures { OnOk result (out.new.items ≡ out.old.items ++ text (flat_map (inst_words indented) insts.now)) }
{
    each_inst(out, insts)?;
    Ok(())
}

#[tactic(auto, using(crate::specs::Lemmas::Texts::text_append), unfolding(crate::specs::Bodies::block_words))]
fn block(out: &mut Vec<u8>, space: &[u8], block: &Block) -> Result<(), AllocError>
    ensures { OnOk result (out.new.items ≡ out.old.items ++ text (block_words space.now block.now)) }
{
    head(out, space, &block.head)?;
    insts(out, block.insts.as_slice())?;
    Ok(())
}

fn each_block(out: &mut Vec<u8>, blocks: &[Block]) -> Result<(), AllocError>
    ensures { OnOk result (out.new.items ≡ out.old.items ++ flat_map (λ x. text (block_words on_new_line x)) blocks.now) }
{
    for one in blocks {
        block(out, b"\n", one)?;
    }
    Ok(())
}

fn blocks(out: &mut Vec<u8>, blocks: &[Block]) -> Result<(), AllocError>
    ensures { OnOk result (out.new.items ≡ out.old.items ++ text (flat_map (block_words on_new_line) blocks.now)) }
{
    each_block(out, blocks)?;
    Ok(())
}

/// Appends blocks between braces, behind a space.
#[tactic(auto, using(crate::specs::Lemmas::Texts::text_append), unfolding(crate::specs::Bodies::body_words))]
pub fn body(out: &mut Vec<u8>, listed: &[Block]) -> Result<(), AllocError>
    ensures { OnOk result (out.new.items ≡ out.old.items ++ text (body_words listed.now)) }
{
    out.extend_from_slice(b" {")?;
    blocks(out, listed)?;
    out.extend_from_slice(b"\n}")?;
    Ok(())
}
