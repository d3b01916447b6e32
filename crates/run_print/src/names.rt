// The names of functions and of places in blocks.
ghost use Rattle.std.specs.Prelude.{◌≡◌, ◌++◌, OnOk, OnErr, codes, slice_get};
ghost use Rattle.mu_base.specs.Files.{IsPrefix};
ghost use Rattle.mu_model.specs.Programs.{scopes_of};
ghost use Rattle.run_texts.specs.EventTexts.{function_text, full_name, place_text};

use crate::numbers::numbered;
use checked_code::Checked;
use std::alloc::AllocError;

/// Appends the name of a function, or nothing where it is not there.
#[tactic(auto, using(crate::proofs::FunctionNames::function_named_same))]
pub fn function_text(code: &Checked, function: u32, out: &mut Vec<u8>) -> Result<(), AllocError>
    ensures appended { OnOk result (out.new.items ≡ out.old.items ++ function_text code.now code.now function) }
    ensures stays { OnErr result (out.new.items ≡ out.old.items) }
{
    if (function as usize) < code.functions() {
        code.function_name(function, out)
    } else {
        Ok(())
    }
}

/// Appends the full name of a block, or nothing where it is not there.
#[tactic(auto, using(crate::proofs::BlockNames::block_named))]
fn block_text(code: &Checked, block: u32, out: &mut Vec<u8>) -> Result<(), AllocError>
    ensures appended { OnOk result (out.new.items ≡ out.old.items ++ full_name (slice_get (scopes_of code.now) block)) }
    ensures stays { OnErr result (out.new.items ≡ out.old.items) }
{
    if (block as usize) < code.blocks() {
        code.block_name(block, out)
    } else {
        Ok(())
    }
}

// Appends the place of an instruction. Where no memory is found a part of it may have been appended.
#[tactic(auto, using(mu_base::specs::Prefixes::prefix_self, mu_base::specs::Prefixes::prefix_longer, mu_base::specs::Prefixes::prefix_again))]
fn place_text(code: &Checked, block: u32, at: u32, out: &mut Vec<u8>) -> Result<(), AllocError>
    ensures appended { OnOk result (out.new.items ≡ out.old.items ++ place_text code.now block at) }
    ensures begins { OnErr result (IsPrefix out.old.items out.new.items) }
{
    block_text(code, block, out)?;
    numbered(b" ", at, out)
}

/// Appends the place of an instruction behind a space. Where no memory is found a part of it may have been appended.
#[tactic(auto, using(mu_base::specs::Prefixes::prefix_self, mu_base::specs::Prefixes::prefix_longer, mu_base::specs::Prefixes::prefix_again))]
pub fn spaced_place(
    code: &Checked,
    block: u32,
    at: u32,
    out: &mut Vec<u8>,
) -> Result<(), AllocError>
    ensures appended { OnOk result (out.new.items ≡ out.old.items ++ (codes " " ++ place_text code.now block at)) }
    ensures begins { OnErr result (IsPrefix out.old.items out.new.items) }
{
    out.extend_from_slice(b" ")?;
    place_text(code, block, at, out)
}
