// The lines of answers.
ghost use Rattle.std.specs.Prelude.{◌≡◌, ◌++◌, OnOk};
ghost use Rattle.conditions.specs.Printed.{claim_text, number_text, said, answer_text};

use crate::answering::Answer;
use crate::tree::Claim;
use itoa::Buffer;
use std::alloc::AllocError;

fn claim_text(claim: Claim) -> &'static [u8]
    ensures { result.now ≡ claim_text claim }
{
    match claim {
        Claim::Exists => b"exists",
        Claim::Never => b"never",
        Claim::Always => b"always",
    }
}

fn append_number(number: Option<usize>, out: &mut Vec<u8>) -> Result<(), AllocError>
    ensures { OnOk result (out.new.items ≡ out.old.items ++ number_text number) }
{
    if let Some(number) = number {
        let mut buffer = Buffer::new();
        out.extend_from_slice(b" ")?;
        out.extend_from_slice(buffer.format(number).as_bytes())?;
    }
    Ok(())
}

fn append_said(answer: Answer, out: &mut Vec<u8>) -> Result<(), AllocError>
    ensures { OnOk result (out.new.items ≡ out.old.items ++ said answer) }
{
    match answer {
        Answer::Yes(number) => {
            out.extend_from_slice(b"yes")?;
            append_number(number, out)
        }
        Answer::No(number) => {
            out.extend_from_slice(b"no")?;
            append_number(number, out)
        }
        Answer::Unknown => out.extend_from_slice(b"unknown"),
    }
}

/// Appends the line of an answer. It fails only out of memory, and then a part of it may have been appended.
pub fn append_answer(claim: Claim, answer: Answer, out: &mut Vec<u8>) -> Result<(), AllocError>
    ensures { OnOk result (out.new.items ≡ out.old.items ++ answer_text claim answer) }
{
    out.extend_from_slice(claim_text(claim))?;
    out.extend_from_slice(b" ")?;
    append_said(answer, out)?;
    out.extend_from_slice(b"\n")
}
