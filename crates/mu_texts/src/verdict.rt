// Judges a log, and words the verdict.
ghost use Rattle.std.specs.Prelude.{◌≡◌, ◌++◌, IfOk, OnOk, decimal};
ghost use Rattle.mu_texts.specs.Answer.{for_judge, verdict_text, verdict_status};
ghost use Rattle.mu_texts.specs.Comes.{Comes, CanRun};

use crate::judging::refused;
use crate::ready::Ready;
use crate::refusals::log_fault_name;
use crate::stop::Stop;
use crate::what::What;
use demands::Fault;
use itoa::Buffer;
use log_judge::judge;
use log_reading::read_log;
use mem_axioms::Rule;
use mu_base::Status;
use std::alloc::{AllocError, Global};
use verdicts::Verdict;

/// What `mu judge` asks of a text: a log, which is judged by the rule of release sequences.
///
/// Where the text is no log the line is `refused log PLACE FAULT`.
#[tactic(auto, using(crate::proofs::Logs::logs))]
pub fn judge_log(alloc: Global, rule: Rule, bytes: &[u8]) -> Result<Ready, Stop>
    ensures asked { Comes (for_judge rule bytes.now) result }
    ensures there { IfOk result CanRun }
{
    match read_log(alloc, bytes) {
        Ok(log) => Ok(Ready::Judged(judge(alloc, rule, &log)?)),
        Err(Fault::Memory) => Err(Stop::Memory),
        Err(Fault::At { kind, place }) => Err(refused(
            alloc,
            What::Log,
            place,
            log_fault_name(kind),
        )?),
    }
}

// Appends words and a number after them.
fn numbered(words: &[u8], n: u32, out: &mut Vec<u8>) -> Result<(), AllocError>
    ensures { OnOk result (out.new.items ≡ out.old.items ++ (words.now ++ decimal n)) }
{
    let mut buffer = Buffer::new();
    out.extend_from_slice(words)?;
    out.extend_from_slice(buffer.format(n).as_bytes())
}

/// The words of a verdict's line: `yes EVENTS`, or what is first wrong with the log, with the numbers of events.
pub fn verdict_text(alloc: Global, verdict: Verdict) -> Result<Vec<u8>, AllocError>
    ensures { IfOk result (λ text. text.items ≡ verdict_text verdict) }
{
    let mut text = Vec::new(alloc);
    match verdict {
        Verdict::Yes { events } => numbered(b"yes ", events, &mut text)?,
        Verdict::Form { event } => numbered(b"no form ", event, &mut text)?,
        Verdict::Axiom1 { earlier, event } => {
            numbered(b"no axiom 1 ", earlier, &mut text)?;
            numbered(b" ", event, &mut text)?;
        }
        Verdict::Axiom3 { a, b } => {
            numbered(b"no axiom 3 ", a, &mut text)?;
            numbered(b" ", b, &mut text)?;
        }
        Verdict::Race { earlier, event } => {
            numbered(b"no race ", earlier, &mut text)?;
            numbered(b" ", event, &mut text)?;
        }
    }
    Ok(text)
}

/// The status that goes with a verdict: `Done` with Yes, and `No` with any other.
pub fn verdict_status(verdict: Verdict) -> Status
    ensures { result ≡ verdict_status verdict }
{
    match verdict {
        Verdict::Yes { .. } => Status::Done,
        _ => Status::No,
    }
}
