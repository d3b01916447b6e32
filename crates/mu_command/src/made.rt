// Finds the run of a made bundle.
ghost use Rattle.std.specs.Prelude.{IfOk};
ghost use Rattle.mu_texts.specs.Comes.{Comes, IsRunnable, LoadedRunsEnd, CanRun};
ghost use Rattle.mu_command.specs.Answer.{trial_begun, trial_found};

use crate::words::{USUAL_CELLS, USUAL_STEPS};
use checked_code::Checked;
use mem_axioms::Rule;
use mu_texts::{
    Ready, Start, Stop, Telling, enter, judge_client, judge_for_run, judge_heap_script,
    judge_schedule,
};
use std::alloc::Global;
use std::mem;
use trial_text::trial_text;

// How the run of a made bundle begins. Each file that a run may have is empty.
fn start_trial(alloc: Global, code: &Checked) -> Result<Start, Stop>
    requires { LoadedRunsEnd code.now }
    ensures begun { Comes (trial_begun code.now) result }
    ensures there { IfOk result (IsRunnable code.now) }
{
    let entry = enter(alloc, code, "@main")?;
    let heap = judge_heap_script(alloc, b"", code, USUAL_CELLS)?;
    let client = judge_client(alloc, b"", code, false)?;
    let picks = judge_schedule(alloc, b"")?;
    Ok(Start {
        entry,
        heap,
        client,
        picks,
        rule: Rule::C11,
        cells: USUAL_CELLS,
        budget: USUAL_STEPS,
    })
}

/// The run of the made bundle with `n` pairs. Its text is read and judged as that of any bundle.
pub fn find_trial(alloc: Global, n: u32) -> Result<Ready, Stop>
    ensures found { Comes (trial_found n) result }
    ensures there { IfOk result CanRun }
{
    let text = trial_text(alloc, n)?;
    match judge_for_run(alloc, &text) {
        Ok(code) => match start_trial(alloc, &code) {
            Ok(start) => Ok(Ready::Entered {
                code,
                start,
                telling: Telling::Counts { n },
            }),
            Err(stop) => {
                mem::forget(code);
                Err(stop)
            }
        },
        Err(stop) => Err(stop),
    }
}
