// Finds the bundles that are joined.
ghost use Rattle.std.specs.Prelude.{◌≡◌, ◌≢◌, ◌<◌, ◌≤◌, ℕ, [], Some, IfOk, OnOk, length};
ghost use Rattle.mu_texts.specs.Answer.{written_in};
ghost use Rattle.mu_texts.specs.Comes.{CanRun};
ghost use Rattle.mu_command.specs.Job.{job_of, FilesAreThere};
ghost use Rattle.mu_command.specs.Parts.{IsJudged, AreRead, gathered, IsFound};

use crate::job::Job;
use crate::loading::load;
use ir_tree::Bundle;
use mu_base::{Inputs, Words};
use mu_texts::{Ready, Stop, What, judge_for_join, read_written};
use std::alloc::Global;
use std::mem;
use text_forms::Listing;

// Fetches the bundle with number `k` of those that are joined, and reads it.
#[tactic(auto, using(crate::specs::Lemmas::Files::files))]
fn find_bundle<I: Inputs>(
    alloc: Global,
    words: &Words,
    k: u32,
    file: usize,
    inputs: &mut I,
) -> Result<Bundle, Stop>
    requires slot { k < 16 }
    requires there { file < length words.now }
    ensures same { I.holds inputs.new ≡ I.holds inputs.old }
    ensures other_slots { (s : ℕ) → s ≢ k → I.faults inputs.new s ≡ I.faults inputs.old s }
    ensures never_falls { (s : ℕ) → I.faults inputs.old s ≤ I.faults inputs.new s }
    ensures judged { IsJudged (record { told = I.holds inputs.old; before = I.faults inputs.old; now = I.faults inputs.new }) words.now (What.Joined k) (Some file) (written_in (What.Joined k)) result }
{
    let what = What::Joined(k);
    let bytes = load(alloc, words, what, Some(file), inputs)?;
    read_written(alloc, what, &bytes)
}

// Fetches the bundles that are joined, one after the other, reads each, and puts it into a list.
fn gather<I: Inputs>(
    alloc: Global,
    words: &Words,
    first: usize,
    files: usize,
    inputs: &mut I,
    bundles: &mut Listing<Bundle>,
) -> Result<(), Stop>
    requires there { FilesAreThere (length words.now) first files }
    requires none { bundles.old ≡ [] }
    ensures same { I.holds inputs.new ≡ I.holds inputs.old }
    ensures never_falls { (s : ℕ) → I.faults inputs.old s ≤ I.faults inputs.new s }
    ensures few { OnOk result (length bundles.new ≡ files) }
    ensures read { AreRead (record { told = I.holds inputs.old; before = I.faults inputs.old; now = I.faults inputs.new }) words.now first files (gathered result bundles.new) }
{
    for k in 0..files {
        let bundle = find_bundle(alloc, words, k as u32, first + k, inputs)?;
        bundles.push(bundle)?;
    }
    Ok(())
}

/// Fetches the bundles that are joined, one after the other, reads each, and then joins them. Those that were read where there is no joined
/// bundle are left to the system.
#[tactic(auto, using(crate::proofs::Bundles::joining))]
pub fn find_joined<I: Inputs>(
    alloc: Global,
    words: &Words,
    first: usize,
    files: usize,
    inputs: &mut I,
) -> Result<Ready, Stop>
    requires there { FilesAreThere (length words.now) first files }
    requires job { job_of words.now ≡ Some (Job.Join first files) }
    ensures same { I.holds inputs.new ≡ I.holds inputs.old }
    ensures never_falls { (s : ℕ) → I.faults inputs.old s ≤ I.faults inputs.new s }
    ensures found { IsFound (record { told = I.holds inputs.old; before = I.faults inputs.old; now = I.faults inputs.new }) words.now result }
    ensures there { IfOk result CanRun }
{
    let mut bundles = Listing::new(alloc);
    match gather(alloc, words, first, files, inputs, &mut bundles) {
        Ok(()) => judge_for_join(alloc, bundles),
        Err(stop) => {
            mem::forget(bundles);
            Err(stop)
        }
    }
}
