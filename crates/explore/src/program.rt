// The top call.
ghost use Rattle.std.specs.Prelude.{◌≡◌, ◌≢◌, ◌≤◌, ◌⊎◌, ℕ, None, IfOk, length};
ghost use Rattle.mu_base.specs.Faults.{Rose};
ghost use Rattle.mu_base.specs.Files.{Files};
ghost use Rattle.mu_command.specs.Answer.{read_fault_line, too_long_line};
ghost use Rattle.mu_command.specs.Central.{MayFail, IsPast, IsUnfetched, OfJob, IsRefused, IsQuiet};
ghost use Rattle.mu_command.specs.Written.{IsWhole};
ghost use Rattle.explore.specs.Asked.{search_of, runs_of};
ghost use Rattle.explore.specs.Conditions.{MayBeUnread, IsTooLong, AnyCause};
ghost use Rattle.explore.specs.Parts.{IsFound};
ghost use Rattle.explore.specs.Explored.{Explored, OfSearch, IsAccepted, IsUnconditioned, AnswersFiles};

use crate::searching::find_searched;
use crate::words::read_words;
use mu_base::{Inputs, Sink, Status, Words};
use mu_command::{put_line, put_text};
use mu_texts::Stop;
use odometer::Watch;
use std::alloc::Global;

// Reads the words, fetches the files, and searches.
#[tactic(auto, using(crate::proofs::Together::finding))]
fn find<I: Inputs, W: Watch>(
    alloc: Global,
    words: &Words,
    inputs: &mut I,
    watch: &mut W,
) -> Result<(Vec<u8>, Status), Stop>
    ensures same { I.holds inputs.new ≡ I.holds inputs.old }
    ensures never_falls { (s : ℕ) → I.faults inputs.old s ≤ I.faults inputs.new s }
    ensures found { IsFound (record { told = I.holds inputs.old; before = I.faults inputs.old; now = I.faults inputs.new }) words.now result }
    ensures whole { IfOk result (λ made. IsWhole made.1) }
{
    match read_words(words) {
        Some(asked) => find_searched(alloc, words, asked, inputs, watch),
        None => Err(Stop::Line(Vec::from_slice(alloc, b"usage")?, Status::Usage)),
    }
}

// Finds the answer and writes it.
#[tactic(auto, using(crate::proofs::Answering::answering))]
fn answer<I: Inputs, S: Sink, W: Watch>(
    alloc: Global,
    words: &Words,
    inputs: &mut I,
    out: &mut S,
    watch: &mut W,
) -> Status
    ensures explored { Explored (record { told = I.holds inputs.old; before = I.faults inputs.old; now = I.faults inputs.new }) words.now
        (S.written out.old) (S.written out.new) (S.ends out.old) (S.ends out.new) result }
    ensures sink_fault { result ≡ Status.SinkFault → Rose (S.faults out.old) (S.faults out.new) }
    ensures inputs_stay { I.holds inputs.new ≡ I.holds inputs.old }
    ensures input_faults { (s : ℕ) → I.faults inputs.old s ≤ I.faults inputs.new s }
    ensures sink_faults { S.faults out.old ≤ S.faults out.new }
{
    match find(alloc, words, inputs, watch) {
        Ok((text, status)) => put_text(out, text, status),
        Err(Stop::Line(text, status)) => put_line(out, text, status),
        Err(Stop::Memory) => Status::Memory,
    }
}

/// Searches through the runs that the words ask for, under all schedules, and writes each outcome that was found, with a schedule that shows
/// it. It has no condition.
///
/// The words are `explore FILE --entry NAME` with options, in any order, each at most once: those of `run` of `mu` but for `--schedule`, and
/// `--runs N`: how many runs are made at most, from 1 to 100,000,000; where it is not given there are 1,000,000. Where `--steps` is not
/// given each run makes at most 1,000 steps. `--condition F` names a file of conditions.
///
/// The files are fetched and judged as those of a run, in the same order and slots, and each once. The first fault of what was given is the one
/// that `mu` names. The conditions are fetched and read after them, in slot 4; the names of their globals are those of the globals that
/// outcomes show.
///
/// For each outcome there are written `outcome K`, what is seen of the run, and `schedule` with the numbers that show it. The outcomes differ,
/// and stand in the order of their bytes. After them there is a line for each condition, as the crate `conditions` answers it by what the
/// texts of the outcomes say. The last line is `complete N`, with the status `Done`: then each schedule shows one of these N
/// outcomes, and none comes to its budget. Or it is `bounded N` with what was used up, `runs`, `steps` or both, and the status `Budget`: then
/// outcomes may be missing, also of runs that end within their budget. It says `runs` only where there are more runs by schedules, counted by
/// their picks, than may be made; then what so many of these show is written, but for those that come to their budget. It says `steps` only
/// where the run of some schedule comes to its budget; without `steps` there is an outcome. With conditions the status is that of their
/// answers: `No` where one is no, else `Budget` where one is unknown, else `Done`.
///
/// After every status a prefix of the text was written; after each but `SinkFault` and `Memory` it is the whole text. Out of memory may come
/// before there is a text; then nothing was written.
///
/// After each run `watch` is shown how many runs were made and how many outcomes found. What is written does not depend on it.
pub fn explore<I: Inputs, S: Sink, W: Watch>(
    alloc: Global,
    words: &Words,
    inputs: &mut I,
    out: &mut S,
    watch: &mut W,
) -> Status
    // There are outcomes of the fetches that the inputs allow, and an answer to them, which is what is written; or the call was out of memory
    // before anything was written.
    ensures explored { Explored (record { told = I.holds inputs.old; before = I.faults inputs.old; now = I.faults inputs.new }) words.now
        (S.written out.old) (S.written out.new) (S.ends out.old) (S.ends out.new) result }

    // The causes of the statuses.
    ensures usage { search_of words.now ≡ None → IsWhole result → result ≡ Status.Usage }
    ensures usage_only { result ≡ Status.Usage → search_of words.now ≡ None }
    ensures read_fault { result ≡ Status.ReadFault → OfJob
        (IsUnfetched MayFail read_fault_line (record { told = I.holds inputs.old; before = I.faults inputs.old; now = I.faults inputs.new }) words.now
        (S.written out.old) (S.written out.new) (S.ends out.old) (S.ends out.new) result) (runs_of (search_of words.now)) ⊎ OfSearch
        (IsUnconditioned MayBeUnread (record { told = I.holds inputs.old; before = I.faults inputs.old; now = I.faults inputs.new }) words.now
        (S.written out.old) (S.written out.new) (S.ends out.old) (S.ends out.new) result) (search_of words.now) }
    ensures too_long { result ≡ Status.TooLong → OfJob
        (IsUnfetched IsPast too_long_line (record { told = I.holds inputs.old; before = I.faults inputs.old; now = I.faults inputs.new }) words.now
        (S.written out.old) (S.written out.new) (S.ends out.old) (S.ends out.new) result) (runs_of (search_of words.now)) ⊎ OfSearch
        (IsUnconditioned IsTooLong (record { told = I.holds inputs.old; before = I.faults inputs.old; now = I.faults inputs.new }) words.now
        (S.written out.old) (S.written out.new) (S.ends out.old) (S.ends out.new) result) (search_of words.now) }
    ensures refused { result ≡ Status.Refused → OfJob
        (IsRefused (record { told = I.holds inputs.old; before = I.faults inputs.old; now = I.faults inputs.new }) words.now
        (S.written out.old) (S.written out.new) (S.ends out.old) (S.ends out.new)) (runs_of (search_of words.now)) ⊎ OfSearch
        (IsUnconditioned AnyCause (record { told = I.holds inputs.old; before = I.faults inputs.old; now = I.faults inputs.new }) words.now
        (S.written out.old) (S.written out.new) (S.ends out.old) (S.ends out.new) result) (search_of words.now) }
    ensures accepted { (result ≡ Status.Done) ⊎ (result ≡ Status.Budget) ⊎ (result ≡ Status.No) → OfSearch
        (IsAccepted (record { told = I.holds inputs.old; before = I.faults inputs.old; now = I.faults inputs.new }) words.now
        (S.written out.old) (S.written out.new) (S.ends out.old) (S.ends out.new) result) (search_of words.now) }
    ensures sink_fault { result ≡ Status.SinkFault → Rose (S.faults out.old) (S.faults out.new) }
    // There is no other status: where the words ask for a search, no file is refused, and the text is written whole, the search ended.
    ensures no_other { IsWhole result → result ≢ Status.Usage → result ≢ Status.ReadFault → result ≢ Status.TooLong → result ≢ Status.Refused
        → (result ≡ Status.Done) ⊎ (result ≡ Status.Budget) ⊎ (result ≡ Status.No) }

    // What the inputs tell stays, and no count of faults falls.
    ensures inputs_stay { I.holds inputs.new ≡ I.holds inputs.old }
    ensures input_faults { (s : ℕ) → I.faults inputs.old s ≤ I.faults inputs.new s }
    ensures sink_faults { S.faults out.old ≤ S.faults out.new }

    // Where the inputs tell their files and no count rises, the answer is one to the files; or the call was out of memory before.
    ensures complete { (files : Files) → I.holds inputs.old ≡ Some files
        → ((s : ℕ) → IsQuiet (record { told = I.holds inputs.old; before = I.faults inputs.old; now = I.faults inputs.new }) s)
        → AnswersFiles files words.now (S.written out.old) (S.written out.new) (S.ends out.old) (S.ends out.new) result }
{
    answer(alloc, words, inputs, out, watch)
}
