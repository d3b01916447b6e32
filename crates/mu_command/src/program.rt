// The top call.
ghost use Rattle.std.specs.Prelude.{◌≡◌, ◌≤◌, ℕ, true, None, Some};
ghost use Rattle.mu_base.specs.Faults.{Rose};
ghost use Rattle.mu_base.specs.Files.{Files};
ghost use Rattle.text_programs.specs.Moments.{EndsSoundly};
ghost use Rattle.text_programs.specs.Offers.{OffersExactly};
ghost use Rattle.mu_texts.specs.Answer.{is_end};
ghost use Rattle.mu_command.specs.Answer.{answer_of, read_fault_line, too_long_line};
ghost use Rattle.mu_command.specs.Central.{Answered, MayFail, IsPast, IsUnfetched, OfJob, IsAccepted, IsRefused, FollowsVerdict, IsQuiet, outcomes_of, OneAnswer, EachMoment, EachRunEnds, HasSoundLog, HasOneOwner, IsNotStuck, AutoGoesOn};
ghost use Rattle.mu_command.specs.Job.{job_of};
ghost use Rattle.mu_command.specs.Written.{IsWhole, Writes};

use crate::finding::find;
use crate::running::write;
use crate::sound::{runs_are_sound, runs_have_their_endings};
use crate::writing::put_line;
use mu_base::{Inputs, Sink, Status, Words};
use mu_texts::Stop;
use std::alloc::Global;

// Finds the answer and writes it.
#[tactic(auto, using(crate::proofs::Answering::answering))]
fn answer<I: Inputs, S: Sink>(alloc: Global, words: &Words, inputs: &mut I, out: &mut S) -> Status
    ensures answered { Answered (record { told = I.holds inputs.old; before = I.faults inputs.old; now = I.faults inputs.new }) words.now
        (S.written out.old) (S.written out.new) (S.ends out.old) (S.ends out.new) result }
    ensures sink_fault { result ≡ Status.SinkFault → Rose (S.faults out.old) (S.faults out.new) }
    ensures inputs_stay { I.holds inputs.new ≡ I.holds inputs.old }
    ensures input_faults { (s : ℕ) → I.faults inputs.old s ≤ I.faults inputs.new s }
    ensures sink_faults { S.faults out.old ≤ S.faults out.new }
{
    match find(alloc, words, inputs) {
        Ok(ready) => write(alloc, ready, out),
        Err(Stop::Line(text, status)) => put_line(out, text, status),
        Err(Stop::Memory) => Status::Memory,
    }
}

/// Does what the words ask for, and writes what it comes to. It has no condition.
///
/// The words are one of these:
///
/// - `check FILE`: the bundle in the file is read and checked; `ok` is written.
/// - `print FILE`: it is read, and written as its canonical text.
/// - `run FILE --entry NAME` with options: it is read, checked, and run from the function with that name; the text of the run is written.
/// - `trial N`, for a number N from 1 to 1,000: a bundle with N pairs of a value and a flag is made, read, checked, and run from `@main`
///   as `run` does without options; one line is written, `trial N steps S events E ENDING`, which tells how many steps were made, of how
///   many events their lines tell, and the ending. The status is that of the ending.
/// - `judge FILE`: the file is read as the text of a log, as `run` prints it, and judged by the axioms of memory. One line is written:
///   `yes EVENTS`; or `no form J`, `no axiom 1 I J`, `no axiom 3 A B` or `no race I J`, with the numbers of events and the status `No`.
///   `--release-sequences c11` or `--release-sequences rmw` may follow the file; without it the rule is `c11`.
/// - `join` with 1 to 16 files: each is read as a bundle, in their order, and the joined bundle is written as its canonical text.
///
/// The options of a run come in any order, each at most once:
///
/// - `--hail F`: the script in this file makes objects and fills them before the run;
/// - `--client F`: the entries in this file answer the traps of the run; after the last one the run stops, unless `--auto` is given;
/// - `--auto`: each trap passes zero and NULL for what it asks, once no entry is left. Where neither option is given, the run stops at its
///   first trap;
/// - `--schedule F`: the numbers in this file decide the picks of the run, one after the other; where none are left each pick is 0;
/// - `--release-sequences c11` or `--release-sequences rmw`: the rule of release sequences; `c11` where it is not given;
/// - `--steps N` and `--cells N`: how many steps the run may make, and how many cells beside those of the globals, those of the heap's
///   script among them. Each N is at most 1,000,000; where they are not given there are 200,000 steps and 100,000 cells.
///
/// The files are fetched and judged in the order bundle, entry, script for the heap, script of the client, schedule, each before the next
/// is fetched. Those of `join` are fetched and read in the order of their words, each before the next is fetched, and are joined after
/// that.
///
/// Else one line is written that names the first fault of what was given. After every status a prefix of the text was written;
/// after each but `SinkFault` and `Memory` it is the whole text.
///
/// It is for a process that ends after it: the memory of a bundle and of a run is left to the system, which takes it back at once.
pub fn mu<I: Inputs, S: Sink>(alloc: Global, words: &Words, inputs: &mut I, out: &mut S) -> Status
    // There are outcomes of the fetches that the inputs allow, and the answer to them is what is written.
    ensures answered { Answered (record { told = I.holds inputs.old; before = I.faults inputs.old; now = I.faults inputs.new }) words.now
        (S.written out.old) (S.written out.new) (S.ends out.old) (S.ends out.new) result }

    // The causes of the statuses. A file that was not fetched is the one that the written line names, and all before it is accepted; a
    // refusal is the written one.
    ensures usage { job_of words.now ≡ None → IsWhole result → result ≡ Status.Usage }
    ensures usage_only { result ≡ Status.Usage → job_of words.now ≡ None }
    ensures read_fault { result ≡ Status.ReadFault → OfJob
        (IsUnfetched MayFail read_fault_line (record { told = I.holds inputs.old; before = I.faults inputs.old; now = I.faults inputs.new }) words.now
        (S.written out.old) (S.written out.new) (S.ends out.old) (S.ends out.new) result) (job_of words.now) }
    ensures too_long { result ≡ Status.TooLong → OfJob
        (IsUnfetched IsPast too_long_line (record { told = I.holds inputs.old; before = I.faults inputs.old; now = I.faults inputs.new }) words.now
        (S.written out.old) (S.written out.new) (S.ends out.old) (S.ends out.new) result) (job_of words.now) }
    ensures refused { result ≡ Status.Refused → OfJob
        (IsRefused (record { told = I.holds inputs.old; before = I.faults inputs.old; now = I.faults inputs.new }) words.now
        (S.written out.old) (S.written out.new) (S.ends out.old) (S.ends out.new)) (job_of words.now) }
    ensures accepted { is_end result ≡ true → OfJob
        (IsAccepted (record { told = I.holds inputs.old; before = I.faults inputs.old; now = I.faults inputs.new }) words.now
        (S.written out.old) (S.written out.new) (S.ends out.old) (S.ends out.new) result) (job_of words.now) }
    // No comes exactly where the file that is judged has a log, and the verdict on it is not Yes.
    ensures no { is_end result ≡ true → OfJob
        (FollowsVerdict (record { told = I.holds inputs.old; before = I.faults inputs.old; now = I.faults inputs.new }) words.now
        (S.written out.old) (S.written out.new) (S.ends out.old) (S.ends out.new) result) (job_of words.now) }
    ensures sink_fault { result ≡ Status.SinkFault → Rose (S.faults out.old) (S.faults out.new) }

    // What holds at each moment of the run that the words ask for, whatever bytes its files have.
    // The log meets the axioms of memory, no two of its events race, and each of its reads was an option of its past.
    ensures sound_logs { EachMoment HasSoundLog words.now }
    // An access of a cell of an object that is not dead is offered exactly what the axioms of memory and its comparison let it take; a wait
    // reads the newest position.
    ensures offered { EachMoment OffersExactly words.now }
    // No two threads are on one stack, and no thread is on two.
    ensures one_owner { EachMoment HasOneOwner words.now }
    // The next step has a rule.
    ensures never_stuck { EachMoment IsNotStuck words.now }
    // Where the next step gives the ending, it logs nothing, or that a thread left its stack, and the log that is left is sound too.
    ensures sound_endings { EachMoment EndsSoundly words.now }
    // Where the next step asks a client that has no entries left and passes zero and NULL, the run goes on after its answer.
    ensures auto_goes_on { EachMoment AutoGoesOn words.now }
    // Where all that comes before it is accepted, the run begins, and comes to its ending within its budget, whose status is the answer's.
    ensures ends { EachRunEnds words.now }

    // What the inputs tell stays, and no count of faults falls.
    ensures inputs_stay { I.holds inputs.new ≡ I.holds inputs.old }
    ensures input_faults { (s : ℕ) → I.faults inputs.old s ≤ I.faults inputs.new s }
    ensures sink_faults { S.faults out.old ≤ S.faults out.new }

    // Where the inputs tell their files and no count rises, the answer is that to the files.
    ensures complete { (files : Files) → I.holds inputs.old ≡ Some files
        → ((s : ℕ) → IsQuiet (record { told = I.holds inputs.old; before = I.faults inputs.old; now = I.faults inputs.new }) s)
        → Writes (answer_of words.now (job_of words.now) (outcomes_of files words.now (job_of words.now)))
        (S.written out.old) (S.written out.new) (S.ends out.old) (S.ends out.new) result }
{
    runs_are_sound();
    runs_have_their_endings();
    answer(alloc, words, inputs, out)
}

/// The law that there is one answer: where the inputs tell their files and no count rises, all outcomes that they allow
/// have the same.
pub fn answer_is_one()
    ensures { OneAnswer }
{}
