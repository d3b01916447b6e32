// What the text of an outcome says.
ghost use Rattle.std.specs.Prelude.{◌≡◌, ◌++◌, map, IfOk, OnOk};
ghost use Rattle.condition_answers.specs.Outcomes.{words_of, returned_in, final_in, case_in, ending_in, first_ending, all_returned, all_finals, outcome_in};

use crate::lines::{lines_of, words_of};
use crate::values::{value_of, values_of};
use conditions::{Ending, Outcome, Returned, Value, ending_of, thread_of};
use std::alloc::{AllocError, Global};
use text_forms::Listing;

// Adds what a thread returned, where these words tell it.
fn add_returned(
    alloc: Global,
    words: &[&[u8]],
    all: &mut Listing<Returned>,
) -> Result<(), AllocError>
    ensures { OnOk result (all.new ≡ all.old ++ returned_in (map (λ word. word.now) words.now)) }
{
    let [first, thread, more @ ..] = words else {
        return Ok(());
    };
    if *first == b"returned".as_slice() {
        let Some(thread) = thread_of(thread) else {
            return Ok(());
        };
        let values = values_of(alloc, more)?;
        all.push(Returned { thread, values })?;
        return Ok(());
    }
    Ok(())
}

// Adds what a global holds, where these words tell it.
fn add_final(words: &[&[u8]], all: &mut Listing<Value>) -> Result<(), AllocError>
    ensures { OnOk result (all.new ≡ all.old ++ final_in (map (λ word. word.now) words.now)) }
{
    let [first, _name, value] = words else {
        return Ok(());
    };
    if *first == b"final".as_slice() {
        all.push(value_of(value))?;
        return Ok(());
    }
    Ok(())
}

// The undefined case that these words begin with.
fn case_in(words: &[&[u8]]) -> Option<Ending>
    ensures { result ≡ case_in (map (λ word. word.now) words.now) }
{
    match words {
        [case, ..] => ending_of(case),
        [] => None,
    }
}

// The ending, where these words tell it.
fn ending_in(words: &[&[u8]]) -> Option<Ending>
    ensures { result ≡ ending_in (map (λ word. word.now) words.now) }
{
    let [first, more @ ..] = words else {
        return None;
    };
    if *first == b"done".as_slice() {
        Some(Ending::Done)
    } else if *first == b"stop".as_slice() {
        Some(Ending::Stop)
    } else if *first == b"all".as_slice() {
        Some(Ending::Waiting)
    } else if *first == b"heap".as_slice() {
        Some(Ending::HeapFull)
    } else if *first == b"threads".as_slice() {
        Some(Ending::ThreadsFull)
    } else if *first == b"undefined".as_slice() {
        case_in(more)
    } else {
        None
    }
}

// What the threads returned, by these lines.
fn all_returned(alloc: Global, lines: &[&[u8]]) -> Result<Listing<Returned>, AllocError>
    ensures { IfOk result (λ all. all ≡ all_returned (map (λ line. line.now) lines.now)) }
{
    let mut all = Listing::new(alloc);
    let mut left = lines;
    'each: while let [line, rest @ ..] = left {
        let words = words_of(alloc, line)?;
        add_returned(alloc, &words, &mut all)?;
        left = rest;
    }
    Ok(all)
}

// What the globals hold, by these lines.
fn all_finals(alloc: Global, lines: &[&[u8]]) -> Result<Listing<Value>, AllocError>
    ensures { IfOk result (λ all. all ≡ all_finals (map (λ line. line.now) lines.now)) }
{
    let mut all = Listing::new(alloc);
    let mut left = lines;
    'each: while let [line, rest @ ..] = left {
        let words = words_of(alloc, line)?;
        add_final(&words, &mut all)?;
        left = rest;
    }
    Ok(all)
}

// The ending that the first of these lines tells that tells one.
fn first_ending(alloc: Global, lines: &[&[u8]]) -> Result<Option<Ending>, AllocError>
    ensures { IfOk result (λ ending. ending ≡ first_ending (map (λ line. line.now) lines.now)) }
{
    let mut left = lines;
    'each: while let [line, rest @ ..] = left {
        let words = words_of(alloc, line)?;
        if let Some(ending) = ending_in(&words) {
            return Ok(Some(ending));
        }
        left = rest;
    }
    Ok(None)
}

/// What the text of an outcome says. It fails only out of memory.
pub fn read_outcome(alloc: Global, text: &[u8]) -> Result<Outcome, AllocError>
    ensures { IfOk result (λ outcome. outcome ≡ outcome_in text.now) }
{
    let lines = lines_of(alloc, text)?;
    let returned = all_returned(alloc, &lines)?;
    let finals = all_finals(alloc, &lines)?;
    let ending = first_ending(alloc, &lines)?;
    Ok(Outcome {
        returned,
        finals,
        ending: ending.unwrap_or(Ending::Done),
    })
}
