// Schedules from their texts.
ghost use Rattle.std.specs.Prelude.{◌≡◌, ◌<◌, ◌≤◌, ◌^◌, ◌∷◌, true, false, drop, length, slice_range, IfSome, IfNone};
ghost use Rattle.std.specs.List.{list_all};
ghost use Rattle.std.specs.Char.{digit_value, is_digit};
ghost use Rattle.std.specs.Str.Parse.{digits_value};
ghost use Rattle.ir_lex.specs.Gaps.{begins_gap};
ghost use Rattle.demands.specs.Demands.{Judges};
ghost use Rattle.mu_threads.specs.ScheduleTexts.{runs_from, run_demands, schedule_demands, schedule_numbers};

use crate::schedule::Schedule;
use demands::Fault;
use mu_base::Ids;
use std::alloc::Global;
use std::fmt;
use thiserror::Error;

/// What is wrong with a run of bytes of a schedule.
#[derive(Clone, Copy, Debug, PartialEq, Eq, Error)]
pub enum ScheduleKind {
    /// A byte of the run is no decimal digit.
    #[error("not a decimal number")]
    BadToken,
    /// The number is 2^32 or more.
    #[error("the number is too large")]
    NumberTooLarge,
}

/// Why a schedule is refused: the first run that is at fault, at its first byte, or out of memory.
pub type ScheduleFault = Fault<ScheduleKind>;

/// Reads a schedule: decimal numbers below 2^32 with blanks or comments between them. A blank is a space, a tab, a carriage return or
/// a line feed; a comment is `//` up to the next line feed or the end. A run of other bytes that is no such number is refused, the
/// first of the text at its first byte. An empty text is a schedule that is spent. It takes time for the bytes, and memory for the
/// numbers.
#[tactic(auto, using(crate::proofs::Judging::judging))]
pub fn read_schedule(alloc: Global, bytes: &[u8]) -> Result<Schedule, ScheduleFault>
    ensures { Judges (schedule_demands bytes.now) (schedule_numbers bytes.now) result }
{
    let mut numbers = Ids::new(alloc);
    let mut at = gap_end(bytes, 0);
    while at < bytes.len() {
        let end = run_end(bytes, at);
        numbers.push(number(at, &bytes[at..end])?)?;
        at = gap_end(bytes, end);
    }
    Ok(Schedule::from_numbers(numbers))
}

// ---- blanks and comments

/// Whether a blank or a comment begins at a place.
fn begins_gap(bytes: &[u8], at: usize) -> bool
    requires { at < length bytes.now }
    ensures { result ≡ begins_gap (drop at bytes.now) }
{
    match &bytes[at..] {
        [b'/', b'/', ..] => true,
        [byte, ..] => matches!(byte, b' ' | b'\t' | b'\r' | b'\n'),
        [] => false,
    }
}

/// Where the blanks and comments end that begin at a place.
#[tactic(auto, using(crate::proofs::Gaps::gaps))]
fn gap_end(bytes: &[u8], from: usize) -> usize
    requires { from ≤ length bytes.now }
    ensures behind { from ≤ result }
    ensures within { result ≤ length bytes.now }
    ensures same { runs_from false from (drop from bytes.now) ≡ runs_from false result (drop result bytes.now) }
    ensures at_run { begins_gap (drop result bytes.now) ≡ false }
{
    let mut end = from;
    let mut commenting = false;
    while end < bytes.len() && (commenting || begins_gap(bytes, end)) {
        commenting = if commenting {
            bytes[end] != b'\n'
        } else {
            bytes[end] == b'/'
        };
        end += 1;
    }
    end
}

// ---- runs

/// Where the run ends that begins at a place.
#[tactic(auto, using(crate::proofs::Runs::runs_step))]
fn run_end(bytes: &[u8], from: usize) -> usize
    requires within { from < length bytes.now }
    requires at_run { begins_gap (drop from bytes.now) ≡ false }
    ensures behind { from < result }
    ensures within { result ≤ length bytes.now }
    ensures first { runs_from false from (drop from bytes.now) ≡ record { place = from; bytes = slice_range bytes.now from result } ∷ runs_from false result (drop result bytes.now) }
{
    let mut end = from + 1;
    while end < bytes.len() && !begins_gap(bytes, end) {
        end += 1;
    }
    end
}

// ---- numbers

fn is_decimal(run: &[u8]) -> bool
    ensures { result ≡ list_all (λ d. is_digit d 10) run.now }
{
    run.iter().all(|byte| byte.is_ascii_digit())
}

fn digit_value(byte: u8) -> u8
    requires { is_digit byte 10 ≡ true }
    ensures { result ≡ digit_value byte }
{
    byte - b'0'
}

/// The value of decimal digits, where it is below 2^32.
#[tactic(auto, using(ir_lex::proofs::Values::value_more, ir_lex::proofs::Values::value_over, ir_lex::proofs::Values::value_done))]
fn value(digits: &[u8]) -> Option<u32>
    requires { list_all (λ d. is_digit d 10) digits.now ≡ true }
    ensures some { IfSome result (λ v. v ≡ digits_value 10 digits.now) }
    ensures none { IfNone result (2 ^ 32 ≤ digits_value 10 digits.now) }
{
    let mut sum: u32 = 0;
    for digit in digits {
        sum = sum
            .checked_mul(10)?
            .checked_add(u32::from(digit_value(*digit)))?;
    }
    Some(sum)
}

/// The number that a run spells which begins at the place.
fn number(place: usize, run: &[u8]) -> Result<u32, ScheduleFault>
    ensures { Judges (run_demands (record { place = place; bytes = run.now })) (digits_value 10 run.now) result }
{
    if !is_decimal(run) {
        return Err(ScheduleFault::At {
            kind: ScheduleKind::BadToken,
            place,
        });
    }
    value(run).ok_or(ScheduleFault::At {
        kind: ScheduleKind::NumberTooLarge,
        place,
    })
}
