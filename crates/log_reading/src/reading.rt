// Logs from their texts.
ghost use Rattle.std.specs.Prelude.{◌≡◌, ◌+◌, ◌<◌, ◌^◌, length, IfOk};
ghost use Rattle.log_lines.specs.Texts.{line_read, text_read, nothing_read};
ghost use Rattle.mem_axioms.specs.Threads.{HaveFewThreads};
ghost use Rattle.log_reading.specs.Answers.{IsRead};
ghost use Rattle.log_reading.specs.Inner.{GoesOn};

use crate::fields::{Fields, LogFault};
use crate::lines::{begins_with_digit, event, first_unprintable};
use crate::names::Names;
use crate::parts::first_part;
use demands::Fault;
use log_lines::LogKind;
use mem_axioms::Log;
use std::alloc::Global;
use std::marker::Model;

/// The greatest number of events in a `Log`.
const MOST_EVENTS: u32 = u32::MAX - 1;

/// What was read of a text.
#[derive(Drop)]
struct Reading {
    log: Log,
    names: Names,
}

impl Model for Reading {
    ghost use Rattle.std.specs.Prelude.{◌<◌, length};
    ghost use Rattle.log_lines.specs.Texts.{ReadLog};
    ghost use Rattle.mem_axioms.specs.Threads.{HaveFewThreads};

    ghost Value = { ReadLog };

    ghost view = { λ r. record { log = r.log; names = r.names } };

    ghost invariant = { λ r. HaveFewThreads r.log × (length r.log < 4294967295) };
}

impl Reading {
    fn new(alloc: Global) -> Reading
        ensures { result ≡ nothing_read }
    {
        Reading {
            log: Log::new(alloc),
            names: Names::new(alloc),
        }
    }

    // Reads a line that begins at that byte offset.
    fn line(&mut self, at: usize, line: &[u8]) -> Result<(), LogFault>
        requires { at + length line.now < 2 ^ 64 }
        ensures { GoesOn (line_read at self.old line.now) self.new result }
    {
        if !begins_with_digit(line) {
            return Ok(());
        }
        if let Some(place) = first_unprintable(at, line) {
            return Err(Fault::At {
                kind: LogKind::Lex,
                place,
            });
        }
        let n = self.log.len();
        if n >= MOST_EVENTS {
            return Err(Fault::Memory);
        }
        let mut fields = Fields::new(line, at + line.len());
        let event = event(&mut self.names, n, &mut fields)?;
        self.log.push(event)?;
        Ok(())
    }
}

/// The log of a text: the events of its event lines, in order. The text may hold any bytes.
///
/// A line whose first byte is a decimal digit is an event line; every other line is passed over. A function is known by its name, and
/// its number in the log is how many other names were used before its first use. A number that stands for a value has width 128.
///
/// `At` is the first fault, with its byte offset:
/// - `Lex` at the first byte of an event line that is not from 32 to 126;
/// - `Unexpected` at the first byte of a field that has none of the forms that may stand there, or at the line's end where a field is
///   missing;
/// - `BadNumber` at a field whose number is out of range: an event's own number that is not the count of event lines before it, a
///   thread from 64 on, a value from 2^128 on, and any other number from 2^32 on.
///
/// `Memory` says that no memory was found, or that there are more than 2^32 - 2 events. What was read is dropped.
///
/// Each line is looked at where it stands in the text. The time is in proportion to the text, but for the names: each costs looks at
/// as many names as the logarithm of their number.
pub fn read_log(alloc: Global, text: &[u8]) -> Result<Log, LogFault>
    ensures read { IsRead (text_read text.now) result }
    ensures threads { IfOk result HaveFewThreads }
    ensures count { IfOk result (λ log. length log < 4294967295) }
{
    let mut reading = Reading::new(alloc);
    let mut rest = Some(text);
    while let Some(bytes) = rest {
        let line = first_part(bytes, b'\n');
        reading.line(text.len() - bytes.len(), line.part)?;
        rest = line.rest;
    }
    Ok(reading.log)
}
