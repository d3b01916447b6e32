// How far a search has come, shown on a terminal.
use explore::Watch;
use std::io::IsTerminal;
use std::rt::{Clock, HostRuntime};
use std::time::Instant;

// How many seconds pass before a line is written anew.
const PERIOD: u64 = 1;

/// Shows once a second, on a line of standard error, how many runs a search has made and how many outcomes it has found. The line is
/// erased when the search is over. Nothing is written where standard error is no terminal, or where there is no clock. Part of the trusted
/// edge: nothing is told of what was written, and a write that fails is passed over.
#[derive(Drop)]
pub struct Progress<'a> {
    rt: &'a HostRuntime,
    /// When a line was last written, or the search began; None where none is written.
    last: Option<Instant>,
    /// Whether there is a line.
    stands: bool,
}

impl<'a> Progress<'a> {
    /// The progress of a search that begins now.
    pub fn new(rt: &'a HostRuntime) -> Self {
        let last = if rt.stderr().is_terminal() {
            Instant::now(rt).ok()
        } else {
            None
        };
        Progress {
            rt,
            last,
            stands: false,
        }
    }

    /// Erases the line.
    pub fn erase(&mut self) {
        if self.stands {
            let _ = eprint!(self.rt; "\r\x1b[K");
            self.stands = false;
        }
    }
}

impl Watch for Progress<'_> {
    fn ran(&mut self, runs: u32, found: usize) {
        let Some(last) = self.last else {
            return;
        };
        let Ok(now) = Instant::now(self.rt) else {
            return;
        };
        if now.duration_since(last).as_secs() < PERIOD {
            return;
        }
        let _ = eprint!(self.rt; "\r{} runs, {} outcomes\x1b[K", runs, found);
        self.last = Some(now);
        self.stands = true;
    }

    fn over(&mut self) {
        self.erase();
    }
}
