// The judge over histories and clocks.
ghost use Rattle.std.specs.Prelude.{◌≡◌, ◌<◌, length, IfOk};
ghost use Rattle.verdicts.specs.Verdicts.{verdict};
ghost use Rattle.mem_axioms.specs.Threads.{HaveFewThreads};

use crate::log_views::LogViews;
use mem_axioms::{Log, Rule};
use std::alloc::{AllocError, Global};
use verdicts::Verdict;

/// The verdict on a log whose threads are below 64. An error comes only where no memory was found.
///
/// Each event takes the time of some look-ups by halves for each thread, and memory for its clocks; only the one that fails takes a look at
/// each event before it.
pub fn judge(alloc: Global, rule: Rule, log: &Log) -> Result<Verdict, AllocError>
    requires few { HaveFewThreads log.now }
    requires count { length log.now < 4294967295 }
    ensures { IfOk result (λ found. found ≡ verdict rule log.now) }
{
    let mut views = LogViews::new(alloc, rule);
    verdicts::judge(&mut views, log)
}
