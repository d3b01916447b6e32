// Lists of events, played on both memories.
ghost use Rattle.std.specs.Prelude.{◌≡◌};

use crate::runs::Run;
use mem_axioms::{Chosen, Event, LogMemory, Memory, Race, Rule, Wanted};
use mem_views::ViewMemory;
use mu_base::Steps;
use mu_values::{CellId, Scalar};
use std::alloc::{AllocError, Global};
use std::process::Abort;
use std::sync::ledger::{Blank, Ledger};

/// A line of a list.
#[derive(Clone, Copy)]
pub enum Line {
    /// The event fits, and no race is found.
    Put(Event),
    /// The event fits, and races with the one of that number.
    Races(Event, u32),
    /// What a thread wants of a cell has that option under that number, or none there.
    Choice(u32, CellId, Wanted, u32, Option<Chosen>),
}

/// Plays the lines, one after another. A line that does not hold ends the test.
fn play<M: Memory + Drop, L: Ledger>(
    rt: &impl Abort,
    run: &mut Run<M>,
    lines: &[Line],
    steps: &mut Steps<L>,
) -> Result<(), AllocError> {
    for (n, line) in lines.iter().enumerate() {
        match *line {
            Line::Put(event) => {
                assert!(rt; run.commit(rt, event, steps)? == None, "at line {n}");
            }
            Line::Races(event, earlier) => {
                let race = run.commit(rt, event, steps)?;
                assert!(rt; race == Some(Race { earlier }), "at line {n}");
            }
            Line::Choice(thread, cell, wanted, number, expected) => {
                let choice = run.choice(thread, cell, &wanted, number, steps);
                assert!(rt; choice == expected, "at line {n}");
            }
        }
    }
    Ok(())
}

/// Plays each list on a new memory of either kind, under that rule of release sequences, over cells with those scalars.
pub fn play_lists<L: Ledger>(
    rt: &impl Abort,
    alloc: Global,
    rule: Rule,
    cells: &[[Scalar; 2]],
    lists: &[&[Line]],
    blank: Blank,
) -> Result<(), AllocError>
    requires name { blank.name ≡ L.name }
    requires parts { blank.parts ≡ L.parts }
    requires one { L.parts ≡ 1 }
{
    let mut steps = Steps::<L>::new(blank);
    for list in lists {
        let mut whole = Run::new(LogMemory::new(alloc, rule), alloc, cells)?;
        play(rt, &mut whole, list, &mut steps)?;
        let mut views = Run::new(ViewMemory::new(alloc, rule), alloc, cells)?;
        play(rt, &mut views, list, &mut steps)?;
    }
    Ok(())
}
