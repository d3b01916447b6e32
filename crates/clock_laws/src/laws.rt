// Laws of clocks, each the contract of a function that does nothing: to call it is to know its law. `specs/Theorems.antt`
// has their statements.
ghost use Rattle.clock_laws.specs.Theorems.{HappensBeforeIsClockTest, NextIsClockTest, KnownIsClockTest, ViewFloorIsFloor, LeftStackCarriesClock};

/// Happens-before equals the clock test at every event, at the event that comes next, and for what a thread knows.
pub fn happens_before_is_a_clock_test()
    ensures event { HappensBeforeIsClockTest }
    ensures next { NextIsClockTest }
    ensures known { KnownIsClockTest }
{}

/// The floor of a load that clocks give is the floor of the memory model.
pub fn floor_by_clocks_is_the_floor()
    ensures { ViewFloorIsFloor }
{}

/// A stack that was left or made carries the clock of its last leaving or making.
pub fn left_stack_carries_its_clock()
    ensures { LeftStackCarriesClock }
{}
