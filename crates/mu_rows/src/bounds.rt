// The widest integers, the least and the greatest budgets, the most cells, long runs, and trials.
use crate::calls::{
    RUN, Row, behind_definitions, each_answers, each_answers_behind, file, words_of,
};
use crate::tests::LOOP;
use mu_base::{MemorySink, Status};
use mu_command::mu;
use std::alloc::{AllocError, Global};
use std::fmt::Write;
use std::process::Abort;
use std::test::Fail;

const OF_128_BITS: [Row; 1] = [(
    ".typedef @w = int<128> .funcsig @q = () -> (@w @w @w) .const @a <@w> = -1 \
    .const @l <@w> = -170141183460469231731687303715884105728 \
    .funcdef @main VERSION %v <@q> { %e(): %c = ADD <@w> @a @a %d = MUL <@w> @a @a %s = SDIV <@w> @l @a RET (%c %d %s) }",
    "returned t0 340282366920938463463374607431768211454 1 170141183460469231731687303715884105728\ndone\n",
    Status::Done,
)];

#[test]
fn integers_of_128_bits_wrap(rt: HostRuntime) -> Result<(), Fail> {
    each_answers_behind(&rt, rt.alloc(), RUN, &OF_128_BITS)?;
    Ok(())
}

const NO_STEP: [Row; 1] = [(LOOP, "budget 0\n", Status::Budget)];

const WITHOUT_END: &str = ".funcdef @main VERSION %v <@mi> { %e(): BRANCH %e() }";

const USUAL_BUDGET: [Row; 1] = [(WITHOUT_END, "budget 200000\n", Status::Budget)];

const GREATEST_BUDGET: [Row; 1] = [(WITHOUT_END, "budget 1000000\n", Status::Budget)];

const PAST_THE_GREATEST: [Row; 1] = [(WITHOUT_END, "usage\n", Status::Usage)];

#[test]
fn budgets_have_a_least_and_a_greatest(rt: HostRuntime) -> Result<(), Fail> {
    let none = &["run", "b", "--entry", "@main", "--steps", "0"];
    each_answers_behind(&rt, rt.alloc(), none, &NO_STEP)?;
    each_answers_behind(&rt, rt.alloc(), RUN, &USUAL_BUDGET)?;
    let greatest = &["run", "b", "--entry", "@main", "--steps", "1000000"];
    each_answers_behind(&rt, rt.alloc(), greatest, &GREATEST_BUDGET)?;
    let past = &["run", "b", "--entry", "@main", "--steps", "1000001"];
    each_answers_behind(&rt, rt.alloc(), past, &PAST_THE_GREATEST)?;
    Ok(())
}

const ASKS_FOR_1000001_CELLS: &str = ".typedef @hy = hybrid<@i64> .const @k <@i64> = 1000001 \
    .funcdef @main VERSION %v <@mi> { %e(): %h = NEWHYBRID <@hy @i64> @k RET (@c0) }";

const MOST_CELLS: [Row; 1] = [(
    ASKS_FOR_1000001_CELLS,
    "heap full t0 asked 1000001 left 1000000\n",
    Status::HeapFull,
)];

const PAST_THE_MOST: [Row; 1] = [(ASKS_FOR_1000001_CELLS, "usage\n", Status::Usage)];

#[test]
fn there_are_at_most_a_million_cells(rt: HostRuntime) -> Result<(), Fail> {
    let most = &["run", "b", "--entry", "@main", "--cells", "1000000"];
    each_answers_behind(&rt, rt.alloc(), most, &MOST_CELLS)?;
    let past = &["run", "b", "--entry", "@main", "--cells", "1000001"];
    each_answers_behind(&rt, rt.alloc(), past, &PAST_THE_MOST)?;
    Ok(())
}

// One thread writes the numbers from @k down to 1 to a cell, and returns. Then the other one reads the cell without end.
const WRITES_THEN_READS: &str = ".global @x <@i64> \
    .funcdef @g VERSION %v <@m> { %e(): %a = LOAD RELAXED <@i64> @x BRANCH %e() } \
    .funcdef @main VERSION %v <@mi> { %e(): %s = COMMINST @uvm.new_stack <[@m]> (@g) \
    %t = NEWTHREAD %s PASS_VALUES<>() BRANCH %l(@k) \
    %l(<@i64> %n): STORE RELAXED <@i64> @x %n %o = SUB <@i64> %n @c1 %z = EQ <@i64> %o @c0 BRANCH2 %z %d() %l(%o) \
    %d(): RET (@c0) }";

// A run of that bundle until its budget is used up.
#[derive(Clone, Copy)]
struct LongRun {
    words: &'static [&'static str],
    // The item that defines @k, and its value.
    definition: &'static str,
    writes: u32,
    last_event: u32,
    ending: &'static str,
}

const TO_THE_USUAL_BUDGET: LongRun = LongRun {
    words: RUN,
    definition: ".const @k <@i64> = 40000 ",
    writes: 40_000,
    last_event: 60_000,
    ending: "budget 200000\n",
};

const TO_THE_GREATEST_BUDGET: LongRun = LongRun {
    words: &["run", "b", "--entry", "@main", "--steps", "1000000"],
    definition: ".const @k <@i64> = 100000 ",
    writes: 100_000,
    last_event: 400_000,
    ending: "budget 1000000\n",
};

// The writes have the positions from 1 on, and each read is of the last one.
fn lines_of(alloc: Global, run: &LongRun) -> Result<String, AllocError> {
    let writes = u64::from(run.writes);
    let mut text = String::from_str(alloc, "0 t0 stack s1\n1 t0 thread t1\n2 t1 enter s1\n")?;
    for position in 1..writes + 1 {
        let event = position + 2;
        let value = writes + 1 - position;
        write!(text, "{event} t0 write RELAXED #0+0 {position} {value}\n")?;
    }
    text.push_str("returned t0 0\n")?;
    for event in writes + 3..u64::from(run.last_event) + 1 {
        write!(text, "{event} t1 read RELAXED #0+0 {writes} 1\n")?;
    }
    text.push_str(run.ending)?;
    Ok(text)
}

// The texts are not shown where they differ: the longer one has 15 million bytes.
fn writes_its_lines(rt: &impl Abort, alloc: Global, run: &LongRun) -> Result<(), AllocError> {
    let mut bundle = behind_definitions(alloc, run.definition)?;
    bundle.extend_from_slice(WRITES_THEN_READS.as_bytes())?;
    let words = words_of(alloc, run.words)?;
    let mut inputs = file(alloc, bundle, &[])?;
    let mut out = MemorySink::new(alloc, Vec::new(alloc));
    assert!(rt; mu(alloc, &words, &mut inputs, &mut out) == Status::Budget);
    let text = lines_of(alloc, run)?;
    assert!(rt; out.bytes() == text.as_bytes());
    Ok(())
}

#[test]
fn long_runs_read_the_newest_value(rt: HostRuntime) -> Result<(), Fail> {
    writes_its_lines(&rt, rt.alloc(), &TO_THE_USUAL_BUDGET)?;
    writes_its_lines(&rt, rt.alloc(), &TO_THE_GREATEST_BUDGET)?;
    Ok(())
}

// The file is not asked for.
const TRIAL_OF_20: [Row; 1] = [("", "trial 20 steps 124 events 83 done\n", Status::Done)];

const TRIAL_OF_1000: [Row; 1] = [("", "trial 1000 steps 6004 events 4003 done\n", Status::Done)];

#[test]
fn trials_count_steps_and_events(rt: HostRuntime) -> Result<(), Fail> {
    each_answers(&rt, rt.alloc(), &["trial", "20"], &TRIAL_OF_20)?;
    each_answers(&rt, rt.alloc(), &["trial", "1000"], &TRIAL_OF_1000)?;
    Ok(())
}
