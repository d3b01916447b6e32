// What is refused: scripts for the heap and for the client, schedules, and each beginning of a bundle.
use crate::calls::{
    ANSWERED, FILLED, RUN, Row, SCHEDULED, behind_definitions, each_text_answers, file, words_of,
};
use crate::swaps::GENERATOR;
use mu_base::{MemorySink, Status};
use mu_command::mu;
use std::alloc::{AllocError, Global};
use std::process::Abort;
use std::test::Fail;

const ANSWERS_0: &str =
    ".global @g <@i64> .typedef @hy = hybrid<@i64> .funcdef @main VERSION %v <@mi> { %e(): RET (@c0) }";

const SCRIPTS_FOR_THE_HEAP: [Row; 4] = [
    (
        ".new $a <@i64> .new $a <@i64>",
        "refused hail 20 Duplicate\n",
        Status::Refused,
    ),
    (
        ".newhybrid $h <@hy> 340282366920938463463374607431768211455",
        "refused hail 0 HeapFull\n",
        Status::Refused,
    ),
    // 64 braces in one another, and 65.
    (
        ".init @g = {{{{{{{{{{{{{{{{{{{{{{{{{{{{{{{{{{{{{{{{{{{{{{{{{{{{{{{{{{{{{{{{0}}}}}}}}}}}}}}}}}}}}}}}}}}}}}}}}}}}}}}}}}}}}}}}}}}}}}}}}}}}}}}}}",
        "refused hail 11 WrongType\n",
        Status::Refused,
    ),
    (
        ".init @g = {{{{{{{{{{{{{{{{{{{{{{{{{{{{{{{{{{{{{{{{{{{{{{{{{{{{{{{{{{{{{{{{{",
        "refused hail 75 Unexpected\n",
        Status::Refused,
    ),
];

const SCRIPTS_FOR_THE_CLIENT: [Row; 2] = [
    (
        "{ kept 4294967296 stop }",
        "refused client 7 Unexpected\n",
        Status::Refused,
    ),
    (
        "{ pass (@zz) }",
        "refused client 8 Unknown\n",
        Status::Refused,
    ),
];

const SCHEDULES: [Row; 3] = [
    ("0 x", "refused schedule 2 BadToken\n", Status::Refused),
    (
        "4294967296",
        "refused schedule 0 NumberTooLarge\n",
        Status::Refused,
    ),
    // A number ends before a comment.
    ("12//x", "returned t0 0\ndone\n", Status::Done),
];

#[test]
fn scripts_and_schedules_are_refused(rt: HostRuntime) -> Result<(), Fail> {
    each_text_answers(&rt, rt.alloc(), FILLED, ANSWERS_0, &SCRIPTS_FOR_THE_HEAP)?;
    each_text_answers(
        &rt,
        rt.alloc(),
        ANSWERED,
        ANSWERS_0,
        &SCRIPTS_FOR_THE_CLIENT,
    )?;
    each_text_answers(&rt, rt.alloc(), SCHEDULED, ANSWERS_0, &SCHEDULES)?;
    Ok(())
}

fn refuses_each_beginning(rt: &impl Abort, alloc: Global, bundle: &[u8]) -> Result<(), AllocError> {
    let words = words_of(alloc, RUN)?;
    for cut in 0..bundle.len() {
        let bytes = Vec::from_slice(alloc, &bundle[..cut])?;
        let mut inputs = file(alloc, bytes, &[])?;
        let mut out = MemorySink::new(alloc, Vec::new(alloc));
        assert!(rt; mu(alloc, &words, &mut inputs, &mut out) == Status::Refused);
    }
    Ok(())
}

#[test]
fn beginnings_of_a_bundle_are_refused(rt: HostRuntime) -> Result<(), Fail> {
    let bundle = behind_definitions(rt.alloc(), GENERATOR)?;
    refuses_each_beginning(&rt, rt.alloc(), &bundle)?;
    Ok(())
}
