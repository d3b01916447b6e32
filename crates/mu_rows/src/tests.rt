// What `mu` writes, and its status, where no clause of its contract says it: whole texts, faults of files and of the sink, the limit of
// a file. More texts are shown by the cases of the built program.
use crate::calls::{
    RUN, Row, Wanted, answers, each_answers, each_answers_behind, file, words_of, writes,
};
use mu_base::{MemorySink, Status};
use mu_command::mu;
use std::alloc::{AllocError, Global};
use std::process::Abort;
use std::test::Fail;

/// A bundle that adds 40 and 2.
pub const ADDS_40_AND_2: &str =
    ".typedef @i64 = int<64> .funcsig @mi = () -> (@i64) .const @a <@i64> = 40 .const @b <@i64> = 2 \
    .funcdef @main VERSION %v <@mi> { %e(): %c = ADD <@i64> @a @b RET (%c) }";

const RUNS: [Row; 9] = [
    (ADDS_40_AND_2, "returned t0 42\ndone\n", Status::Done),
    ("", "refused entry Unknown\n", Status::Refused),
    (
        ".funcdef @f VERSION %v <@s> { %e(): RET",
        "refused bundle 39 Unexpected\n",
        Status::Refused,
    ),
    (
        ".global @g <@t>",
        "refused bundle 12 Unknown\n",
        Status::Refused,
    ),
    ("@", "refused bundle 0 BadName\n", Status::Refused),
    (
        ".typedef @i64 = int<09>",
        "refused bundle 20 BadByte\n",
        Status::Refused,
    ),
    (
        ".typedef @i32 = int<32> .foo",
        "refused bundle 24 Unexpected\n",
        Status::Refused,
    ),
    (
        ".typedef @i32 = int<32>",
        "refused entry Unknown\n",
        Status::Refused,
    ),
    (
        ".typedef @a = int<64> .typedef @a = int<64>",
        "refused bundle 31 Duplicate\n",
        Status::Refused,
    ),
];

#[test]
fn runs(rt: HostRuntime) -> Result<(), Fail> {
    each_answers(&rt, rt.alloc(), RUN, &RUNS)?;
    Ok(())
}

const TWO_NAMES: &str =
    ".typedef @i1 = int<1> .typedef @i8 = int<8> .typedef @i32 = int<32> .typedef @i64 = int<64> .typedef @void = void .typedef @rv = ref<@void> .typedef @st = stackref .funcsig @m = () -> () .funcsig @mi = () -> (@i64) .funcsig @gs = (@st) -> () .const @c0 <@i64> = 0 .const @c1 <@i64> = 1 .const @c2 <@i64> = 2 .const @c10 <@i64> = 10 .const @c40 <@i64> = 40 .const @n2 <@i64> = -2 .const @w1 <@i32> = 1 .const @nul <@rv> = NULL .typedef @la = struct<@i64 @ra> .typedef @ra = ref<@la> .typedef @lb = struct<@i64 @rb> .typedef @rb = ref<@lb> .funcsig @f = (@ra) -> (@i64) .const @n <@rb> = NULL .funcdef @g VERSION %v <@f> { %e(<@ra> %p): %q = EQ <@rb> %p @n %z = ZEXT <@i1 @i64> %q RET (%z) } .funcdef @main VERSION %v <@mi> { %e(): %r = CALL <@f> @g (@n) RET (%r) }";

const NAME_AND_OPERAND: &str =
    ".typedef @a = int<32>\n.typedef @b = int<64>\n.funcsig @s = (@a) -> ()\n.funcdef @f VERSION %v <@s> {\n%e(<@a> %x): %y = ADD <@b> %x %x\nRET () }\n.funcdef @g VERSION %v <@t> {\n%e(<@a> %x): RET () }\n";

const OPERAND: &str =
    ".typedef @a = int<32>\n.typedef @b = int<64>\n.funcsig @s = (@a) -> ()\n.funcdef @f VERSION %v <@s> {\n%e(<@a> %x): %y = ADD <@b> %x %x\nRET () }\n.funcdef @g VERSION %v <@s> {\n%e(<@a> %x): RET () }\n";

const COMPUTES: [Row; 6] = [
    (
        ".funcdef @main VERSION %v <@mi> { %e(): %q = SDIV <@i64> @c1 @c0 EXC(%n(%q) %x()) %n(<@i64> %r): RET (%r) %x() [%t]: %k = EQ <@rv> %t @nul %z = ZEXT <@i1 @i64> %k RET (%z) }",
        "returned t0 1\ndone\n",
        Status::Done,
    ),
    (
        ".funcdef @main VERSION %v <@mi> { %e(): %q = SDIV <@i64> @c1 @c0 RET (%q) }",
        "undefined DivideByZero t0 @main.v.e 0\n",
        Status::Undefined,
    ),
    (
        ".funcsig @t = () -> (@i8 @i8 @i8) .const @l <@i8> = -128 .const @n <@i8> = -1 .const @w <@i8> = 8 .funcdef @main VERSION %v <@t> { %e(): %a = SDIV <@i8> @l @n %b = SREM <@i8> @l @n %c = SHL <@i8> @n @w RET (%a %b %c) }",
        "returned t0 128 0 255\ndone\n",
        Status::Done,
    ),
    // An exception passes a call without a destination, and is caught.
    (
        ".funcdef @t VERSION %v <@m> { %e(): THROW @nul } .funcdef @p VERSION %v <@m> { %e(): CALL <@m> @t () RET () } .funcdef @main VERSION %v <@mi> { %e(): CALL <@m> @p () EXC(%n() %x()) %n(): RET (@c0) %x() [%q]: %z = EQ <@rv> %q @nul %k = ZEXT <@i1 @i64> %z RET (%k) }",
        "returned t0 1\ndone\n",
        Status::Done,
    ),
    (
        ".funcdef @t VERSION %v <@m> { %e(): THROW @nul } .funcdef @main VERSION %v <@mi> { %e(): CALL <@m> @t () RET (@c0) }",
        "undefined Uncaught t0 @t.v.e 0\n",
        Status::Undefined,
    ),
    (
        ".funcdecl @d <@m> .funcdef @main VERSION %v <@mi> { %e(): CALL <@m> @d () RET (@c0) }",
        "undefined NoBody t0 @main.v.e 0\n",
        Status::Undefined,
    ),
];

#[test]
fn computes(rt: HostRuntime) -> Result<(), Fail> {
    each_answers(
        &rt,
        rt.alloc(),
        RUN,
        &[(TWO_NAMES, "returned t0 1\ndone\n", Status::Done)],
    )?;
    each_answers_behind(&rt, rt.alloc(), RUN, &COMPUTES)?;
    Ok(())
}

/// A loop of ten rounds, which takes 54 steps.
pub const LOOP: &str =
    ".funcdef @main VERSION %v <@mi> { %e(): BRANCH %l(@c0 @c10) %l(<@i64> %s <@i64> %n): %z = EQ <@i64> %n @c0 BRANCH2 %z %d(%s) %k(%s %n) %k(<@i64> %s <@i64> %n): %t = ADD <@i64> %s %n %o = SUB <@i64> %n @c1 BRANCH %l(%t %o) %d(<@i64> %s): RET (%s) }";

const ENOUGH_STEPS: [Row; 1] = [(LOOP, "returned t0 55\ndone\n", Status::Done)];

const TOO_FEW_STEPS: [Row; 1] = [(LOOP, "budget 53\n", Status::Budget)];

#[test]
fn counts_steps(rt: HostRuntime) -> Result<(), Fail> {
    let enough = &["run", "b", "--steps", "54", "--entry", "@main"];
    each_answers_behind(&rt, rt.alloc(), enough, &ENOUGH_STEPS)?;
    let too_few = &["run", "b", "--entry", "@main", "--steps", "53"];
    each_answers_behind(&rt, rt.alloc(), too_few, &TOO_FEW_STEPS)?;
    Ok(())
}

const TWO_OBJECTS: &str =
    ".typedef @p = struct<@i64 @i64> .funcdef @main VERSION %v <@mi> { %e(): %a = NEW <@p> %b = NEW <@i64> RET (@c0) }";

const ENOUGH_CELLS: [Row; 1] = [(TWO_OBJECTS, "returned t0 0\ndone\n", Status::Done)];

const TOO_FEW_CELLS: [Row; 1] = [(
    TWO_OBJECTS,
    "heap full t0 asked 1 left 0\n",
    Status::HeapFull,
)];

// An object of no cells is thrown, and caught or not.
const WITHOUT_CELLS: [Row; 2] = [
    (
        ".funcdef @t VERSION %v <@m> { %e(): %o = NEW <@void> THROW %o } .funcdef @main VERSION %v <@mi> { %e(): CALL <@m> @t () EXC(%n() %x()) %n(): RET (@c0) %x() [%q]: %z = NE <@rv> %q @nul %k = ZEXT <@i1 @i64> %z RET (%k) }",
        "returned t0 1\ndone\n",
        Status::Done,
    ),
    (
        ".funcdef @t VERSION %v <@m> { %e(): %o = NEW <@void> THROW %o } .funcdef @main VERSION %v <@mi> { %e(): CALL <@m> @t () RET (@c0) }",
        "undefined Uncaught t0 @t.v.e 1\n",
        Status::Undefined,
    ),
];

#[test]
fn counts_cells(rt: HostRuntime) -> Result<(), Fail> {
    let enough = &["run", "b", "--cells", "3", "--entry", "@main"];
    each_answers_behind(&rt, rt.alloc(), enough, &ENOUGH_CELLS)?;
    let too_few = &["run", "b", "--entry", "@main", "--cells", "2"];
    each_answers_behind(&rt, rt.alloc(), too_few, &TOO_FEW_CELLS)?;
    let without = &[
        "run", "b", "--entry", "@main", "--steps", "10", "--cells", "0",
    ];
    each_answers_behind(&rt, rt.alloc(), without, &WITHOUT_CELLS)?;
    let usual_steps = &["run", "b", "--entry", "@main", "--cells", "0"];
    each_answers_behind(&rt, rt.alloc(), usual_steps, &WITHOUT_CELLS)?;
    Ok(())
}

const CHECKS: [Row; 11] = [
    (ADDS_40_AND_2, "ok\n", Status::Done),
    ("", "ok\n", Status::Done),
    (
        ".funcdef @f VERSION %v <@s> { %e(): RET",
        "refused bundle 39 Unexpected\n",
        Status::Refused,
    ),
    (
        ".expose",
        "refused bundle 0 NotInProfile\n",
        Status::Refused,
    ),
    (
        ".typedef @d = double",
        "refused bundle 14 NotInProfile\n",
        Status::Refused,
    ),
    // A name that is defined twice comes before one that is not defined.
    (
        ".global @g <@b> .typedef @a = int<64> .typedef @a = int<64>",
        "refused bundle 47 Duplicate\n",
        Status::Refused,
    ),
    (
        ".typedef @a = struct<@a>",
        "refused bundle 9 EndlessType\n",
        Status::Refused,
    ),
    (
        ".typedef @a = struct<@r> .typedef @r = ref<@a>",
        "ok\n",
        Status::Done,
    ),
    // Two names of one recursive type.
    (TWO_NAMES, "ok\n", Status::Done),
    // A name that nothing defines comes before an operand of another type.
    (
        NAME_AND_OPERAND,
        "refused bundle 165 Unknown\n",
        Status::Refused,
    ),
    (OPERAND, "refused bundle 126 OperandType\n", Status::Refused),
];

#[test]
fn checks(rt: HostRuntime) -> Result<(), Fail> {
    each_answers(&rt, rt.alloc(), &["check", "b"], &CHECKS)?;
    Ok(())
}

const CONSTANTS_AND_NUMBERS: [Row; 12] = [
    // A member may come later.
    (
        ".typedef @i8 = int<8> .typedef @s = struct<@i8> .const @a <@s> = {@b} .const @b <@i8> = 1",
        "ok\n",
        Status::Done,
    ),
    (
        ".typedef @i8 = int<8> .const @a <@i8> = 256",
        "refused bundle 40 OutOfWidth\n",
        Status::Refused,
    ),
    (
        ".typedef @i8 = int<8> .const @a <@i8> = 255",
        "ok\n",
        Status::Done,
    ),
    (
        ".typedef @i8 = int<8> .const @a <@i8> = -128",
        "ok\n",
        Status::Done,
    ),
    (
        ".typedef @i8 = int<8> .const @a <@i8> = -129",
        "refused bundle 40 OutOfWidth\n",
        Status::Refused,
    ),
    (
        ".typedef @i8 = int<8> .const @a <@i8> = NULL",
        "refused bundle 40 NotNullable\n",
        Status::Refused,
    ),
    (
        ".typedef @i8 = int<8> .const @a <@i8> = {}",
        "refused bundle 40 WrongShape\n",
        Status::Refused,
    ),
    ("@", "refused bundle 0 BadName\n", Status::Refused),
    (
        ".typedef @a = int<340282366920938463463374607431768211456>",
        "refused bundle 18 NumberTooLarge\n",
        Status::Refused,
    ),
    (
        ".typedef @a = int<09>",
        "refused bundle 18 BadByte\n",
        Status::Refused,
    ),
    (
        ".typedef @a = int<012>",
        "refused bundle 18 WrongArgument\n",
        Status::Refused,
    ),
    // A length has at most 64 bits.
    (
        ".typedef @w = int<128> .typedef @i64 = int<64> .typedef @hy = hybrid<@i64> .funcsig @s = () -> () .const @n <@w> = 1 .funcdef @f VERSION %v <@s> { %e(): %o = NEWHYBRID <@hy @w> @n RET () }",
        "refused bundle 173 OperandType\n",
        Status::Refused,
    ),
];

#[test]
fn checks_constants_and_numbers(rt: HostRuntime) -> Result<(), Fail> {
    each_answers(&rt, rt.alloc(), &["check", "b"], &CONSTANTS_AND_NUMBERS)?;
    Ok(())
}

// The beginning of a type's definition, whose name is `@` and that many letters.
fn begins_a_name(alloc: Global, letters: usize) -> Result<Vec<u8>, AllocError> {
    let name = vec![in alloc; b'a'; letters]?;
    let mut bytes = Vec::from_slice(alloc, b".typedef @")?;
    bytes.extend_from_slice(&name)?;
    Ok(bytes)
}

#[test]
fn checks_a_byte_and_long_names(rt: HostRuntime) -> Result<(), Fail> {
    let check = &["check", "b"];
    let bad = Wanted {
        text: "refused bundle 0 BadByte\n",
        status: Status::Refused,
    };
    answers(&rt, rt.alloc(), check, vec![in rt.alloc(); 0x80; 1]?, bad)?;
    let ends = Wanted {
        text: "refused bundle 65545 Unexpected\n",
        status: Status::Refused,
    };
    let longest = begins_a_name(rt.alloc(), 65_535)?;
    answers(&rt, rt.alloc(), check, longest, ends)?;
    let past = Wanted {
        text: "refused bundle 9 TooLong\n",
        status: Status::Refused,
    };
    let too_long = begins_a_name(rt.alloc(), 65_536)?;
    answers(&rt, rt.alloc(), check, too_long, past)?;
    Ok(())
}

const PRINTS: [Row; 5] = [
    (
        ADDS_40_AND_2,
        ".typedef @i64 = int<64>\n.funcsig @mi = () -> (@i64)\n.const @a <@i64> = 40\n.const @b <@i64> = 2\n\
        .funcdef @main VERSION %v <@mi> {\n%e():\n  %c = ADD <@i64> @a @b\n  RET (%c)\n}\n",
        Status::Done,
    ),
    (
        ".typedef @a=int<0x40>//x",
        ".typedef @a = int<64>\n",
        Status::Done,
    ),
    ("", "", Status::Done),
    // Only the grammar is asked: names and types do not matter.
    (
        ".global @g <@t> .global @g <@t>",
        ".global @g <@t>\n.global @g <@t>\n",
        Status::Done,
    ),
    (
        ".typedef @a =",
        "refused bundle 13 Unexpected\n",
        Status::Refused,
    ),
];

#[test]
fn prints(rt: HostRuntime) -> Result<(), Fail> {
    each_answers(&rt, rt.alloc(), &["print", "b"], &PRINTS)?;
    Ok(())
}

#[test]
fn puts_nothing_of_an_empty_text(rt: HostRuntime) -> Result<(), Fail> {
    let words = words_of(rt.alloc(), &["print", "b"])?;
    let mut inputs = file(rt.alloc(), Vec::new(rt.alloc()), &[])?;
    let mut out = MemorySink::new(rt.alloc(), Vec::from_slice(rt.alloc(), &[0])?);
    assert!(rt; mu(rt.alloc(), &words, &mut inputs, &mut out) == Status::Done);
    assert_eq!(rt; out.ends().len(), 0);
    Ok(())
}

// A call of the program over the bundle that adds 40 and 2, and what it must come to.
#[derive(Clone, Copy)]
struct Call {
    words: &'static [&'static str],
    failing_fetches: &'static [u32],
    failing_puts: &'static [u32],
    text: &'static str,
    status: Status,
}

// A run of that bundle where nothing fails.
const ADDS: Call = Call {
    words: RUN,
    failing_fetches: &[],
    failing_puts: &[],
    text: "returned t0 42\ndone\n",
    status: Status::Done,
};

const OTHER_WORDS_AND_FAULTS: [Call; 12] = [
    Call {
        words: &["run", "b"],
        text: "usage\n",
        status: Status::Usage,
        ..ADDS
    },
    Call {
        words: &["check"],
        text: "usage\n",
        status: Status::Usage,
        ..ADDS
    },
    Call {
        words: &["print", "c"],
        text: "read fault bundle\n",
        status: Status::ReadFault,
        ..ADDS
    },
    Call {
        words: &["check", "b"],
        failing_puts: &[0],
        text: "",
        status: Status::SinkFault,
        ..ADDS
    },
    Call {
        words: &["print", "b"],
        failing_puts: &[0],
        text: "",
        status: Status::SinkFault,
        ..ADDS
    },
    Call {
        words: &["run", "b", "--entry", "main"],
        text: "refused entry Unknown\n",
        status: Status::Refused,
        ..ADDS
    },
    Call {
        words: &["run", "c", "--entry", "@main"],
        text: "read fault bundle\n",
        status: Status::ReadFault,
        ..ADDS
    },
    Call {
        failing_fetches: &[0],
        text: "read fault bundle\n",
        status: Status::ReadFault,
        ..ADDS
    },
    Call {
        failing_puts: &[0],
        text: "",
        status: Status::SinkFault,
        ..ADDS
    },
    Call {
        failing_puts: &[1],
        text: "returned t0 42\n",
        status: Status::SinkFault,
        ..ADDS
    },
    Call {
        failing_fetches: &[1],
        failing_puts: &[2],
        ..ADDS
    },
    Call {
        failing_fetches: &[0],
        failing_puts: &[0],
        text: "",
        status: Status::SinkFault,
        ..ADDS
    },
];

fn each_comes_to(rt: &impl Abort, alloc: Global, calls: &[Call]) -> Result<(), AllocError> {
    for call in calls {
        let bytes = Vec::from_slice(alloc, ADDS_40_AND_2.as_bytes())?;
        let inputs = file(alloc, bytes, call.failing_fetches)?;
        let out = MemorySink::new(alloc, Vec::from_slice(alloc, call.failing_puts)?);
        let wanted = Wanted {
            text: call.text,
            status: call.status,
        };
        writes(rt, alloc, call.words, inputs, out, wanted)?;
    }
    Ok(())
}

#[test]
fn other_words_and_faults(rt: HostRuntime) -> Result<(), Fail> {
    each_comes_to(&rt, rt.alloc(), &OTHER_WORDS_AND_FAULTS)?;
    Ok(())
}

// A file of that many spaces.
fn blanks(
    rt: &impl Abort,
    alloc: Global,
    all: &[&str],
    count: usize,
    wanted: Wanted,
) -> Result<(), AllocError> {
    answers(rt, alloc, all, vec![in alloc; b' '; count]?, wanted)
}

#[test]
fn files_at_the_limit(rt: HostRuntime) -> Result<(), Fail> {
    let empty = Wanted {
        text: "refused entry Unknown\n",
        status: Status::Refused,
    };
    blanks(&rt, rt.alloc(), RUN, 1_048_576, empty)?;
    let ok = Wanted {
        text: "ok\n",
        status: Status::Done,
    };
    blanks(&rt, rt.alloc(), &["check", "b"], 1_048_576, ok)?;
    let too_long = Wanted {
        text: "too long bundle\n",
        status: Status::TooLong,
    };
    blanks(&rt, rt.alloc(), &["check", "b"], 1_048_577, too_long)?;
    blanks(&rt, rt.alloc(), RUN, 1_048_577, too_long)?;
    Ok(())
}
