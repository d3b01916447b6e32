// Objects and places, made by instructions and by a script for the heap.
use crate::calls::{FILLED, RUN, Row, each_answers_behind, each_text_answers};
use mu_base::Status;
use std::test::Fail;

const OBJECTS: [Row; 3] = [
    // A struct of 32 bits is not what the object begins with.
    (
        ".typedef @p = struct<@i64 @i64> .typedef @rp = ref<@p> .typedef @h = struct<@i64> .typedef @rh = ref<@h> \
        .typedef @k = struct<@i32> .typedef @rk = ref<@k> \
        .funcdef @main VERSION %v <@mi> { %e(): %a = NEW <@p> %b = REFCAST <@rp @rv> %a %c = REFCAST <@rv @rh> %b \
        %d = REFCAST <@rv @rk> %b RET (@c0) }",
        "undefined BadCast t0 @main.v.e 3\n",
        Status::Undefined,
    ),
    // A place goes to the end of a hybrid and back. The end has no cell.
    (
        ".typedef @hy = hybrid<@i64> \
        .funcdef @main VERSION %v <@mi> { %e(): %h = NEWHYBRID <@hy @i64> @c2 %i = GETIREF <@hy> %h \
        %a = GETVARPARTIREF <@hy> %i %b = SHIFTIREF <@i64 @i64> %a @c2 %c = SHIFTIREF <@i64 @i64> %b @n2 \
        %d = LOAD NOT_ATOMIC <@i64> %c %f = LOAD NOT_ATOMIC <@i64> %b RET (%d) }",
        "0 t0 read NOT_ATOMIC #0+0 0 0\nundefined OutOfRange t0 @main.v.e 6\n",
        Status::Undefined,
    ),
    (
        ".typedef @hy = hybrid<@i64> \
        .funcdef @main VERSION %v <@mi> { %e(): %h = NEWHYBRID <@hy @i64> @n2 RET (@c0) }",
        "heap full t0 asked 18446744073709551614 left 100000\n",
        Status::HeapFull,
    ),
];

#[test]
fn objects_are_cast_and_places_are_moved(rt: HostRuntime) -> Result<(), Fail> {
    each_answers_behind(&rt, rt.alloc(), RUN, &OBJECTS)?;
    Ok(())
}

const FOLLOWS: &str =
    ".typedef @n = struct<@i64 @rn> .typedef @rn = ref<@n> .typedef @ii = iref<@i64> \
    .typedef @hy = hybrid<@i64> .global @g <@rn> .global @p <@ii> \
    .funcdef @main VERSION %v <@mi> { %e(): %r = LOAD <@rn> @g %i = GETIREF <@n> %r %j = GETFIELDIREF <@n 1> %i \
    %s = LOAD <@rn> %j %k = GETIREF <@n> %s %l = GETFIELDIREF <@n 0> %k %x = LOAD <@i64> %l %q = LOAD <@ii> @p \
    %y = LOAD <@i64> %q %z = ADD <@i64> %x %y RET (%z) }";

const MADE_BY_A_SCRIPT: [Row; 2] = [
    (
        ".new $a <@n> .new $b <@n> .newhybrid $h <@hy> 2 .init $a = {5 $b} .init $b = {7 $a} .init $h[0][1] = 9 \
        .init @g = $a .init @p = &$h[0][1]",
        "0 t0 read NOT_ATOMIC #0+0 0 #2\n\
        1 t0 read NOT_ATOMIC #2+1 0 #3\n\
        2 t0 read NOT_ATOMIC #3+0 0 7\n\
        3 t0 read NOT_ATOMIC #1+0 0 #4+1\n\
        4 t0 read NOT_ATOMIC #4+1 0 9\n\
        returned t0 16\n\
        done\n",
        Status::Done,
    ),
    (
        ".init @g = $a",
        "refused hail 11 Unknown\n",
        Status::Refused,
    ),
];

#[test]
fn scripts_make_objects_that_runs_follow(rt: HostRuntime) -> Result<(), Fail> {
    each_text_answers(&rt, rt.alloc(), FILLED, FOLLOWS, &MADE_BY_A_SCRIPT)?;
    Ok(())
}
