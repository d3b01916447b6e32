// Scripts over one bundle. Places are counted by hand.
ghost use Rattle.std.specs.Prelude.{IfOk};
ghost use Rattle.hail_load.specs.Code.{code_of};
ghost use Rattle.hail_load.specs.LoadAnswers.{AreGlobals};

use bundle_check::check;
use bundle_names::resolve;
use checked_code::Checked;
use hail_load::{LoadFault, LoadKind, load_hail, read_hail};
use ir_text::read_bundle;
use mu_values::Scalar;
use std::alloc::{AllocError, Global};
use std::process::Abort;
use std::test::Fail;
use typed_heap::{CellId, Heap};

// Globals: 0 is @g, 1 @p, 2 @a, 3 @f, 4 @x, 5 @b, 6 @w. So the first object of a script is 7.
const TEXT: &[u8] =
    b".typedef @i64 = int<64> .typedef @n = struct<@i64 @rn> .typedef @rn = ref<@n> .typedef @ii = iref<@i64> .typedef @hy = hybrid<@i64> .typedef @v = void .typedef @arr = array<@i64 3> .typedef @fr = funcref<@s> .typedef @i8 = int<8> .typedef @hf = hybrid<@i8 @i64> .funcsig @s = () -> () .const @k <@i64> = 7 .funcdecl @main <@s> .global @g <@rn> .global @p <@ii> .global @a <@arr> .global @f <@fr> .global @x <@i64> .global @b <@i8> .global @w <@n>";

fn checked(alloc: Global, text: &[u8]) -> Result<Checked, Fail> {
    let bundle = read_bundle(alloc, text)?;
    let names = resolve(alloc, bundle)?;
    Ok(check(alloc, names)?)
}

/// A heap with the objects of the globals.
#[tactic(auto, using(hail_load::specs::Lemmas::Knowing::is_known))]
fn heap_of(alloc: Global, code: &Checked, cells: u32) -> Result<Heap, AllocError>
    ensures { IfOk result (λ heap. AreGlobals (code_of code.now) heap.objects) }
{
    let _items = code.items();
    let classes = code.classes();
    let mut heap = Heap::new(alloc, cells);
    for n in 0..code.globals() {
        if n > 100 {
            return Err(AllocError);
        }
        let t = code.global_type(n);
        if classes.leaves(t).len() > 100 || heap.objects() > 100 {
            return Err(AllocError);
        }
        heap.add_global(classes, t)?;
    }
    Ok(heap)
}

/// What loading a script answers.
fn answer(
    alloc: Global,
    code: &Checked,
    heap: &mut Heap,
    script: &[u8],
) -> Result<Result<(), LoadFault>, Fail>
    requires { AreGlobals (code_of code.now) heap.old.objects }
{
    let hail = read_hail(alloc, script, code)?;
    Ok(load_hail(alloc, &hail, code, heap))
}

/// What a cell begins with, where it is there.
fn cell(heap: &Heap, object: u32, at: u32) -> Option<Scalar> {
    if object < heap.objects() && at < heap.size(object) {
        Some(heap.initial(CellId { object, at }))
    } else {
        None
    }
}

fn int(width: u32, bits: u128) -> Option<Scalar> {
    Some(Scalar::Int { width, bits })
}

/// A script that is refused.
fn refuses(
    rt: &impl Abort,
    alloc: Global,
    code: &Checked,
    script: &[u8],
    kind: LoadKind,
    place: usize,
) -> Result<(), Fail> {
    let mut heap = heap_of(alloc, code, 10)?;
    let answer = answer(alloc, code, &mut heap, script)?;
    assert_eq!(rt; answer, Err(LoadFault::At { kind, place }));
    Ok(())
}

fn refuses_targets(rt: &impl Abort, alloc: Global, code: &Checked) -> Result<(), Fail> {
    refuses(rt, alloc, code, b".init @a[3] = 5", LoadKind::OutOfRange, 9)?;
    refuses(rt, alloc, code, b".init @w[2] = 5", LoadKind::OutOfRange, 9)?;
    refuses(rt, alloc, code, b".init @x[0] = 5", LoadKind::WrongType, 8)?;
    refuses(
        rt,
        alloc,
        code,
        b".init @a[1][0] = 5",
        LoadKind::WrongType,
        11,
    )?;
    refuses(
        rt,
        alloc,
        code,
        b".new $v <@v> .init $v[0] = 5",
        LoadKind::WrongType,
        21,
    )?;
    let script = b".newhybrid $h <@hf> 2 .init $h[2] = 3";
    refuses(rt, alloc, code, script, LoadKind::OutOfRange, 31)?;
    let script = b".newhybrid $h <@hf> 2 .init $h[1][2] = 3";
    refuses(rt, alloc, code, script, LoadKind::OutOfRange, 34)
}

fn refuses_sources(rt: &impl Abort, alloc: Global, code: &Checked) -> Result<(), Fail> {
    refuses(rt, alloc, code, b".init @b = 256", LoadKind::OutOfRange, 11)?;
    refuses(
        rt,
        alloc,
        code,
        b".init @b = -129",
        LoadKind::OutOfRange,
        11,
    )?;
    refuses(rt, alloc, code, b".init @g = 5", LoadKind::WrongType, 11)?;
    refuses(rt, alloc, code, b".init @x = NULL", LoadKind::WrongType, 11)?;
    refuses(rt, alloc, code, b".init @b = @k", LoadKind::WrongType, 11)?;
    refuses(rt, alloc, code, b".init @p = @b", LoadKind::WrongType, 11)?;
    refuses(
        rt,
        alloc,
        code,
        b".init @x = @main",
        LoadKind::WrongType,
        11,
    )?;
    refuses(
        rt,
        alloc,
        code,
        b".new $a <@i64> .init @g = $a",
        LoadKind::WrongType,
        26,
    )?;
    refuses(rt, alloc, code, b".init @p = &@b", LoadKind::WrongType, 11)?;
    refuses(
        rt,
        alloc,
        code,
        b".init @x = &@a[9]",
        LoadKind::WrongType,
        11,
    )?;
    refuses(
        rt,
        alloc,
        code,
        b".init @p = &@a[9]",
        LoadKind::OutOfRange,
        15,
    )
}

fn refuses_lists(rt: &impl Abort, alloc: Global, code: &Checked) -> Result<(), Fail> {
    refuses(
        rt,
        alloc,
        code,
        b".init @a = {1 2}",
        LoadKind::WrongType,
        11,
    )?;
    refuses(
        rt,
        alloc,
        code,
        b".init @a = {1 2 3 4}",
        LoadKind::WrongType,
        11,
    )?;
    refuses(rt, alloc, code, b".init @x = {1}", LoadKind::WrongType, 11)?;
    refuses(
        rt,
        alloc,
        code,
        b".init @a = {1 NULL 99999999999999999999}",
        LoadKind::WrongType,
        14,
    )?;
    refuses(
        rt,
        alloc,
        code,
        b".new $v <@v> .init $v = {}",
        LoadKind::WrongType,
        24,
    )?;
    let script = b".newhybrid $h <@hf> 2 .init $h = {1 2}";
    refuses(rt, alloc, code, script, LoadKind::WrongType, 36)?;
    let script = b".newhybrid $h <@hf> 2 .init $h[1] = {3}";
    refuses(rt, alloc, code, script, LoadKind::WrongType, 36)
}

fn refuses_objects(rt: &impl Abort, alloc: Global, code: &Checked) -> Result<(), Fail> {
    refuses(rt, alloc, code, b".new $h <@hy>", LoadKind::WrongType, 9)?;
    refuses(
        rt,
        alloc,
        code,
        b".newhybrid $h <@n> 1",
        LoadKind::WrongType,
        15,
    )?;
    refuses(
        rt,
        alloc,
        code,
        b".newhybrid $h <@hy> 11",
        LoadKind::HeapFull,
        0,
    )?;
    let script = b".newhybrid $h <@hy> 340282366920938463463374607431768211455";
    refuses(rt, alloc, code, script, LoadKind::HeapFull, 0)?;
    let script = b".newhybrid $h <@hf> 8 .new $a <@n>";
    refuses(rt, alloc, code, script, LoadKind::HeapFull, 22)
}

/// What the first two cells of an object begin with behind a script that is loaded.
fn sets(
    rt: &impl Abort,
    alloc: Global,
    code: &Checked,
    script: &[u8],
    object: u32,
    cells: [Option<Scalar>; 2],
) -> Result<(), Fail> {
    let [first, second] = cells;
    let mut heap = heap_of(alloc, code, 10)?;
    let answer = answer(alloc, code, &mut heap, script)?;
    assert_eq!(rt; answer, Ok(()));
    assert_eq!(rt; cell(&heap, object, 0), first);
    assert_eq!(rt; cell(&heap, object, 1), second);
    Ok(())
}

fn place(object: u32, at: u32) -> Option<Scalar> {
    Some(Scalar::Place { object, at })
}

fn sets_globals(rt: &impl Abort, alloc: Global, code: &Checked) -> Result<(), Fail> {
    sets(rt, alloc, code, b"", 4, [int(64, 0), None])?;
    sets(rt, alloc, code, b".init @x = 5", 4, [int(64, 5), None])?;
    sets(rt, alloc, code, b".init @b = -128", 5, [int(8, 128), None])?;
    sets(rt, alloc, code, b".init @x = @k", 4, [int(64, 7), None])?;
    sets(rt, alloc, code, b".init @p = @x", 1, [place(4, 0), None])?;
    sets(
        rt,
        alloc,
        code,
        b".init @p = &@a[1]",
        1,
        [place(2, 1), None],
    )?;
    sets(
        rt,
        alloc,
        code,
        b".init @f = @main",
        3,
        [Some(Scalar::Func(0)), None],
    )?;
    sets(
        rt,
        alloc,
        code,
        b".init @f = NULL",
        3,
        [Some(Scalar::Null), None],
    )?;
    sets(
        rt,
        alloc,
        code,
        b".init @a[1] = 5",
        2,
        [int(64, 0), int(64, 5)],
    )?;
    sets(
        rt,
        alloc,
        code,
        b".init @a = {1 2 3}",
        2,
        [int(64, 1), int(64, 2)],
    )
}

fn sets_objects(rt: &impl Abort, alloc: Global, code: &Checked) -> Result<(), Fail> {
    let node = Some(Scalar::Object(7));
    sets(
        rt,
        alloc,
        code,
        b".new $a <@n> .init @g = $a",
        0,
        [node, None],
    )?;
    sets(
        rt,
        alloc,
        code,
        b".new $a <@n> .init @w = {9 $a}",
        6,
        [int(64, 9), node],
    )?;
    let script = b".newhybrid $h <@hf> 2 .init $h = {1 {2 3}}";
    sets(rt, alloc, code, script, 7, [int(8, 1), int(64, 2)])?;
    let script = b".newhybrid $h <@hf> 2 .init $h[1][0] = 4 .init @p = &$h[1]";
    sets(rt, alloc, code, script, 7, [int(8, 0), int(64, 4)])?;
    let script = b".newhybrid $h <@hf> 2 .init $h[1][0] = 4 .init @p = &$h[1]";
    sets(rt, alloc, code, script, 1, [place(7, 1), None])?;
    let script = b".newhybrid $h <@hy> 10 .new $v <@v>";
    sets(rt, alloc, code, script, 7, [int(64, 0), int(64, 0)])
}

/// What the commands before a refused one made stands, and the refused one sets nothing.
fn keeps(rt: &impl Abort, alloc: Global, code: &Checked) -> Result<(), Fail> {
    let mut heap = heap_of(alloc, code, 10)?;
    let script = b".init @x = 5 .init @a = {1 2 NULL} .init @x = 6";
    let answer = answer(alloc, code, &mut heap, script)?;
    let kind = LoadKind::WrongType;
    assert_eq!(rt; answer, Err(LoadFault::At { kind, place: 29 }));
    assert_eq!(rt; cell(&heap, 4, 0), int(64, 5));
    assert_eq!(rt; cell(&heap, 2, 0), int(64, 0));
    Ok(())
}

fn loads(rt: &impl Abort, alloc: Global, code: &Checked) -> Result<(), Fail> {
    refuses_targets(rt, alloc, code)?;
    refuses_sources(rt, alloc, code)?;
    refuses_lists(rt, alloc, code)?;
    refuses_objects(rt, alloc, code)?;
    sets_globals(rt, alloc, code)?;
    sets_objects(rt, alloc, code)?;
    keeps(rt, alloc, code)
}

#[test]
fn loads_scripts(rt: HostRuntime) -> Result<(), Fail> {
    let code = checked(rt.alloc(), TEXT)?;
    loads(&rt, rt.alloc(), &code)
}
