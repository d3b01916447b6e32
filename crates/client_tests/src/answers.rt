// What scripts and hooks answer.
ghost use Rattle.std.specs.Prelude.{◌<◌, length, IfOk};
ghost use Rattle.std.specs.List.{All};
ghost use Rattle.checked_code.specs.Checking.{bundle_tables};

use bundle_check::check;
use bundle_facts::{constants_have_classes, widths_are_narrow};
use bundle_names::resolve;
use checked_code::Checked;
use client_hooks::{
    Client, ClientFault, Edit, Hook, PassBlank, Reply, ReplyEnd, TrapView, Watch, With,
};
use client_script::{RunClient, ScriptFault, read_script};
use frames::{Frame, Frames};
use ir_text::read_bundle;
use mu_base::{Ids, Types};
use mu_model::Note;
use mu_values::{Passed, Scalar, Slots};
use stacks::{Directory, ReadyStack};
use std::alloc::{AllocError, Global};
use std::process::Abort;
use std::test::Fail;

const BUNDLE: &[u8] =
    b".typedef @i64 = int<64> .funcsig @m = () -> () .const @k <@i64> = 7 .global @g <@i64> .funcdecl @f <@m>";

const SEVEN: Scalar = Scalar::Int { width: 64, bits: 7 };

const LONG: &[u8] =
    b"{ frames kept 0 watch 2 unwatch 0x10 pass (@k kept 0 1 @g) } // comment\n{rebind kept 0 0 throw @f}{ throw @k } { pop 1 push @f exit } { stop }";

// A checked bundle is dropped at one place alone, since each place is proved: the tests lend it.
fn checked(alloc: Global) -> Result<Checked, Fail> {
    let bundle = read_bundle(alloc, BUNDLE)?;
    let names = resolve(alloc, bundle)?;
    Ok(check(alloc, names)?)
}

// One value with its class.
fn one(alloc: Global, class: u32, scalar: Scalar) -> Result<Passed, AllocError> {
    let mut types = Types::new(alloc);
    types.push(class)?;
    let mut values = Slots::new(alloc);
    values.push_scalar(scalar)?;
    Ok(Passed::new(types, values))
}

// A frame that waits, and keeps one value.
fn waiting(
    alloc: Global,
    block: u32,
    at: u32,
    class: u32,
    scalar: Scalar,
) -> Result<Frame, AllocError> {
    let kept = one(alloc, class, scalar)?;
    Ok(Frame {
        block,
        at,
        slots: Slots::new(alloc),
        fresh: false,
        waits: Types::new(alloc),
        handler: None,
        kept,
        cells: Ids::new(alloc),
    })
}

fn bottom(alloc: Global) -> Result<Frames, AllocError> {
    let frame = waiting(alloc, 7, 1, 0, SEVEN)?;
    match Frames::new(alloc, frame) {
        Ok(frames) => Ok(frames),
        Err((_frame, refusal)) => Err(refusal),
    }
}

fn enter(frames: &mut Frames, frame: Frame) -> Result<(), AllocError> {
    match frames.enter(frame) {
        Ok(()) => Ok(()),
        Err((_frame, refusal)) => Err(refusal),
    }
}

fn enter_two(frames: &mut Frames, alloc: Global, stackref: u32) -> Result<(), AllocError> {
    enter(frames, waiting(alloc, 8, 2, 0, Scalar::Null)?)?;
    enter(frames, waiting(alloc, 9, 3, stackref, Scalar::Stack(5))?)
}

// Three frames, of which the top one keeps a stack.
fn three_frames(alloc: Global, stackref: u32) -> Result<Frames, AllocError> {
    let mut frames = bottom(alloc)?;
    enter_two(&mut frames, alloc, stackref)?;
    Ok(frames)
}

fn ready(alloc: Global, stackref: u32) -> Result<ReadyStack, AllocError> {
    let mut all = Directory::new(alloc);
    let frames = three_frames(alloc, stackref)?;
    match all.make(frames, Types::new(alloc)) {
        Ok(number) => all.take(number, 0).map_err(|_| AllocError),
        Err((_frames, refusal)) => Err(refusal),
    }
}

// The type of constant 0.
fn asked(alloc: Global, code: &Checked) -> Result<Types, AllocError>
    requires { 0 < length (bundle_tables code.now).constants }
    ensures { IfOk result (λ types. All (λ c. c < length (bundle_tables code.now).types.definitions) types.members) }
{
    let _items = code.items();
    constants_have_classes();
    let mut types = Types::new(alloc);
    types.push(code.constant_type(0))?;
    Ok(types)
}

// A view of a trap that asks for a value of the type of constant 0.
fn trap(alloc: Global, code: &Checked) -> Result<TrapView, AllocError> {
    let _items = code.items();
    widths_are_narrow();
    if code.constants() == 0 {
        return Err(AllocError);
    }
    let types = asked(alloc, code)?;
    TrapView::new(alloc, code.tables(), 4, None, types)
}

// Asks a client, through its bound.
fn ask<C: Client>(alloc: Global, code: &Checked, client: &C) -> Result<Option<Reply>, AllocError> {
    let view = trap(alloc, code)?;
    let stack = ready(alloc, view.stackref())?;
    match client.answer(alloc, &view, stack) {
        Ok(reply) => Ok(Some(reply)),
        Err(ClientFault::Misuse(_stack)) => Ok(None),
        Err(ClientFault::Memory(_stack)) => Err(AllocError),
    }
}

// What the first entry of a script answers; none is misuse.
fn answer(alloc: Global, code: &Checked, text: &[u8]) -> Result<Option<Reply>, Fail> {
    let script = read_script(alloc, text, code)?;
    Ok(ask(alloc, code, &script)?)
}

fn is_one(values: &Passed, scalar: Scalar) -> bool {
    values.values().len() == 1 && values.values().at(0) == [scalar].as_slice()
}

fn is_frame(note: Option<&Note>, number: u32, block: u32, at: u32) -> bool {
    matches!(note, Some(Note::Frame { frame: n, block: b, at: a }) if *n == number && *b == block && *a == at)
}

fn is_kept(note: Option<&Note>, number: u32, scalar: Scalar) -> bool {
    matches!(note, Some(Note::Kept { frame, values }) if *frame == number && is_one(values.get(), scalar))
}

// What is recorded by the answer to a trap; none is misuse. A reply is taken apart in this one place, since each place is proved.
fn notes_of(alloc: Global, code: &Checked, text: &[u8]) -> Result<Option<Vec<Note>>, Fail> {
    match answer(alloc, code, text)? {
        Some(reply) => Ok(Some(reply.notes.into_vec())),
        None => Ok(None),
    }
}

fn show_frames(rt: &impl Abort, notes: &[Note]) {
    for (number, block, at) in [(0u32, 9u32, 3u32), (1, 8, 2), (2, 7, 1)] {
        assert!(rt; is_frame(notes.get(number as usize), number, block, at));
    }
}

fn show_kept(rt: &impl Abort, notes: &[Note]) {
    for (place, frame, scalar) in [
        (3usize, 2u32, SEVEN),
        (4, 1, Scalar::Null),
        (5, 0, Scalar::Stack(5)),
    ] {
        assert!(rt; is_kept(notes.get(place), frame, scalar));
    }
}

fn records(rt: &impl Abort, alloc: Global, code: &Checked) -> Result<(), Fail> {
    let Some(notes) = notes_of(alloc, code, b"{ frames kept 2 kept 1 kept 0 exit }")? else {
        return panic!(rt; "misuse");
    };
    assert_eq!(rt; notes.len(), 6);
    show_frames(rt, notes.as_slice());
    show_kept(rt, notes.as_slice());
    Ok(())
}

fn are_watched(watches: &[Watch]) -> bool {
    let on = Watch {
        number: 7,
        enabled: true,
    };
    let off = Watch {
        number: 8,
        enabled: false,
    };
    watches == [on, off].as_slice()
}

fn watches(rt: &impl Abort, alloc: Global, code: &Checked) -> Result<(), Fail> {
    let reply = answer(alloc, code, b"{ watch 7 unwatch 8 stop }")?;
    assert!(rt; matches!(&reply, Some(reply) if are_watched(reply.watches.as_slice())));
    Ok(())
}

// Whether a reply edits the frames so.
fn is_edited(reply: &Option<Reply>, pop: u32, push: Option<u32>) -> bool {
    matches!(reply, Some(reply) if reply.edit == Edit { pop, push })
}

fn edits(rt: &impl Abort, alloc: Global, code: &Checked) -> Result<(), Fail> {
    let rows = [
        (b"{ pop 2 push @f stop }".as_slice(), 2, Some(0)),
        (b"{ push @f exit }".as_slice(), 0, Some(0)),
        (b"{ pop 1 pass (@k) }".as_slice(), 1, None),
        (b"{ pass (@k) }".as_slice(), 0, None),
    ];
    for (text, pop, push) in rows {
        let reply = answer(alloc, code, text)?;
        assert!(rt; is_edited(&reply, pop, push));
    }
    Ok(())
}

fn passes_two(with: &With, first: Scalar, second: Scalar) -> bool {
    match with {
        With::Pass(values) => {
            let values = values.values();
            values.len() == 2
                && values.at(0) == [first].as_slice()
                && values.at(1) == [second].as_slice()
        }
        With::Throw(_) => false,
    }
}

fn passes(end: &ReplyEnd, first: Scalar, second: Scalar) -> bool {
    match end {
        ReplyEnd::Resume { with, .. } => passes_two(with, first, second),
        _ => false,
    }
}

fn throws_seven(with: &With) -> bool {
    match with {
        With::Throw(exception) => exception.value.as_slice() == [SEVEN].as_slice(),
        With::Pass(_) => false,
    }
}

fn throws(end: &ReplyEnd) -> bool {
    match end {
        ReplyEnd::Resume { with, .. } => throws_seven(with),
        _ => false,
    }
}

fn rebinds(end: &ReplyEnd, throw: bool) -> bool {
    match end {
        ReplyEnd::Rebind { target, with, .. } => {
            target.value.as_slice() == [Scalar::Stack(5)].as_slice() && throws_seven(with) == throw
        }
        _ => false,
    }
}

fn is_zero(end: &ReplyEnd) -> bool {
    match end {
        ReplyEnd::Resume { with, .. } => match with {
            With::Pass(values) => is_one(values, Scalar::Int { width: 64, bits: 0 }),
            With::Throw(_) => false,
        },
        _ => false,
    }
}

fn exits(end: &ReplyEnd) -> bool {
    matches!(end, ReplyEnd::Exit { .. })
}

fn stops(end: &ReplyEnd) -> bool {
    matches!(end, ReplyEnd::Stop { .. })
}

// A way in which a reply ends.
#[derive(Clone, Copy)]
enum Wanted {
    Passes(Scalar, Scalar),
    Throws,
    Rebinds { throw: bool },
    Zero,
    Exits,
    Stops,
    Misuse,
}

fn is_wanted(reply: &Option<Reply>, wanted: &Wanted) -> bool {
    match reply {
        None => matches!(wanted, Wanted::Misuse),
        Some(reply) => match wanted {
            Wanted::Passes(first, second) => passes(&reply.end, *first, *second),
            Wanted::Throws => throws(&reply.end),
            Wanted::Rebinds { throw } => rebinds(&reply.end, *throw),
            Wanted::Zero => is_zero(&reply.end),
            Wanted::Exits => exits(&reply.end),
            Wanted::Stops => stops(&reply.end),
            Wanted::Misuse => false,
        },
    }
}

fn answers(
    rt: &impl Abort,
    alloc: Global,
    code: &Checked,
    text: &[u8],
    wanted: Wanted,
) -> Result<(), Fail> {
    let reply = answer(alloc, code, text)?;
    assert!(rt; is_wanted(&reply, &wanted));
    Ok(())
}

fn answer_each(
    rt: &impl Abort,
    alloc: Global,
    code: &Checked,
    rows: &[(&[u8], Wanted)],
) -> Result<(), Fail> {
    for (text, wanted) in rows {
        answers(rt, alloc, code, text, *wanted)?;
    }
    Ok(())
}

// A value of another type is no fault here.
fn replies(rt: &impl Abort, alloc: Global, code: &Checked) -> Result<(), Fail> {
    let passed = Wanted::Passes(SEVEN, Scalar::Stack(5));
    let named = Wanted::Passes(Scalar::Place { object: 0, at: 0 }, Scalar::Func(0));
    let passing = Wanted::Rebinds { throw: false };
    let throwing = Wanted::Rebinds { throw: true };
    let rows = [
        (b"{ pass (@k kept 0 0) }".as_slice(), passed),
        (b"{ pass (@g @f) }".as_slice(), named),
        (b"{ throw kept 2 0 }".as_slice(), Wanted::Throws),
        (b"{ rebind kept 0 0 pass (@k) }".as_slice(), passing),
        (b"{ rebind kept 0 0 throw @k }".as_slice(), throwing),
        (b"{ exit }".as_slice(), Wanted::Exits),
        (b"{ stop }".as_slice(), Wanted::Stops),
    ];
    answer_each(rt, alloc, code, &rows)
}

fn misuses(rt: &impl Abort, alloc: Global, code: &Checked) -> Result<(), Fail> {
    let rows = [
        (b"{ frames kept 3 exit }".as_slice(), Wanted::Misuse),
        (b"{ watch 7 pass (kept 3 0) }".as_slice(), Wanted::Misuse),
        (b"{ throw kept 1 1 }".as_slice(), Wanted::Misuse),
        (b"{ rebind @k pass () }".as_slice(), Wanted::Misuse),
        (
            b"{ rebind kept 0 0 pass (kept 0 1) }".as_slice(),
            Wanted::Misuse,
        ),
    ];
    answer_each(rt, alloc, code, &rows)
}

fn asks<C: Client>(
    rt: &impl Abort,
    alloc: Global,
    code: &Checked,
    client: &C,
    wanted: Wanted,
) -> Result<(), Fail> {
    let reply = ask(alloc, code, client)?;
    assert!(rt; is_wanted(&reply, &wanted));
    Ok(())
}

// What a client answers, which goes on after each answer.
fn asks_in_turn<C: Client>(
    rt: &impl Abort,
    alloc: Global,
    code: &Checked,
    client: &mut C,
    wanted: &[Wanted],
) -> Result<(), Fail> {
    for each in wanted {
        asks(rt, alloc, code, client, *each)?;
        client.advance();
    }
    Ok(())
}

fn takes_entries_in_order(rt: &impl Abort, alloc: Global, code: &Checked) -> Result<(), Fail> {
    let mut script = read_script(alloc, b"{ exit } { throw kept 2 0 }", code)?;
    asks(rt, alloc, code, &script, Wanted::Exits)?;
    let wanted = [Wanted::Exits, Wanted::Throws, Wanted::Stops, Wanted::Stops];
    asks_in_turn(rt, alloc, code, &mut script, &wanted)
}

fn hooks(rt: &impl Abort, alloc: Global, code: &Checked) -> Result<(), Fail> {
    let mut hook = Hook::new(PassBlank);
    hook.advance();
    asks(rt, alloc, code, &hook, Wanted::Zero)
}

// A client of runs over the text of a script, with zeros behind it or none.
fn run_client(alloc: Global, code: &Checked, text: &[u8], auto: bool) -> Result<RunClient, Fail> {
    let script = read_script(alloc, text, code)?;
    Ok(RunClient::new(script, auto))
}

// Zero is passed after the last entry, however often.
fn passes_after_a_script(rt: &impl Abort, alloc: Global, code: &Checked) -> Result<(), Fail> {
    let mut client = run_client(alloc, code, b"{ throw kept 2 0 }", true)?;
    asks(rt, alloc, code, &client, Wanted::Throws)?;
    let wanted = [Wanted::Throws, Wanted::Zero, Wanted::Zero];
    asks_in_turn(rt, alloc, code, &mut client, &wanted)
}

// The run is stopped after the last entry.
fn stops_after_a_script(rt: &impl Abort, alloc: Global, code: &Checked) -> Result<(), Fail> {
    let mut client = run_client(alloc, code, b"{ throw kept 2 0 }", false)?;
    let wanted = [Wanted::Throws, Wanted::Stops, Wanted::Stops];
    asks_in_turn(rt, alloc, code, &mut client, &wanted)
}

// Zero is passed at once where there is no entry.
fn passes_alone(rt: &impl Abort, alloc: Global, code: &Checked) -> Result<(), Fail> {
    let client = run_client(alloc, code, b"", true)?;
    asks(rt, alloc, code, &client, Wanted::Zero)
}

// An entry that is misuse is so with a hook behind it too.
fn misuses_before_the_hook(rt: &impl Abort, alloc: Global, code: &Checked) -> Result<(), Fail> {
    let mut client = run_client(alloc, code, b"{ kept 3 exit }", true)?;
    let wanted = [Wanted::Misuse, Wanted::Zero];
    asks_in_turn(rt, alloc, code, &mut client, &wanted)
}

fn clients_of_runs(rt: &impl Abort, alloc: Global, code: &Checked) -> Result<(), Fail> {
    passes_after_a_script(rt, alloc, code)?;
    stops_after_a_script(rt, alloc, code)?;
    passes_alone(rt, alloc, code)?;
    misuses_before_the_hook(rt, alloc, code)
}

// Whether a fault stands at the end of a text, or at a token that reaches its end.
fn is_at_the_end(text: &[u8], place: usize) -> bool {
    place <= text.len() && !text[place..].contains(&b' ')
}

fn reads_prefixes(rt: &impl Abort, alloc: Global, code: &Checked) -> Result<(), Fail> {
    for cut in 0..=LONG.len() {
        let text = &LONG[..cut];
        match read_script(alloc, text, code) {
            Ok(script) => assert!(rt; script.len() <= 5),
            Err(ScriptFault::At { place, .. }) => assert!(rt; is_at_the_end(text, place)),
            Err(ScriptFault::Memory) => return Err(AllocError.into()),
        }
    }
    Ok(())
}

fn answers_all(rt: &impl Abort, alloc: Global, code: &Checked) -> Result<(), Fail> {
    records(rt, alloc, code)?;
    watches(rt, alloc, code)?;
    edits(rt, alloc, code)?;
    replies(rt, alloc, code)?;
    misuses(rt, alloc, code)?;
    takes_entries_in_order(rt, alloc, code)?;
    hooks(rt, alloc, code)?;
    clients_of_runs(rt, alloc, code)?;
    reads_prefixes(rt, alloc, code)
}

#[test]
fn answers_traps(rt: HostRuntime) -> Result<(), Fail> {
    let code = checked(rt.alloc())?;
    answers_all(&rt, rt.alloc(), &code)
}
