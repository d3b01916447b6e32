// What the commands of a script make.
ghost use Rattle.std.specs.Prelude.{◌≡◌, ◌+◌, ◌-◌, ◌<◌, ◌≤◌, ◌^◌, Some, Err, length, IfOk, OnOk, OnErr};
ghost use Rattle.demands.specs.declared.fault.Fault.TheVariants.{At};
ghost use Rattle.name_scopes.specs.Names.{found, added};
ghost use Rattle.check_tables.specs.TypeTests.{is_hybrid, is_no_hybrid};
ghost use Rattle.check_tables.specs.Lookups.{written_number};
ghost use Rattle.hail_load.specs.declared.parts.Part.TheVariants.{Value, Hybrid};
ghost use Rattle.hail_load.specs.Code.{code_of};
ghost use Rattle.hail_load.specs.Known.{IsKnown};
ghost use Rattle.hail_load.specs.Rooms.{AreRoomy, KeepsCells};
ghost use Rattle.hail_load.specs.Loading.{make, new_of, newhybrid_of, init_of, done};
ghost use Rattle.hail_load.specs.LoadAnswers.{AreGlobals, Loads};
ghost use Rattle.hail_load.specs.Answering.{Makes, AreThere, AreWhole, IsSame, not_made, store_of};
ghost use Rattle.hail_load.specs.Fills.{shown, Lags};

use crate::fault::{LoadFault, LoadKind};
use crate::fills::Fills;
use crate::fitting::Scene;
use crate::gathered::Gathered;
use crate::judgement::judge;
use crate::parts::{Made, Part};
use crate::targets::target_spot;
use crate::tree::{Command, Hail, Piece, Target};
use checked_code::Checked;
use ir_lex::Name;
use mu_types::TypeDef;
use name_scopes::Scope;
use std::alloc::{AllocError, Global};
use typed_heap::{Heap, HeapFault};

/// No heap has more objects.
const MOST_OBJECTS: u32 = 4294967293;

/// What the commands of a script are carried out with.
#[derive(Clone, Copy)]
struct Loader<'a> {
    alloc: Global,
    code: &'a Checked,
}

/// What a directive that makes an object begins with: its place, and the object's name.
#[derive(Clone, Copy)]
struct Naming<'a> {
    place: usize,
    name: &'a Name,
}

impl<'a> Naming<'a> {
    fn new(place: usize, name: &'a Name) -> Naming<'a>
        ensures { result ≡ record { place = place; name = name.entry } }
    {
        Naming { place, name }
    }
}

/// Keeps the name of the object that is made next.
fn name_next(
    alloc: Global,
    heap: &Heap,
    made: &mut Scope<Made>,
    name: &Name,
    part: Part,
) -> Result<(), AllocError>
    ensures room { OnOk result (length heap.now.objects + 1 < 2 ^ 32 - 1) }
    ensures made { OnOk result (made.new ≡ added made.old name.now.text (record { object = length heap.now.objects; part = part })) }
{
    if heap.objects() >= MOST_OBJECTS {
        return Err(AllocError);
    }
    let object = heap.objects();
    made.define(alloc, name.text.as_slice(), Made { object, part })?;
    Ok(())
}

/// Why an object is not made.
fn refused(fault: HeapFault, place: usize) -> LoadFault
    ensures { result ≡ not_made fault place }
{
    match fault {
        HeapFault::HeapFull { .. } => LoadFault::At {
            kind: LoadKind::HeapFull,
            place,
        },
        HeapFault::Memory => LoadFault::Memory,
    }
}

/// Makes an object of a type that is no hybrid.
fn make_object(
    loader: Loader,
    heap: &mut Heap,
    made: &mut Scope<Made>,
    naming: Naming,
    t: u32,
) -> Result<(), LoadFault>
    requires known { IsKnown (code_of loader.code.now) }
    requires t { t < length (code_of loader.code.now).graph }
    ensures made { Makes (make (code_of loader.entry.code.now) (store_of heap.old made.old) naming.entry.place naming.entry.name.now (Value t)) (store_of heap.new made.new) result }
    ensures err { OnErr result (heap.new ≡ heap.old) }
    ensures whole { AreWhole heap.old.objects → AreWhole heap.new.objects }
    ensures more { length heap.old.objects ≤ length heap.new.objects }
    ensures spare { heap.new.spare ≡ heap.old.spare }
    ensures there { OnOk result (AreThere (code_of loader.entry.code.now).graph made.old → AreThere (code_of loader.entry.code.now).graph made.new) }
    ensures roomy { OnOk result (AreRoomy (code_of loader.entry.code.now) heap.old.objects made.old → AreRoomy (code_of loader.entry.code.now) heap.new.objects made.new) }
    ensures cells { KeepsCells heap.old.objects heap.new.objects }
{
    name_next(loader.alloc, heap, made, naming.name, Part::Value(t))?;
    match heap.new_object(loader.code.classes(), t) {
        Ok(_) => Ok(()),
        Err(fault) => Err(refused(fault, naming.place)),
    }
}

/// Makes an object of a hybrid, with so many elements.
fn make_hybrid(
    loader: Loader,
    heap: &mut Heap,
    made: &mut Scope<Made>,
    naming: Naming,
    t: u32,
    many: u128,
) -> Result<(), LoadFault>
    requires known { IsKnown (code_of loader.code.now) }
    requires t { t < length (code_of loader.code.now).graph }
    ensures made { Makes (make (code_of loader.entry.code.now) (store_of heap.old made.old) naming.entry.place naming.entry.name.now (Hybrid t many)) (store_of heap.new made.new) result }
    ensures err { OnErr result (heap.new ≡ heap.old) }
    ensures whole { AreWhole heap.old.objects → AreWhole heap.new.objects }
    ensures more { length heap.old.objects ≤ length heap.new.objects }
    ensures spare { heap.new.spare ≡ heap.old.spare }
    ensures there { OnOk result (AreThere (code_of loader.entry.code.now).graph made.old → AreThere (code_of loader.entry.code.now).graph made.new) }
    ensures roomy { OnOk result (AreRoomy (code_of loader.entry.code.now) heap.old.objects made.old → AreRoomy (code_of loader.entry.code.now) heap.new.objects made.new) }
    ensures cells { KeepsCells heap.old.objects heap.new.objects }
{
    name_next(
        loader.alloc,
        heap,
        made,
        naming.name,
        Part::Hybrid { of_type: t, many },
    )?;
    match heap.new_hybrid(loader.code.classes(), t, many) {
        Ok(_) => Ok(()),
        Err(fault) => Err(refused(fault, naming.place)),
    }
}

/// Whether a type is no hybrid.
fn is_no_hybrid(definition: &TypeDef) -> bool
    ensures { result ≡ is_no_hybrid (Some definition.now) }
{
    !matches!(definition, TypeDef::Hybrid { .. } | TypeDef::Sig { .. })
}

/// Whether a type is a hybrid.
fn is_hybrid(definition: &TypeDef) -> bool
    ensures { result ≡ is_hybrid (Some definition.now) }
{
    matches!(definition, TypeDef::Hybrid { .. })
}

/// The type is not the one that belongs here.
fn wrong_type(of_type: &Name) -> Result<(), LoadFault>
    ensures { result ≡ Err (At LoadKind.WrongType of_type.now.place) }
{
    Err(LoadFault::At {
        kind: LoadKind::WrongType,
        place: of_type.place,
    })
}

/// `.new`
fn new_object(
    loader: Loader,
    heap: &mut Heap,
    made: &mut Scope<Made>,
    naming: Naming,
    of_type: &Name,
) -> Result<(), LoadFault>
    requires known { IsKnown (code_of loader.code.now) }
    ensures made { Makes (new_of (code_of loader.entry.code.now) (store_of heap.old made.old) naming.entry.place naming.entry.name.now of_type.now (written_number (found (code_of loader.entry.code.now).names of_type.now.text))) (store_of heap.new made.new) result }
    ensures err { OnErr result (heap.new ≡ heap.old) }
    ensures whole { AreWhole heap.old.objects → AreWhole heap.new.objects }
    ensures more { length heap.old.objects ≤ length heap.new.objects }
    ensures spare { heap.new.spare ≡ heap.old.spare }
    ensures there { OnOk result (AreThere (code_of loader.entry.code.now).graph made.old → AreThere (code_of loader.entry.code.now).graph made.new) }
    ensures roomy { OnOk result (AreRoomy (code_of loader.entry.code.now) heap.old.objects made.old → AreRoomy (code_of loader.entry.code.now) heap.new.objects made.new) }
    ensures cells { KeepsCells heap.old.objects heap.new.objects }
{
    match loader.code.tables().type_named(of_type) {
        Some(t) => if is_no_hybrid(loader.code.classes().definition(t)) {
            make_object(loader, heap, made, naming, t)
        } else {
            wrong_type(of_type)
        },
        None => wrong_type(of_type),
    }
}

/// `.newhybrid`
fn new_hybrid(
    loader: Loader,
    heap: &mut Heap,
    made: &mut Scope<Made>,
    naming: Naming,
    of_type: &Name,
    many: u128,
) -> Result<(), LoadFault>
    requires known { IsKnown (code_of loader.code.now) }
    ensures made { Makes (newhybrid_of (code_of loader.entry.code.now) (store_of heap.old made.old) naming.entry.place naming.entry.name.now of_type.now many (written_number (found (code_of loader.entry.code.now).names of_type.now.text))) (store_of heap.new made.new) result }
    ensures err { OnErr result (heap.new ≡ heap.old) }
    ensures whole { AreWhole heap.old.objects → AreWhole heap.new.objects }
    ensures more { length heap.old.objects ≤ length heap.new.objects }
    ensures spare { heap.new.spare ≡ heap.old.spare }
    ensures there { OnOk result (AreThere (code_of loader.entry.code.now).graph made.old → AreThere (code_of loader.entry.code.now).graph made.new) }
    ensures roomy { OnOk result (AreRoomy (code_of loader.entry.code.now) heap.old.objects made.old → AreRoomy (code_of loader.entry.code.now) heap.new.objects made.new) }
    ensures cells { KeepsCells heap.old.objects heap.new.objects }
{
    match loader.code.tables().type_named(of_type) {
        Some(t) => if is_hybrid(loader.code.classes().definition(t)) {
            make_hybrid(loader, heap, made, naming, t, many)
        } else {
            wrong_type(of_type)
        },
        None => wrong_type(of_type),
    }
}

/// `.init`: the target is found first, then the source is judged whole, and then its cells are filled. Its scalars take the place of what
/// is in `scalars`: one list is there for all commands, so that its memory is kept from one to the next.
fn init<'a>(
    loader: Loader<'a>,
    heap: &mut Heap,
    fills: &mut Fills<'a>,
    made: &Scope<Made>,
    target: &Target,
    source: &[Piece],
    scalars: &mut Gathered<'a>,
) -> Result<(), LoadFault>
    requires known { IsKnown (code_of loader.code.now) }
    requires made { AreThere (code_of loader.code.now).graph made.now }
    requires roomy { AreRoomy (code_of loader.code.now) heap.old.objects made.now }
    requires lags { Lags heap.old fills.old }
    ensures made { Makes (init_of (code_of loader.entry.code.now) (store_of (shown heap.old fills.old) made.now) target.now source.now) (store_of (shown heap.new fills.new) made.now) result }
    ensures err { OnErr result (IsSame (shown heap.old fills.old) (shown heap.new fills.new)) }
    ensures lags { Lags heap.new fills.new }
    ensures objects { heap.new.objects ≡ heap.old.objects }
{
    let code = loader.code;
    let spot = target_spot(code, heap, made, &target.root, target.indexes.as_slice())?;
    let scene = Scene { code, heap, made };
    scalars.clear();
    judge(loader.alloc, scene, spot.part, source, scalars)?;
    fills.add(heap, spot, scalars.as_slice())?;
    Ok(())
}

/// One command. After a refusal the objects are as before.
fn perform<'a>(
    loader: Loader<'a>,
    heap: &mut Heap,
    fills: &mut Fills<'a>,
    made: &mut Scope<Made>,
    command: &Command,
    scalars: &mut Gathered<'a>,
) -> Result<(), LoadFault>
    requires known { IsKnown (code_of loader.code.now) }
    requires there { AreThere (code_of loader.code.now).graph made.old }
    requires roomy { AreRoomy (code_of loader.code.now) heap.old.objects made.old }
    requires lags { Lags heap.old fills.old }
    ensures made { Makes (done (code_of loader.entry.code.now) (store_of (shown heap.old fills.old) made.old) command.now) (store_of (shown heap.new fills.new) made.new) result }
    ensures err { OnErr result (IsSame (shown heap.old fills.old) (shown heap.new fills.new)) }
    ensures lags { Lags heap.new fills.new }
    ensures there { OnOk result (AreThere (code_of loader.entry.code.now).graph made.new) }
    ensures roomy { OnOk result (AreRoomy (code_of loader.entry.code.now) heap.new.objects made.new) }
{
    match command {
        Command::New {
            place,
            object,
            of_type,
        } => new_object(loader, heap, made, Naming::new(*place, object), of_type),
        Command::NewHybrid {
            place,
            object,
            of_type,
            length,
        } => {
            let naming = Naming::new(*place, object);
            new_hybrid(loader, heap, made, naming, of_type, length.number.magnitude)
        }
        Command::Init { target, source } => {
            init(
                loader,
                heap,
                fills,
                made,
                target,
                source.as_slice(),
                scalars,
            )
        }
    }
}

/// The commands in order, up to the first that is refused.
fn perform_all<'a>(
    loader: Loader<'a>,
    heap: &mut Heap,
    fills: &mut Fills<'a>,
    commands: &[Command],
) -> Result<(), LoadFault>
    requires known { IsKnown (code_of loader.code.now) }
    requires globals { AreGlobals (code_of loader.code.now) heap.old.objects }
    requires lags { Lags heap.old fills.old }
    ensures loads { Loads (code_of loader.entry.code.now) commands.now (shown heap.old fills.old) (shown heap.new fills.new) result }
    ensures lags { Lags heap.new fills.new }
{
    let mut made = Scope::new(loader.alloc);
    let mut scalars = Gathered::new(loader.alloc);
    for command in commands {
        perform(loader, heap, fills, &mut made, command, &mut scalars)?;
    }
    Ok(())
}

/// Tells what is known of the code of a bundle; it does nothing.
#[tactic(auto)]
fn tell_known(code: &Checked)
    ensures { IsKnown (code_of code.now) }
{
    let _items = code.items();
}

/// Loads a script into a heap that holds the objects of the bundle's globals and no others. Its commands are carried out in order, and
/// the first fault of the first that is refused is answered:
///
/// - `WrongType` at the type in `< >` of `.new` where that is a hybrid, and of `.newhybrid` where it is none;
/// - `HeapFull` at the directive of an object with more cells than are left;
/// - `WrongType` at the `[` of an index of what has no parts, and `OutOfRange` at the number of an index that is not below the number
///   of parts;
/// - `WrongType` at a source that does not fit its part: a number for anything but an int; NULL for anything but a reference; a constant
///   of another type; a global, or a target behind `&`, for what is no reference to a place, or none that fits; a function for what is
///   no reference to a function of its signature; an object for what is no reference to an object that fits; and a list, at its `{`,
///   for what has no parts or another number of them. For a whole hybrid and for its elements only a list fits;
/// - `OutOfRange` at a number that does not fit the width.
///
/// The target is looked at before the source, and a source from left to right. Whether a reference to a place is wanted is judged before
/// what stands behind the `&`, and whether that fits after it. A source is judged whole before a cell is set, so after a refusal the heap
/// holds what the commands before made. The same holds after `Memory`, which says that no memory was found, and where there would be
/// more than 4,294,967,293 objects.
///
/// Each command takes the time of a hash or two, and time for its source, for the cells of an object that it makes or is the first to fill,
/// for the fields before a field that an index names, and for the leaves of what a reference refers to. The scalars of a constant are not
/// copied: the heap is given all scalars at the end, or after a refusal, and each cell once, however often it was filled. Until then that
/// takes some 50 bytes for each source that is no list and 4 for each cell of an object that is filled, and in the heap room for a scalar
/// for each of these cells, which is 32.
pub fn load_hail(
    alloc: Global,
    hail: &Hail,
    code: &Checked,
    heap: &mut Heap,
) -> Result<(), LoadFault>
    requires { AreGlobals (code_of code.now) heap.old.objects }
    ensures { Loads (code_of code.now) hail.now heap.old heap.new result }
{
    tell_known(code);
    let loader = Loader { alloc, code };
    let mut fills = Fills::new(alloc);
    let result = perform_all(loader, heap, &mut fills, hail.as_slice());
    fills.settle(heap);
    result
}
