// Instructions that say where the function goes on, or that enter or leave one.
ghost use Rattle.std.specs.Prelude.{◌≡◌, None, option_copied};
ghost use Rattle.std.specs.Str.{bytes_eq};
ghost use Rattle.demands.specs.Demands.{Judges, demand, ◌⨾◌};
ghost use Rattle.name_scopes.specs.Names.{found};
ghost use Rattle.ir_tree.specs.declared.flow.ControlFlow.TheVariants as flows;
ghost use Rattle.check_tables.specs.declared.fault.CheckKind.TheVariants.{OperandType};
ghost use Rattle.check_tables.specs.Lookups.{class_named, class_of_global, signature_named, funcref_of, takes_of, gives_of};
ghost use Rattle.checked_code.specs.Operands.{is_class, operand_demands, argument_demands, source_of, sources_of};
ghost use Rattle.checked_code.specs.Destinations.{normal_demands, target_of};
ghost use Rattle.code_check.specs.Gifts.{listed};
ghost use Rattle.checked_code.specs.Control.{case_demands, constant_number, case_code, cases_code, gives_these, control_demands, control_gives, control_code};

use crate::destinations::normal;
use crate::gifts::Gift;
use crate::operands::{
    arguments, demand, int_type, is_class, of_type, operand, thrown, type_demand,
};
use bundle_names::Sort;
use check_tables::{CheckFault, CheckKind, Tables};
use checked_code::{Body, CaseForm, ControlForm, Locals, Source, Target};
use ir_lex::Name;
use ir_tree::{Arguments, Case, ControlFlow, Destination, Operand};
use std::alloc::Global;
use text_forms::Listing;

/// What the names in an instruction may stand for.
#[derive(Clone, Copy)]
struct Scene<'a> {
    /// What the items of the bundle say.
    tables: &'a Tables,
    /// The blocks of the function, and what it gives.
    body: &'a Body,
    /// The variables of the block so far.
    locals: &'a Locals,
}

impl Scene<'_> {
    /// An operand of the class that is wanted.
    fn operand(self, given: &Operand, wanted: Option<u32>) -> Result<Source, CheckFault>
        ensures { Judges (operand_demands self.entry.tables.now self.entry.locals.now OperandType given.now wanted) (source_of self.entry.tables.now self.entry.locals.now given.now) result }
    {
        operand(
            self.tables,
            self.locals,
            CheckKind::OperandType,
            given,
            wanted,
        )
    }

    /// A list of arguments: as many as there are classes, and each of its class.
    fn arguments(
        self,
        alloc: Global,
        given: &Arguments,
        wanted: Option<&[u32]>,
    ) -> Result<Listing<Source>, CheckFault>
        ensures { Judges (argument_demands self.entry.tables.now self.entry.locals.now given.now (option_copied wanted.entry)) (sources_of self.entry.tables.now self.entry.locals.now given.now.values) result }
    {
        arguments(alloc, self.tables, self.locals, given, wanted)
    }

    /// A destination whose block has no handler.
    fn normal(self, alloc: Global, destination: &Destination) -> Result<Target, CheckFault>
        ensures { Judges (normal_demands self.entry.tables.now self.entry.body.now self.entry.locals.now destination.now) (target_of self.entry.tables.now self.entry.body.now self.entry.locals.now destination.now) result }
    {
        normal(alloc, self.tables, self.body, self.locals, destination)
    }
}

/// The number of the constant that a name stands for, and 0 where there is none.
fn constant_number(tables: &Tables, name: &Name) -> u32
    ensures { result ≡ constant_number (found tables.now.globals.names name.now.text) }
{
    match tables.globals.names.find(name.text.as_slice()) {
        Some(Sort::Constant(n)) => *n,
        _ => 0,
    }
}

/// A case of a `SWITCH`: the constant is of the type that is switched on.
fn case(alloc: Global, scene: Scene, name: &Name, case: &Case) -> Result<CaseForm, CheckFault>
    ensures { Judges (demand case.now.constant.place OperandType (is_class (class_of_global scene.entry.tables.now case.now.constant) (class_named scene.entry.tables.now name.now)) ⨾ normal_demands scene.entry.tables.now scene.entry.body.now scene.entry.locals.now case.now.destination) (case_code scene.entry.tables.now scene.entry.body.now scene.entry.locals.now case.now) result }
{
    let constant = &case.constant;
    let class = scene.tables.class_of_global(constant);
    type_demand(constant, is_class(class, scene.tables.class_named(name)))?;
    let target = scene.normal(alloc, &case.destination)?;
    Ok(CaseForm {
        constant: constant_number(scene.tables, constant),
        target,
    })
}

fn cases(
    alloc: Global,
    scene: Scene,
    name: &Name,
    cases: &[Case],
) -> Result<Listing<CaseForm>, CheckFault>
    ensures { Judges (case_demands scene.entry.tables.now scene.entry.body.now scene.entry.locals.now name.now cases.now) (cases_code scene.entry.tables.now scene.entry.body.now scene.entry.locals.now cases.now) result }
{
    let mut forms = Listing::new(alloc);
    let mut left = cases;
    'each: while let [first, more @ ..] = left {
        forms.push(case(alloc, scene, name, first)?)?;
        left = more;
    }
    Ok(forms)
}

/// Whether these are the classes that are wanted.
pub fn are_classes(classes: &[u32], wanted: &[u32]) -> bool
    ensures { result ≡ bytes_eq classes.now wanted.now }
{
    classes == wanted
}

/// Whether the signature that a name stands for gives these classes.
fn gives_these(tables: &Tables, signature: &Name, classes: &[u32]) -> bool
    ensures { result ≡ gives_these (gives_of (signature_named tables.now signature.now)) classes.now }
{
    match tables.gives_named(signature) {
        Some(given) => are_classes(given, classes),
        None => false,
    }
}

/// `BRANCH2`.
fn branch2(
    alloc: Global,
    scene: Scene,
    condition: &Operand,
    if_one: &Destination,
    if_zero: &Destination,
) -> Result<ControlForm, CheckFault>
    ensures { Judges (control_demands scene.entry.tables.now scene.entry.body.now scene.entry.locals.now (flows.Branch2 condition.now if_one.now if_zero.now)) (control_code scene.entry.tables.now scene.entry.body.now scene.entry.locals.now (flows.Branch2 condition.now if_one.now if_zero.now)) result }
{
    let one_bit = Some(scene.tables.types.int1());
    let condition = scene.operand(condition, one_bit)?;
    let if_one = scene.normal(alloc, if_one)?;
    let if_zero = scene.normal(alloc, if_zero)?;
    Ok(ControlForm::Branch2 {
        condition,
        if_one,
        if_zero,
    })
}

/// `SWITCH`.
fn switch(
    alloc: Global,
    scene: Scene,
    name: &Name,
    operand: &Operand,
    default: &Destination,
    listed: &Listing<Case>,
) -> Result<ControlForm, CheckFault>
    ensures { Judges (control_demands scene.entry.tables.now scene.entry.body.now scene.entry.locals.now (flows.Switch name.now operand.now default.now listed.now)) (control_code scene.entry.tables.now scene.entry.body.now scene.entry.locals.now (flows.Switch name.now operand.now default.now listed.now)) result }
{
    let class = int_type(scene.tables, name)?;
    let operand = of_type(scene.tables, scene.locals, operand, name)?;
    let default = scene.normal(alloc, default)?;
    let cases = cases(alloc, scene, name, listed.as_slice())?;
    Ok(ControlForm::Switch {
        class,
        operand,
        default,
        cases,
    })
}

/// What is called, and the arguments: both are of the signature that a name stands for.
fn called(
    alloc: Global,
    scene: Scene,
    signature: &Name,
    callee: &Operand,
    given: &Arguments,
) -> Result<(Source, Listing<Source>), CheckFault>
    ensures { Judges (operand_demands scene.entry.tables.now scene.entry.locals.now OperandType callee.now (funcref_of (signature_named scene.entry.tables.now signature.now)) ⨾ argument_demands scene.entry.tables.now scene.entry.locals.now given.now (takes_of (signature_named scene.entry.tables.now signature.now))) (source_of scene.entry.tables.now scene.entry.locals.now callee.now, sources_of scene.entry.tables.now scene.entry.locals.now given.now.values) result }
{
    let wanted = scene.tables.funcref_named(signature);
    let callee = scene.operand(callee, wanted)?;
    let arguments = scene.arguments(alloc, given, scene.tables.takes_named(signature))?;
    Ok((callee, arguments))
}

/// `CALL`, whatever stands behind it.
fn call(
    alloc: Global,
    scene: Scene,
    signature: &Name,
    callee: &Operand,
    given: &Arguments,
) -> Result<ControlForm, CheckFault>
    ensures { Judges (control_demands scene.entry.tables.now scene.entry.body.now scene.entry.locals.now (flows.Call signature.now callee.now given.now None None)) (control_code scene.entry.tables.now scene.entry.body.now scene.entry.locals.now (flows.Call signature.now callee.now given.now None None)) result }
{
    let (callee, arguments) = called(alloc, scene, signature, callee, given)?;
    Ok(ControlForm::Call {
        signature: scene.tables.noted_signature(signature),
        callee,
        arguments,
    })
}

/// `TAILCALL`.
fn tailcall(
    alloc: Global,
    scene: Scene,
    signature: &Name,
    callee: &Operand,
    given: &Arguments,
) -> Result<ControlForm, CheckFault>
    ensures { Judges (control_demands scene.entry.tables.now scene.entry.body.now scene.entry.locals.now (flows.Tailcall signature.now callee.now given.now)) (control_code scene.entry.tables.now scene.entry.body.now scene.entry.locals.now (flows.Tailcall signature.now callee.now given.now)) result }
{
    let met = gives_these(scene.tables, signature, scene.body.gives.as_slice());
    demand(met, CheckKind::BadSignature, signature.place)?;
    let (callee, arguments) = called(alloc, scene, signature, callee, given)?;
    Ok(ControlForm::Tailcall {
        signature: scene.tables.noted_signature(signature),
        callee,
        arguments,
    })
}

/// `RET`.
fn ret(alloc: Global, scene: Scene, values: &Arguments) -> Result<ControlForm, CheckFault>
    ensures { Judges (control_demands scene.entry.tables.now scene.entry.body.now scene.entry.locals.now (flows.Ret values.now)) (control_code scene.entry.tables.now scene.entry.body.now scene.entry.locals.now (flows.Ret values.now)) result }
{
    let values = scene.arguments(alloc, values, Some(scene.body.gives.as_slice()))?;
    Ok(ControlForm::Ret { values })
}

/// An instruction that says where the function goes on, or that enters or leaves one.
pub fn control(
    alloc: Global,
    tables: &Tables,
    body: &Body,
    locals: &Locals,
    control: &ControlFlow,
) -> Result<ControlForm, CheckFault>
    ensures { Judges (control_demands tables.now body.now locals.now control.now) (control_code tables.now body.now locals.now control.now) result }
{
    let scene = Scene {
        tables,
        body,
        locals,
    };
    match control {
        ControlFlow::Branch { destination } => {
            let target = scene.normal(alloc, destination)?;
            Ok(ControlForm::Branch { target })
        }
        ControlFlow::Branch2 {
            condition,
            if_one,
            if_zero,
        } => branch2(alloc, scene, condition, if_one, if_zero),
        ControlFlow::Switch {
            of_type,
            operand,
            default,
            cases,
        } => switch(alloc, scene, of_type, operand, default, cases),
        ControlFlow::Call {
            signature,
            callee,
            arguments,
            ..
        } => call(alloc, scene, signature, callee, arguments),
        ControlFlow::Tailcall {
            signature,
            callee,
            arguments,
        } => tailcall(alloc, scene, signature, callee, arguments),
        ControlFlow::Ret { values } => ret(alloc, scene, values),
        ControlFlow::Throw { exception } => {
            let exception = thrown(tables, locals, exception)?;
            Ok(ControlForm::Throw { exception })
        }
    }
}

/// What such an instruction gives.
pub fn control_gift<'a>(tables: &'a Tables, control: &'a ControlFlow) -> Gift<'a>
    ensures { listed tables.now result ≡ control_gives tables.now control.now }
{
    match control {
        ControlFlow::Call { signature, .. } => match tables.gives_named(signature) {
            Some(classes) => Gift::Listed(classes),
            None => Gift::Nothing,
        },
        _ => Gift::Nothing,
    }
}
