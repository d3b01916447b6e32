// The lines of refusals.
ghost use Rattle.std.specs.Prelude.{◌≡◌, ◌++◌, IfOk, codes, decimal};
ghost use Rattle.mu_texts.specs.What.{name_of};
ghost use Rattle.mu_texts.specs.Refusals.{text_fault_name, name_fault_name, type_fault_name, const_fault_name, check_fault_name, entry_fault_name, hail_fault_name, load_fault_name, script_fault_name, schedule_fault_name, log_fault_name, join_fault_name};

use crate::what::What;
use bundle_join::JoinKind;
use bundle_names::NameKind;
use check_tables::CheckKind;
use checked_code::EntryFault;
use client_script::ScriptKind;
use hail_load::{HailKind, LoadKind};
use itoa::Buffer;
use log_lines::LogKind;
use mu_threads::ScheduleKind;
use mu_types::TypeKind;
use mu_values::ConstKind;
use std::alloc::{AllocError, Global};
use text_forms::FaultKind;

/// The name of a text's fault in refusals.
pub fn text_fault_name(kind: FaultKind) -> &'static str
    ensures { result.now ≡ text_fault_name kind }
{
    match kind {
        FaultKind::BadByte => "BadByte",
        FaultKind::BadName => "BadName",
        FaultKind::NumberTooLarge => "NumberTooLarge",
        FaultKind::TooLong => "TooLong",
        FaultKind::Unexpected => "Unexpected",
        FaultKind::NotInProfile => "NotInProfile",
        FaultKind::TooMany => "TooMany",
    }
}

/// The name of a fault of names in refusals.
pub fn name_fault_name(kind: NameKind) -> &'static str
    ensures { result.now ≡ name_fault_name kind }
{
    match kind {
        NameKind::Duplicate => "Duplicate",
        NameKind::Unknown => "Unknown",
        NameKind::WrongKind => "WrongKind",
    }
}

fn type_fault_name(kind: TypeKind) -> &'static str
    ensures { result.now ≡ type_fault_name kind }
{
    match kind {
        TypeKind::EndlessType => "EndlessType",
        TypeKind::WrongArgument => "WrongArgument",
        TypeKind::TooManyLeaves => "TooManyLeaves",
    }
}

fn const_fault_name(kind: ConstKind) -> &'static str
    ensures { result.now ≡ const_fault_name kind }
{
    match kind {
        ConstKind::OutOfWidth => "OutOfWidth",
        ConstKind::WrongShape => "WrongShape",
        ConstKind::NotNullable => "NotNullable",
    }
}

/// The name of an unmet demand on a bundle whose names are defined, in refusals.
pub fn check_fault_name(kind: CheckKind) -> &'static str
    ensures { result.now ≡ check_fault_name kind }
{
    match kind {
        CheckKind::Types(kind) => type_fault_name(kind),
        CheckKind::Const(kind) => const_fault_name(kind),
        CheckKind::OperandType => "OperandType",
        CheckKind::ResultCount => "ResultCount",
        CheckKind::ArgumentCount => "ArgumentCount",
        CheckKind::ArgumentType => "ArgumentType",
        CheckKind::NotLocal => "NotLocal",
        CheckKind::NoEnding => "NoEnding",
        CheckKind::AfterEnding => "AfterEnding",
        CheckKind::BadOrder => "BadOrder",
        CheckKind::BadDestination => "BadDestination",
        CheckKind::BadIndex => "BadIndex",
        CheckKind::BadSignature => "BadSignature",
        CheckKind::EntryParameters => "EntryParameters",
    }
}

/// The name of what keeps a function from being entered, in refusals.
pub fn entry_fault_name(fault: EntryFault) -> &'static str
    ensures { result.now ≡ entry_fault_name fault }
{
    match fault {
        EntryFault::Unknown => "Unknown",
        EntryFault::BadSignature => "BadSignature",
        EntryFault::NoBody => "NoBody",
    }
}

/// The name of a fault of a heap script's text in refusals.
pub fn hail_fault_name(kind: HailKind) -> &'static str
    ensures { result.now ≡ hail_fault_name kind }
{
    match kind {
        HailKind::Text(kind) => text_fault_name(kind),
        HailKind::Unknown => "Unknown",
        HailKind::Duplicate => "Duplicate",
    }
}

/// The name of a fault of a heap script's command in refusals.
pub fn load_fault_name(kind: LoadKind) -> &'static str
    ensures { result.now ≡ load_fault_name kind }
{
    match kind {
        LoadKind::WrongType => "WrongType",
        LoadKind::OutOfRange => "OutOfRange",
        LoadKind::HeapFull => "HeapFull",
    }
}

/// The name of a fault of a client's script in refusals.
pub fn script_fault_name(kind: ScriptKind) -> &'static str
    ensures { result.now ≡ script_fault_name kind }
{
    match kind {
        ScriptKind::Text(kind) => text_fault_name(kind),
        ScriptKind::Unknown => "Unknown",
    }
}

/// The name of a schedule's fault in refusals.
pub fn schedule_fault_name(kind: ScheduleKind) -> &'static str
    ensures { result.now ≡ schedule_fault_name kind }
{
    match kind {
        ScheduleKind::BadToken => "BadToken",
        ScheduleKind::NumberTooLarge => "NumberTooLarge",
    }
}

/// The name of a fault of a log's text in refusals.
pub fn log_fault_name(kind: LogKind) -> &'static str
    ensures { result.now ≡ log_fault_name kind }
{
    match kind {
        LogKind::Lex => "Lex",
        LogKind::Unexpected => "Unexpected",
        LogKind::BadNumber => "BadNumber",
    }
}

/// The name of what keeps an item from going into a joined bundle, in refusals.
pub fn join_fault_name(kind: JoinKind) -> &'static str
    ensures { result.now ≡ join_fault_name kind }
{
    match kind {
        JoinKind::Duplicate => "Duplicate",
        JoinKind::OtherType => "OtherType",
        JoinKind::OtherSignature => "OtherSignature",
        JoinKind::TooMany => "TooMany",
    }
}

/// `refused WHAT PLACE FAULT`
pub fn refusal(alloc: Global, what: What, place: usize, fault: &str) -> Result<Vec<u8>, AllocError>
    ensures { IfOk result (λ text. text.items ≡ codes "refused " ++ name_of what ++ codes " " ++ decimal place ++ codes " " ++ fault.now) }
{
    let mut buffer = Buffer::new();
    let mut text = Vec::from_slice(alloc, b"refused ")?;
    what.append_name(&mut text)?;
    text.extend_from_slice(b" ")?;
    text.extend_from_slice(buffer.format(place).as_bytes())?;
    text.extend_from_slice(b" ")?;
    text.extend_from_slice(fault.as_bytes())?;
    Ok(text)
}
