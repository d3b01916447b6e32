// Calls of `mu` over files in memory, with what they must come to.
use mu_base::{File, MemoryInputs, MemorySink, Status, Text, Words};
use mu_command::mu;
use std::alloc::{AllocError, Global};
use std::process::Abort;

/// The words of a run without options.
pub const RUN: &[&str] = &["run", "b", "--entry", "@main"];

/// The words of a run whose script for the heap is the file `f`.
pub const FILLED: &[&str] = &["run", "b", "--entry", "@main", "--hail", "f"];

/// The words of a run whose schedule is the file `f`.
pub const SCHEDULED: &[&str] = &["run", "b", "--entry", "@main", "--schedule", "f"];

/// The words of a run whose client is the script in the file `f`.
pub const ANSWERED: &[&str] = &["run", "b", "--entry", "@main", "--client", "f"];

/// What most bundles begin with.
pub const DEFINITIONS: &str =
    ".typedef @i1 = int<1> .typedef @i8 = int<8> .typedef @i32 = int<32> .typedef @i64 = int<64> .typedef @void = void .typedef @rv = ref<@void> .typedef @st = stackref .funcsig @m = () -> () .funcsig @mi = () -> (@i64) .funcsig @gs = (@st) -> () .const @c0 <@i64> = 0 .const @c1 <@i64> = 1 .const @c2 <@i64> = 2 .const @c10 <@i64> = 10 .const @c40 <@i64> = 40 .const @n2 <@i64> = -2 .const @w1 <@i32> = 1 .const @nul <@rv> = NULL ";

/// A bundle, or the text of a file beside one, what is written, and the status.
pub type Row = (&'static str, &'static str, Status);

/// What the program is to write, and the status that it is to end with.
#[derive(Clone, Copy)]
pub struct Wanted<'a> {
    /// All that is written.
    pub text: &'a str,
    /// The status.
    pub status: Status,
}

/// These words, one after another.
pub fn words_of(alloc: Global, all: &[&str]) -> Result<Words, AllocError> {
    let mut words = Words::new(alloc);
    for word in all {
        words.push(word)?;
    }
    Ok(words)
}

/// A file of that name.
pub fn named(alloc: Global, name: &str, bytes: Vec<u8>) -> Result<File, AllocError> {
    Ok(File {
        name: Text::from_vec(Vec::from_slice(alloc, name.as_bytes())?),
        bytes: Text::from_vec(bytes),
    })
}

/// The file `b` with those bytes. The fetches with those numbers fail.
pub fn file(alloc: Global, bytes: Vec<u8>, failing: &[u32]) -> Result<MemoryInputs, AllocError> {
    let files = vec![in alloc; named(alloc, "b", bytes)?]?;
    Ok(MemoryInputs::new(files, Vec::from_slice(alloc, failing)?))
}

/// The file `b` with those bytes, and the file `f` with that text. The fetches with those numbers fail.
pub fn two_files(
    alloc: Global,
    bytes: Vec<u8>,
    text: &str,
    failing: &[u32],
) -> Result<MemoryInputs, AllocError> {
    let other = Vec::from_slice(alloc, text.as_bytes())?;
    let files = vec![in alloc; named(alloc, "b", bytes)?, named(alloc, "f", other)?]?;
    Ok(MemoryInputs::new(files, Vec::from_slice(alloc, failing)?))
}

/// What the program writes, and its status.
pub fn writes(
    rt: &impl Abort,
    alloc: Global,
    all: &[&str],
    mut inputs: MemoryInputs,
    mut out: MemorySink,
    wanted: Wanted,
) -> Result<(), AllocError> {
    let words = words_of(alloc, all)?;
    let answer = mu(alloc, &words, &mut inputs, &mut out);
    assert_eq!(rt; out.bytes(), wanted.text.as_bytes());
    assert!(rt; answer == wanted.status);
    Ok(())
}

/// What the program writes of a bundle's bytes, and its status, where nothing fails.
pub fn answers(
    rt: &impl Abort,
    alloc: Global,
    all: &[&str],
    bytes: Vec<u8>,
    wanted: Wanted,
) -> Result<(), AllocError> {
    let inputs = file(alloc, bytes, &[])?;
    let out = MemorySink::new(alloc, Vec::new(alloc));
    writes(rt, alloc, all, inputs, out, wanted)
}

/// What is written of each bundle, and the status. The rows of a table stand in a constant that is only lent: a proof that builds
/// or moves a table takes long.
pub fn each_answers(
    rt: &impl Abort,
    alloc: Global,
    all: &[&str],
    rows: &[Row],
) -> Result<(), AllocError> {
    for (bundle, text, status) in rows {
        let bytes = Vec::from_slice(alloc, bundle.as_bytes())?;
        let wanted = Wanted {
            text: *text,
            status: *status,
        };
        answers(rt, alloc, all, bytes, wanted)?;
    }
    Ok(())
}

/// A bundle that begins with the definitions.
pub fn behind_definitions(alloc: Global, bundle: &str) -> Result<Vec<u8>, AllocError> {
    let mut bytes = Vec::from_slice(alloc, DEFINITIONS.as_bytes())?;
    bytes.extend_from_slice(bundle.as_bytes())?;
    Ok(bytes)
}

/// What is written of each bundle behind the definitions, and the status.
pub fn each_answers_behind(
    rt: &impl Abort,
    alloc: Global,
    all: &[&str],
    rows: &[Row],
) -> Result<(), AllocError> {
    for (bundle, text, status) in rows {
        let bytes = behind_definitions(alloc, bundle)?;
        let wanted = Wanted {
            text: *text,
            status: *status,
        };
        answers(rt, alloc, all, bytes, wanted)?;
    }
    Ok(())
}

/// The same beside the file `f`, which has that text.
pub fn each_answers_beside(
    rt: &impl Abort,
    alloc: Global,
    all: &[&str],
    other: &str,
    rows: &[Row],
) -> Result<(), AllocError> {
    for (bundle, text, status) in rows {
        let bytes = behind_definitions(alloc, bundle)?;
        let inputs = two_files(alloc, bytes, other, &[])?;
        let out = MemorySink::new(alloc, Vec::new(alloc));
        let wanted = Wanted {
            text: *text,
            status: *status,
        };
        writes(rt, alloc, all, inputs, out, wanted)?;
    }
    Ok(())
}

/// What is written of one bundle behind the definitions, beside each text of the file `f`, and the status.
pub fn each_text_answers(
    rt: &impl Abort,
    alloc: Global,
    all: &[&str],
    bundle: &str,
    texts: &[Row],
) -> Result<(), AllocError> {
    for (other, text, status) in texts {
        let bytes = behind_definitions(alloc, bundle)?;
        let inputs = two_files(alloc, bytes, other, &[])?;
        let out = MemorySink::new(alloc, Vec::new(alloc));
        let wanted = Wanted {
            text: *text,
            status: *status,
        };
        writes(rt, alloc, all, inputs, out, wanted)?;
    }
    Ok(())
}
