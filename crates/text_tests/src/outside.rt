// Files, standard output, and what stands for them in memory.
use mu_base::{
    FetchFault, File, FileInputs, Inputs, MemoryInputs, MemorySink, PutFault, Sink, StdSink, Text,
};
use std::fs;
use std::test::Fail;

#[test]
fn fetches_a_file(rt: HostRuntime) -> Result<(), Fail> {
    fs::write(&rt, "a.txt", "four")?;
    let mut inputs = FileInputs::new(&rt);
    let mut out = Vec::new(rt.alloc());
    let whole = inputs.fetch(0, "a.txt", 4, &mut out);
    assert!(rt; whole == Ok(()));
    assert_eq!(rt; out.as_slice(), b"four".as_slice());
    let long = inputs.fetch(0, "a.txt", 3, &mut out);
    assert!(rt; long == Err(FetchFault::TooLong));
    let missing = inputs.fetch(0, "b.txt", 3, &mut out);
    assert!(rt; missing == Err(FetchFault::Fault));
    Ok(())
}

#[test]
fn puts_to_standard_output(rt: HostRuntime) -> Result<(), Fail> {
    let mut out = StdSink::new(&rt);
    let answer = out.put(b"a line\n");
    assert!(rt; answer == Ok(()));
    Ok(())
}

#[test]
fn fetches_from_memory(rt: HostRuntime) -> Result<(), Fail> {
    let alloc = rt.alloc();
    let mut name = Text::new(alloc);
    name.push(b'a')?;
    let bytes = Text::from_vec(Vec::from_slice(alloc, b"four")?);
    let files = vec![in alloc; File { name, bytes }]?;
    let mut inputs = MemoryInputs::new(files, Vec::from_slice(alloc, &[1])?);
    let mut out = Vec::new(alloc);
    let whole = inputs.fetch(0, "a", 4, &mut out);
    assert!(rt; whole == Ok(()));
    assert_eq!(rt; out.as_slice(), b"four".as_slice());
    let failing = inputs.fetch(3, "a", 4, &mut out);
    assert!(rt; failing == Err(FetchFault::Fault));
    let long = inputs.fetch(0, "a", 3, &mut out);
    assert!(rt; long == Err(FetchFault::TooLong));
    Ok(())
}

#[test]
fn puts_to_memory(rt: HostRuntime) -> Result<(), Fail> {
    let alloc = rt.alloc();
    let mut out = MemorySink::new(alloc, Vec::from_slice(alloc, &[1])?);
    let first = out.put(b"one\n");
    assert!(rt; first == Ok(()));
    let failing = out.put(b"two\n");
    assert!(rt; failing == Err(PutFault::Fault));
    let last = out.put(b"three\n");
    assert!(rt; last == Ok(()));
    assert_eq!(rt; out.bytes(), b"one\nthree\n".as_slice());
    assert_eq!(rt; out.ends(), [4, 10].as_slice());
    Ok(())
}
