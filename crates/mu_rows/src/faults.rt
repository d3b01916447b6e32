// Faults of files and of the sink where a run has all four files, and where it writes many pieces.
use crate::calls::{RUN, Wanted, behind_definitions, file, named, words_of, writes};
use crate::swaps::HANDED_ON;
use crate::tests::ADDS_40_AND_2;
use mu_base::{MemoryInputs, MemorySink, Status};
use mu_command::mu;
use std::alloc::{AllocError, Global};
use std::process::Abort;
use std::test::Fail;

// The words of a run with the files `h`, `k` and `s` beside its bundle.
const WITH_ALL_FILES: &[&str] = &[
    "run",
    "b",
    "--entry",
    "@main",
    "--hail",
    "h",
    "--client",
    "k",
    "--schedule",
    "s",
];

// Which fetches and puts of that run fail, by their numbers, and what it comes to.
#[derive(Clone, Copy)]
struct Faults {
    fetches: &'static [u32],
    puts: &'static [u32],
    text: &'static str,
    status: Status,
}

const FAULTS: [Faults; 8] = [
    Faults {
        fetches: &[0],
        puts: &[],
        text: "read fault bundle\n",
        status: Status::ReadFault,
    },
    Faults {
        fetches: &[1],
        puts: &[],
        text: "read fault hail\n",
        status: Status::ReadFault,
    },
    Faults {
        fetches: &[2],
        puts: &[],
        text: "read fault client\n",
        status: Status::ReadFault,
    },
    Faults {
        fetches: &[3],
        puts: &[],
        text: "read fault schedule\n",
        status: Status::ReadFault,
    },
    Faults {
        fetches: &[0],
        puts: &[0],
        text: "",
        status: Status::SinkFault,
    },
    Faults {
        fetches: &[],
        puts: &[0],
        text: "",
        status: Status::SinkFault,
    },
    Faults {
        fetches: &[],
        puts: &[1],
        text: "returned t0 42\n",
        status: Status::SinkFault,
    },
    // Neither comes to a fifth fetch nor to a third put.
    Faults {
        fetches: &[4],
        puts: &[2],
        text: "returned t0 42\ndone\n",
        status: Status::Done,
    },
];

// The file `b` with those bytes, and the files `h`, `k` and `s` without a byte. The fetches with those numbers fail.
fn four_files(alloc: Global, bytes: Vec<u8>, failing: &[u32]) -> Result<MemoryInputs, AllocError> {
    let files = vec![in alloc;
        named(alloc, "b", bytes)?,
        named(alloc, "h", Vec::new(alloc))?,
        named(alloc, "k", Vec::new(alloc))?,
        named(alloc, "s", Vec::new(alloc))?,
    ]?;
    Ok(MemoryInputs::new(files, Vec::from_slice(alloc, failing)?))
}

fn each_fault_comes_to(
    rt: &impl Abort,
    alloc: Global,
    faults: &[Faults],
) -> Result<(), AllocError> {
    for fault in faults {
        let bytes = Vec::from_slice(alloc, ADDS_40_AND_2.as_bytes())?;
        let inputs = four_files(alloc, bytes, fault.fetches)?;
        let out = MemorySink::new(alloc, Vec::from_slice(alloc, fault.puts)?);
        let wanted = Wanted {
            text: fault.text,
            status: fault.status,
        };
        writes(rt, alloc, WITH_ALL_FILES, inputs, out, wanted)?;
    }
    Ok(())
}

#[test]
fn faults_of_all_files_and_of_the_sink(rt: HostRuntime) -> Result<(), Fail> {
    each_fault_comes_to(&rt, rt.alloc(), &FAULTS)?;
    Ok(())
}

// The lines of a step are one piece, and an ending that is found before a step is a piece.
#[test]
fn lines_come_step_by_step(rt: HostRuntime) -> Result<(), Fail> {
    let words = words_of(rt.alloc(), RUN)?;
    let mut inputs = file(rt.alloc(), behind_definitions(rt.alloc(), HANDED_ON)?, &[])?;
    let mut out = MemorySink::new(rt.alloc(), Vec::new(rt.alloc()));
    assert!(rt; mu(rt.alloc(), &words, &mut inputs, &mut out) == Status::AllWaiting);
    assert_eq!(rt; out.ends().len(), 9);
    Ok(())
}

const BEFORE_PIECE_3: &str =
    "0 t0 stack s1\n1 t0 leave s0\n2 t0 enter s1\n3 t0 write NOT_ATOMIC #1+0 1 40\n";

#[test]
fn a_run_ends_where_a_piece_is_not_taken(rt: HostRuntime) -> Result<(), Fail> {
    let inputs = file(rt.alloc(), behind_definitions(rt.alloc(), HANDED_ON)?, &[])?;
    let out = MemorySink::new(rt.alloc(), Vec::from_slice(rt.alloc(), &[3])?);
    let wanted = Wanted {
        text: BEFORE_PIECE_3,
        status: Status::SinkFault,
    };
    writes(&rt, rt.alloc(), RUN, inputs, out, wanted)?;
    Ok(())
}
