// What is written of bundles that are joined.
use crate::calls::{Wanted, two_files, writes};
use mu_base::{MemorySink, Status};
use std::alloc::{AllocError, Global};
use std::process::Abort;
use std::test::Fail;

// The words that join the files `b` and `f`.
const JOIN: &[&str] = &["join", "b", "f"];

const FIRST: &str = ".typedef @i = int<8> .global @g <@i>";

// Two bundles, which of their fetches fail, what is written, and the status.
#[derive(Clone, Copy)]
struct Pair {
    first: &'static str,
    second: &'static str,
    failing: &'static [u32],
    text: &'static str,
    status: Status,
}

const PAIRS: [Pair; 8] = [
    Pair {
        first: FIRST,
        second: ".typedef @i = int<8> .global @h <@i>",
        failing: &[],
        text: ".typedef @i = int<8>\n.global @g <@i>\n.global @h <@i>\n",
        status: Status::Done,
    },
    Pair {
        first: FIRST,
        second: ".typedef @i = int<16>",
        failing: &[],
        text: "refused bundle 1 9 OtherType\n",
        status: Status::Refused,
    },
    Pair {
        first: FIRST,
        second: ".global @g <@i>",
        failing: &[],
        text: "refused bundle 1 8 Duplicate\n",
        status: Status::Refused,
    },
    Pair {
        first: ".funcsig @s = () -> () .funcdecl @f <@s>",
        second: ".funcsig @t = () -> () .funcdef @f VERSION %v <@t> { %e(): RET () }",
        failing: &[],
        text: "refused bundle 1 47 OtherSignature\n",
        status: Status::Refused,
    },
    Pair {
        first: "",
        second: "",
        failing: &[],
        text: "",
        status: Status::Done,
    },
    Pair {
        first: FIRST,
        second: "@",
        failing: &[],
        text: "refused bundle 1 0 BadName\n",
        status: Status::Refused,
    },
    Pair {
        first: FIRST,
        second: ".typedef @i = int<16>",
        failing: &[1],
        text: "read fault bundle 1\n",
        status: Status::ReadFault,
    },
    Pair {
        first: FIRST,
        second: "@",
        failing: &[0],
        text: "read fault bundle 0\n",
        status: Status::ReadFault,
    },
];

// What is written of each two bundles, and the status.
fn each_pair_answers(rt: &impl Abort, alloc: Global, pairs: &[Pair]) -> Result<(), AllocError> {
    for pair in pairs {
        let bytes = Vec::from_slice(alloc, pair.first.as_bytes())?;
        let inputs = two_files(alloc, bytes, pair.second, pair.failing)?;
        let out = MemorySink::new(alloc, Vec::new(alloc));
        let wanted = Wanted {
            text: pair.text,
            status: pair.status,
        };
        writes(rt, alloc, JOIN, inputs, out, wanted)?;
    }
    Ok(())
}

#[test]
fn pairs(rt: HostRuntime) -> Result<(), Fail> {
    each_pair_answers(&rt, rt.alloc(), &PAIRS)?;
    Ok(())
}
