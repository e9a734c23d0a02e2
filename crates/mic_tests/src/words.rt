//! Command lines with an empty word, which no case can have, since spaces divide the words of a case.

use crate::call::{Job, answer_to};
use std::test::Fail;

/// A program that halts.
const JOB: Job = Job {
    program: ".main\nHALT\n.end-main\n",
    input: "",
};

const LINES: [&[&str]; 11] = [
    &[""],
    &["run", ""],
    &["run", "P", ""],
    &["run", "", "P"],
    &["run", "--", ""],
    &["assemble", "", "I"],
    &["assemble", "P", ""],
    &["print-micro", ""],
    &["reference", "P", "--bound", ""],
    &["run", "P", "--machine", ""],
    &["verify", "--map", "", "P"],
];

#[test]
fn an_empty_word_is_a_usage_fault(rt: HostRuntime) -> Result<(), Fail> {
    for line in LINES {
        let answer = answer_to(rt.alloc(), line, JOB, b"")?;
        assert_eq!(rt; answer.status, 64, "of {line:?}");
    }
    Ok(())
}
