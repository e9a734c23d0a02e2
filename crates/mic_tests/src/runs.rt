//! Runs that must agree: by the shipped microprogram, by its printed text as a microprogram of one's own, and traced.

use crate::call::{Answer, Job, answer_to};
use std::alloc::{AllocError, Global};
use std::test::Fail;

/// A letter, an echo, a call, and a stack that is full.
const JOBS: [Job; 4] = [
    Job {
        program: ".main\nBIPUSH 72\nOUT\nHALT\n.end-main\n",
        input: "",
    },
    Job {
        program: ".main\nL: IN\nDUP\nBIPUSH 10\nIF_ICMPEQ done\nOUT\nGOTO L\ndone: OUT\nHALT\n.end-main\n",
        input: "ab\n",
    },
    Job {
        program: ".constant\nOBJ 64\n.end-constant\n.main\nLDC_W OBJ\nBIPUSH 20\nBIPUSH 22\nINVOKEVIRTUAL add\nOUT\nHALT\n.end-main\n.method add(a, b)\n.var\nr\n.end-var\nILOAD a\nILOAD b\nIADD\nISTORE r\nILOAD r\nIRETURN\n.end-method\n",
        input: "",
    },
    Job {
        program: ".main\nIN\nISTORE 32767\nHALT\n.end-main\n",
        input: "xy",
    },
];

const NOTHING: Job = Job {
    program: "",
    input: "",
};

/// Whether a trace has the run's output and status, and ends with its report.
fn is_traced(trace: &Answer, run: &Answer) -> bool {
    trace.status == run.status
        && trace.out == run.out
        && trace.err.as_slice().ends_with(run.err.as_slice())
}

/// A job run by the shipped microprogram, by one of one's own, and traced.
#[derive(Drop)]
struct Runs {
    shipped: Answer,
    own: Answer,
    trace: Answer,
}

fn runs_of(alloc: Global, machine: &str, job: Job, micro: &[u8]) -> Result<Runs, AllocError> {
    Ok(Runs {
        shipped: answer_to(alloc, &["run", "P", "--machine", machine], job, micro)?,
        own: answer_to(
            alloc,
            &["run", "P", "--machine", machine, "--micro", "M"],
            job,
            micro,
        )?,
        trace: answer_to(alloc, &["trace", "P", "--machine", machine], job, micro)?,
    })
}

#[test]
fn the_printed_microprogram_runs_as_the_shipped_one(rt: HostRuntime) -> Result<(), Fail> {
    let alloc = rt.alloc();
    for machine in ["mic1", "mic2"] {
        let printed = answer_to(alloc, &["print-micro", "--machine", machine], NOTHING, b"")?;
        for job in JOBS {
            let runs = runs_of(alloc, machine, job, printed.out.as_slice())?;
            assert!(rt; runs.own == runs.shipped, "of {machine}");
            assert!(rt; is_traced(&runs.trace, &runs.shipped), "of {machine}");
        }
    }
    Ok(())
}
