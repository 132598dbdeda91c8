//! Plans the reference circuits of document 01, whose ceiling is 62, and prints the scalar fields of each plan, or its refusal.
#![tactic(auto)]

use answer::ActiveComponentPlan;
use component_plan::build_active_component_plan;
use plan_buffers::StoredOutputs;
use records::Head;
use refusals::Refusal;
use std::num::saturating_f64_to_u64;
use std::{fmt, io};

// The float 1 as a word.
const ONE: u64 = 0x3ff0_0000_0000_0000;

// The ceiling of document 01's circuits.
const CEILING: u64 = 62;

// A circuit of at most two records.
#[derive(Clone, Copy, Debug, PartialEq, Eq)]
struct Circuit {
    name: &'static str,
    initial_k: u64,
    max_k: u64,
    nexpvals: u64,
    records: &'static [u64],
}

// Document 01's circuits.
static CIRCUITS: [Circuit; 12] = [
    Circuit {
        name: "max_k 62",
        initial_k: 0,
        max_k: 62,
        nexpvals: 0,
        records: &[],
    },
    Circuit {
        name: "max_k 61, nexpvals 1",
        initial_k: 0,
        max_k: 61,
        nexpvals: 1,
        records: &[],
    },
    Circuit {
        name: "initial 0, rotation of width 0",
        initial_k: 0,
        max_k: 8,
        nexpvals: 0,
        records: &[0, 0, 0, 0, 0, 0, 0, ONE],
    },
    Circuit {
        name: "initial 3, rotation x = 5",
        initial_k: 3,
        max_k: 8,
        nexpvals: 0,
        records: &[0, 3, 5, 0, 0, 0, 0, ONE],
    },
    Circuit {
        name: "then measurement z = 6, pivot 2",
        initial_k: 3,
        max_k: 8,
        nexpvals: 0,
        records: &[0, 3, 5, 0, 0, 0, 0, ONE, 4, 3, 0, 6, 0, 2, 0, 0],
    },
    Circuit {
        name: "initial 2, measurement with masks 0, pivot 0",
        initial_k: 2,
        max_k: 8,
        nexpvals: 0,
        records: &[4, 2, 0, 0, 0, 0, 0, 0],
    },
    Circuit {
        name: "initial 2, measurement with masks 0, pivot 1",
        initial_k: 2,
        max_k: 8,
        nexpvals: 0,
        records: &[4, 2, 0, 0, 0, 1, 0, 0],
    },
    Circuit {
        name: "initial 1, rotation x = 2",
        initial_k: 1,
        max_k: 8,
        nexpvals: 0,
        records: &[0, 1, 2, 0, 0, 0, 0, ONE],
    },
    Circuit {
        name: "initial 1, measurement z = 1, phase 1",
        initial_k: 1,
        max_k: 8,
        nexpvals: 0,
        records: &[4, 1, 0, 1, 1, 0, 0, 0],
    },
    Circuit {
        name: "initial 1, measurement z = 1, phase 2",
        initial_k: 1,
        max_k: 8,
        nexpvals: 0,
        records: &[4, 1, 0, 1, 2, 0, 0, 0],
    },
    Circuit {
        name: "initial 62, rotation x = 2^62 - 1",
        initial_k: 62,
        max_k: 8,
        nexpvals: 0,
        records: &[0, 62, 0x3fff_ffff_ffff_ffff, 0, 0, 0, 0, ONE],
    },
    Circuit {
        name: "initial 61, rotation x = 2^61 - 1",
        initial_k: 61,
        max_k: 8,
        nexpvals: 0,
        records: &[0, 61, 0x1fff_ffff_ffff_ffff, 0, 0, 0, 0, ONE],
    },
];

// The line of an answer: the eight scalar fields, in order, or the refusal. A work is a whole number in every circuit here.
#[derive(Clone, Copy, Debug, PartialEq)]
struct Line(Result<ActiveComponentPlan, Refusal>);

impl fmt::Display for Line {
    fn fmt<W: fmt::Write>(&self, f: &mut fmt::Formatter<W>) -> fmt::Result {
        match self.0 {
            Ok(plan) => write!(
                f,
                "{}, components {} to {}, works {} and {}, dense peak {}, peak {}, allocated {}",
                choice(plan),
                plan.initial_components,
                plan.component_count,
                saturating_f64_to_u64(plan.estimated_dense_work),
                saturating_f64_to_u64(plan.estimated_component_work),
                plan.dense_peak_dimension,
                plan.component_peak_live_dimension,
                plan.component_allocated_dimension
            ),
            Err(refusal) => write!(f, "{refusal}"),
        }
    }
}

// Whether a plan is selected, in a word.
fn choice(plan: ActiveComponentPlan) -> &'static str {
    if plan.selected {
        "selected"
    } else {
        "unselected"
    }
}

// Plans one circuit.
fn plan(circuit: &Circuit) -> Result<ActiveComponentPlan, Refusal> {
    let head = Head {
        initial_k: circuit.initial_k,
        max_k: circuit.max_k,
        nexpvals: circuit.nexpvals,
        ceiling: CEILING,
    };
    let mut out = StoredOutputs {
        steps: &mut [7; 4],
        merges: &mut [7; 514],
        sizes: &mut [7; 512],
        rotations: &mut [7; 42],
        promotions: &mut [7; 2],
        measurements: &mut [7; 38],
    };
    build_active_component_plan(head, circuit.records, &mut out, &mut [7; 1024])
}

fn main(rt: HostRuntime) -> io::Result<()> {
    for circuit in &CIRCUITS {
        println!(rt; "{}: {}", circuit.name, Line(plan(circuit)))?;
    }
    Ok(())
}
