//! Graphs that are valid, and graphs that break one rule.
use crate::graphs::{DIAMOND, NO_TASKS, Numbers, TWO_TASKS, graph};
use graph_types::valid;
use std::alloc::Global;
use std::test::Fail;

/// A graph, and what is told of it.
struct Case {
    name: &'static str,
    numbers: Numbers,
    valid: bool,
}

/// Each but the first five is the diamond or one that was drawn like it, and breaks one rule.
const CASES: [Case; 21] = [
    Case {
        name: "nothing is a valid graph",
        numbers: NO_TASKS,
        valid: true,
    },
    Case {
        name: "old slots are among the slots",
        numbers: Numbers { old: 1, ..NO_TASKS },
        valid: false,
    },
    Case {
        name: "two tasks in a row",
        numbers: TWO_TASKS,
        valid: true,
    },
    Case {
        name: "a diamond",
        numbers: DIAMOND,
        valid: true,
    },
    Case {
        name: "a task is counted once among the predecessors, though two of its slots are read",
        numbers: Numbers {
            writes: &[&[1], &[2, 3], &[], &[4]],
            successors: &[&[1, 2], &[3], &[], &[]],
            predecessors: &[0, 1, 1, 1],
            ..DIAMOND
        },
        valid: true,
    },
    Case {
        name: "each task has its lists",
        numbers: Numbers {
            successors: &[&[1, 2], &[3], &[3]],
            ..DIAMOND
        },
        valid: false,
    },
    Case {
        name: "reads ascend",
        numbers: Numbers {
            reads: &[&[0], &[1], &[1], &[3, 2]],
            ..DIAMOND
        },
        valid: false,
    },
    Case {
        name: "no slot is read twice by a task",
        numbers: Numbers {
            reads: &[&[0], &[1], &[1], &[2, 2, 3]],
            ..DIAMOND
        },
        valid: false,
    },
    Case {
        name: "slots that are read are there",
        numbers: Numbers {
            reads: &[&[0], &[1], &[1], &[2, 3, 5]],
            ..DIAMOND
        },
        valid: false,
    },
    Case {
        name: "no slot is written twice",
        numbers: Numbers {
            writes: &[&[1], &[2, 4], &[3], &[4]],
            uses: &[1, 3, 2, 2, 3],
            ..DIAMOND
        },
        valid: false,
    },
    Case {
        name: "each new slot is written",
        numbers: Numbers {
            writes: &[&[1], &[2], &[3], &[]],
            uses: &[1, 3, 2, 2, 1],
            ..DIAMOND
        },
        valid: false,
    },
    Case {
        name: "no old slot is written",
        numbers: Numbers {
            reads: &[&[], &[1], &[1], &[0, 2, 3]],
            writes: &[&[0, 1], &[2], &[3], &[4]],
            successors: &[&[1, 2, 3], &[3], &[3], &[]],
            predecessors: &[0, 1, 1, 3],
            uses: &[2, 3, 2, 2, 2],
            ..DIAMOND
        },
        valid: false,
    },
    Case {
        name: "each old slot is read",
        numbers: Numbers {
            reads: &[&[], &[1], &[1], &[2, 3]],
            uses: &[0, 3, 2, 2, 2],
            ..DIAMOND
        },
        valid: false,
    },
    Case {
        name: "no old slot is kept",
        numbers: Numbers {
            uses: &[2, 3, 2, 2, 2],
            kept: &[true, false, false, false, true],
            ..DIAMOND
        },
        valid: false,
    },
    Case {
        name: "uses count what is kept",
        numbers: Numbers {
            uses: &[1, 3, 2, 2, 1],
            ..DIAMOND
        },
        valid: false,
    },
    Case {
        name: "no follower is missing",
        numbers: Numbers {
            successors: &[&[1], &[3], &[3], &[]],
            ..DIAMOND
        },
        valid: false,
    },
    Case {
        name: "no successor is made up",
        numbers: Numbers {
            successors: &[&[1, 2, 3], &[3], &[3], &[]],
            ..DIAMOND
        },
        valid: false,
    },
    Case {
        name: "predecessors are counted",
        numbers: Numbers {
            predecessors: &[0, 1, 1, 1],
            ..DIAMOND
        },
        valid: false,
    },
    Case {
        name: "no successor stands before its task, as in the diamond with its tasks in the opposite order",
        numbers: Numbers {
            reads: &[&[2, 3], &[1], &[1], &[0]],
            writes: &[&[4], &[3], &[2], &[1]],
            successors: &[&[], &[0], &[0], &[1, 2]],
            predecessors: &[2, 1, 1, 0],
            ..DIAMOND
        },
        valid: false,
    },
    Case {
        name: "no task follows itself",
        numbers: Numbers {
            reads: &[&[0], &[1], &[1], &[2, 3, 4]],
            successors: &[&[1, 2], &[3], &[3], &[3]],
            predecessors: &[0, 1, 1, 3],
            uses: &[1, 3, 2, 2, 3],
            ..DIAMOND
        },
        valid: false,
    },
    Case {
        name: "no slot is without a mark of being kept",
        numbers: Numbers {
            kept: &[false, false, false, false],
            ..DIAMOND
        },
        valid: false,
    },
];

fn is_valid(alloc: Global, n: Numbers) -> Result<bool, Fail> {
    let g = graph(alloc, n)?;
    Ok(valid(alloc, &g)?)
}

#[test]
fn graphs_are_told_apart(rt: HostRuntime) -> Result<(), Fail> {
    for case in &CASES {
        assert_eq!(rt;
            is_valid(rt.alloc(), case.numbers)?,
            case.valid,
            "{}",
            case.name
        );
    }
    Ok(())
}
