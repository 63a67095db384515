//! What detailed tasks see of variables, along x.
use crate::problems::WINDOWS;
use crate::runs::step_plan;
use graph_tests::checked;
use graph_types::NoMemory;
use kernel_eval::Part;
use run_task::{StepJob, Work};
use std::alloc::Global;
use std::test::Fail;
use task_check::Checked;
use unified_scheduler::Job;

/// From where to where the windows reach along x.
fn reaches(alloc: Global, parts: &[Part]) -> Result<Vec<[i64; 2]>, NoMemory> {
    let mut all = Vec::new(alloc);
    for part in parts {
        let span = part.window.span();
        if all.push([span.lo.x, span.hi.x]).is_err() {
            return Err(NoMemory);
        }
    }
    Ok(all)
}

/// The same of the second detailed task of step 1, before it has gathered anything.
fn second_windows(alloc: Global, c: &Checked) -> Result<Vec<[i64; 2]>, NoMemory> {
    let Some(plan) = step_plan(alloc, c, 1)? else {
        return Ok(Vec::new(alloc));
    };
    if plan.graph.tasks < 2 {
        return Ok(Vec::new(alloc));
    }
    match StepJob::make(alloc, c, &plan, 1)?.begin(1)? {
        Work::Patch(work) => reaches(alloc, work.windows.parts.as_slice()),
        Work::Combining(_) => Ok(Vec::new(alloc)),
    }
}

#[test]
fn windows_reach_as_far_as_their_layers(rt: HostRuntime) -> Result<(), Fail> {
    let c = checked(rt.alloc(), WINDOWS)?;
    let found = second_windows(rt.alloc(), &c)?;
    // Two layers of cells around cells, around nodes, two of nodes around nodes, and none.
    let want = [[2, 10], [3, 10], [2, 11], [4, 9]];
    assert_eq!(rt; found.as_slice(), want.as_slice());
    Ok(())
}
