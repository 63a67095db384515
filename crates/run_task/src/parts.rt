//! What a detailed task sees, none of it gathered yet.
ghost use Rattle.std.specs.Prelude.{◌≡◌, ◌+◌, ◌<◌, ◌≤◌, ◌^◌, ◌++◌, ◌∷◌, [], List, false, not, pos, Contains, IfOk, OnOk, Some, filter, length, slice_get};
ghost use Rattle.problem_types.specs.Lists.{centring_of, outside_of};
ghost use Rattle.problem_types.specs.Regions.{ratio_of, spaces_of};
ghost use Rattle.problem_types.specs.declared.problem.Level.{Level};
ghost use Rattle.problem_types.specs.declared.problem.Problem.{Problem};
ghost use Rattle.problem_types.specs.declared.problem.Require.{Require};
ghost use Rattle.task_rules.specs.Lines.{wanted_level, wanted_name};
ghost use Rattle.task_check.specs.Plan.{is_of_number, wanted_window};
ghost use Rattle.run_task.specs.Gathered.{AreGiven, AreParts, IsPartOf, form_of, numbers_required, ratio_wanted, variables_required};
ghost use Rattle.run_task.specs.Sites.{IsSiteOf};
ghost use Rattle.run_task.specs.declared.work.Site.{Site as TaskSite};

use crate::job::StepJob;
use crate::pushing::put;
use crate::work::Site;
use ghost_gather::Window;
use graph_types::NoMemory;
use kernel_eval::{Given, Part};
use patch_regions::index_space;
use problem_lookup::{centring_of, outside_of};
use problem_types::{How, Require, Task, What};
use std::alloc::Global;
use task_check::{
    Checked, accepted_problems_are_bounded, bounds, level_at, wanted_level, wanted_window,
};
use task_rules::wanted_name;
use uts_model::ratio_on;

/// Whether a reduction is required.
fn is_of_number(what: What) -> bool
    ensures { result ≡ is_of_number what }
{
    match what {
        What::Same { .. } | What::Coarse { .. } | What::Fine { .. } => false,
        What::Number { .. } => true,
    }
}

/// The form of part that a requirement of a variable fills.
fn form_of(what: What) -> How
    ensures { result ≡ form_of what }
{
    match what {
        What::Same { .. } | What::Number { .. } => How::Same,
        What::Coarse { .. } => How::Coarse,
        What::Fine { .. } => How::FineSum,
    }
}

/// The refinement ratio of a level to the next coarser one, signed as coordinates are.
fn signed_ratio(c: &Checked, level: u32) -> i64
    ensures { result ≡ pos (ratio_of c.now level) }
{
    ratio_on(c, level as usize) as i64
}

/// The ratio between the level of a task and the one that is wanted, 1 on one level.
fn ratio_wanted(c: &Checked, what: What, level: u32) -> i64
    requires here { level < length c.now.levels }
    requires wanted { wanted_level what level < length c.now.levels }
    ensures { result ≡ pos (ratio_wanted c.now what level) }
{
    bounds(c);
    match what {
        What::Same { .. } | What::Number { .. } => 1,
        What::Coarse { .. } => signed_ratio(c, level),
        What::Fine { .. } => signed_ratio(c, level + 1),
    }
}

/// The window of a requirement of a variable around the patch, all of it outside so far.
fn window_for(job: &StepJob, site: Site, task: &Task, require: Require) -> Result<Window, NoMemory>
    requires site { IsSiteOf job.now site task.now }
    requires required { Contains task.now.requirements require }
    requires variable { is_of_number require.what ≡ false }
    ensures span { IfOk result (λ window. (l : Level) → slice_get job.now.checked.now.levels site.level ≡ Some l →
        window.span ≡ wanted_window job.now.checked.now task.now require.store require.what site.level l site.patch) }
    ensures space { IfOk result (λ window. spaces_of job.now.checked.now (wanted_level require.what site.level) (centring_of job.now.checked.now (wanted_name require.what))
        ≡ window.space ∷ []) }
    ensures outside { IfOk result (λ window. window.outside ≡ outside_of job.now.checked.now (wanted_name require.what)) }
{
    accepted_problems_are_bounded();
    let p = job.checked.problem();
    let name = wanted_name(require.what);
    let level = u64::from(site.level);
    let span = wanted_window(p, task, require, level, site.patch);
    let wanted = level_at(p, wanted_level(require.what, level));
    let space = index_space(wanted, centring_of(p, name));
    match Window::make(job.alloc, span, space, outside_of(p, name)) {
        Ok(window) => Ok(window),
        Err(_) => Err(NoMemory),
    }
}

/// What a detailed task sees of a variable that it requires.
fn part_for(job: &StepJob, site: Site, task: &Task, require: Require) -> Result<Part, NoMemory>
    requires site { IsSiteOf job.now site task.now }
    requires required { Contains task.now.requirements require }
    requires variable { is_of_number require.what ≡ false }
    ensures { IfOk result (λ part. IsPartOf job.now.checked.now task.now site require part) }
{
    accepted_problems_are_bounded();
    let p = job.checked.problem();
    let name = wanted_name(require.what);
    let ratio = ratio_wanted(job.checked, require.what, site.level);
    let window = window_for(job, site, task, require)?;
    Ok(Part {
        store: require.store,
        how: form_of(require.what),
        name,
        centring: centring_of(p, name),
        ratio,
        window,
    })
}

/// Puts the part of a requirement at the end, if it is of a variable.
fn push_part(
    parts: &mut Vec<Part>,
    job: &StepJob,
    site: Site,
    task: &Task,
    require: Require,
) -> Result<(), NoMemory>
    requires site { IsSiteOf job.now site task.now }
    requires required { Contains task.now.requirements require }
    ensures { OnOk result ((before : List Require) → AreParts job.now.checked.now task.now site [] before parts.old.items →
        AreParts job.now.checked.now task.now site [] (before ++ filter (λ r. not (is_of_number r.what)) (require ∷ [])) parts.new.items) }
{
    if is_of_number(require.what) {
        return Ok(());
    }
    let part = part_for(job, site, task, require)?;
    put(parts, part)?;
    Ok(())
}

/// The parts of all variables that a task requires, in the order of its lines.
pub(crate) fn parts_for(job: &StepJob, site: Site, task: &Task) -> Result<Vec<Part>, NoMemory>
    requires { IsSiteOf job.now site task.now }
    ensures { IfOk result (λ parts. AreParts job.now.checked.now task.now site [] (variables_required task.now) parts.items) }
{
    let mut parts = Vec::new(job.alloc);
    for require in task.requirements.as_slice() {
        push_part(&mut parts, job, site, task, *require)?;
    }
    Ok(parts)
}

/// Puts the number of a requirement at the end, if it is of a reduction.
fn push_number(numbers: &mut Vec<Given>, require: Require) -> Result<(), NoMemory>
    ensures { OnOk result ((p : Problem) (site : TaskSite) (before : List Require) → AreGiven p site [] before numbers.old.items →
        AreGiven p site [] (before ++ filter (λ r. is_of_number r.what) (require ∷ [])) numbers.new.items) }
{
    if !is_of_number(require.what) {
        return Ok(());
    }
    let given = Given {
        store: require.store,
        name: wanted_name(require.what),
        number: 0,
    };
    put(numbers, given)?;
    Ok(())
}

/// The numbers of all reductions that a task requires, in the order of its lines.
pub(crate) fn numbers_for(alloc: Global, task: &Task) -> Result<Vec<Given>, NoMemory>
    ensures { IfOk result (λ numbers. (p : Problem) (site : TaskSite) → AreGiven p site [] (numbers_required task.now) numbers.items) }
{
    let mut numbers = Vec::new(alloc);
    for require in task.requirements.as_slice() {
        push_number(&mut numbers, *require)?;
    }
    Ok(numbers)
}
