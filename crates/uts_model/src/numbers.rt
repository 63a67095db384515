//! The numbers of variables, expressions and reductions, by recursion over the tasks before.
ghost use Rattle.std.specs.Prelude.{◌≡◌, ◌≤◌, fold};
ghost use Rattle.kernel_ast.specs.Size.{depth_of};
ghost use Rattle.kernel_ast.specs.Value.{value_of};
ghost use Rattle.reductions.specs.Folding.{combined, all_combined};
ghost use Rattle.uts_model.specs.Evaluable.{IsEvaluable};
ghost use Rattle.uts_model.specs.Folds.{numbers_of_children, numbers_on, numbers_for, all_numbers, IsReducing};
ghost use Rattle.uts_model.specs.Moments.{state_of, environment_at, IsMoment, IsPlace};

use crate::grid::{child_count, children, index_at, is_in_space, space};
use crate::lookups::{field_kernel, reduced_centring};
use crate::moments::{Moment, Place, Site, above, below, beside, moment_of, task_at};
use crate::operations::{apply, is_zero};
use problem_lookup::{centring_of, fold_of, outside_of, reduction_write};
use problem_types::{Expr, Fold, How, Problem, Read, Store, Task, Write};
use reductions::{combine, identity, wsub};
use uts_geom::volume;

/// A line that reduces, of a task that stands after so many tasks of a step's list.
#[derive(Clone, Copy)]
struct Reducing<'a> {
    problem: &'a Problem,
    step: u32,
    tasks: usize,
    task: &'a Task,
    write: &'a Write,
}

/// The number of a variable at a moment and a site.
#[cycle(numbers)]
pub(crate) fn field(problem: &Problem, moment: Moment, name: u32, site: Site) -> i64
    requires evaluable { IsEvaluable problem.now }
    requires moment { IsMoment problem.now moment }
    ensures { result ≡ (state_of problem.now moment).field name site.material site.level site.index }
{
    let Moment::InStep { step, tasks } = moment else {
        return 0;
    };
    if tasks == 0 {
        return outside_of(problem, name);
    }
    if !is_in_space(problem, site.level, centring_of(problem, name), site.index) {
        return outside_of(problem, name);
    }
    let earlier = tasks - 1;
    match field_kernel(task_at(problem, step, earlier), name, &site) {
        Some(kernel) => value(
            kernel,
            &Place {
                problem,
                step,
                tasks: earlier,
                site,
            },
        ),
        None => field(
            problem,
            Moment::InStep {
                step,
                tasks: earlier,
            },
            name,
            site,
        ),
    }
}

/// The number of an expression of a kernel.
#[cycle(numbers)]
#[tactic(auto, using(kernel_ast::specs::Value::numbers_of_forms, kernel_ast::specs::Size::depths_of_forms))]
fn value(e: &Expr, place: &Place) -> i64
    requires place { IsPlace place.now }
    requires shallow { depth_of e.now ≤ 64 }
    ensures { result ≡ value_of e.now (environment_at place.now) }
{
    match e {
        Expr::Literal(n) => *n,
        Expr::X => place.site.index.x,
        Expr::Y => place.site.index.y,
        Expr::Z => place.site.index.z,
        Expr::Level => i64::from(place.site.level),
        Expr::Material => i64::from(place.site.material),
        Expr::Step => i64::from(place.step),
        Expr::Read(r) => read(r, place),
        Expr::Number { store, name } => reduction(place.problem, moment_of(place, *store), *name),
        Expr::Neg(a) => wsub(0, value(a.get(), place)),
        Expr::Binary(op, a, b) => apply(*op, value(a.get(), place), value(b.get(), place)),
        Expr::Select(c, a, b) => {
            if is_zero(value(c.get(), place)) {
                value(b.get(), place)
            } else {
                value(a.get(), place)
            }
        }
    }
}

/// The number of a read of a variable.
#[cycle(numbers)]
fn read(r: &Read, place: &Place) -> i64
    requires { IsPlace place.now }
    ensures { result ≡ (environment_at place.now).read r.now }
{
    let moment = moment_of(place, r.store);
    match r.how {
        How::Same => field(place.problem, moment, r.name, beside(place, r.offset)),
        How::Coarse => field(place.problem, moment, r.name, below(place, r.offset)),
        How::FineSum => over_children(r, place, Fold::Sum),
        How::FineMin => over_children(r, place, Fold::Min),
        How::FineMax => over_children(r, place, Fold::Max),
        How::FineCount => child_count(
            place.problem,
            place.site.level,
            centring_of(place.problem, r.name),
            place.site.index,
        ),
    }
}

/// The numbers of a variable at the children of a kernel's index, combined.
#[cycle(numbers)]
fn over_children(r: &Read, place: &Place, f: Fold) -> i64
    requires { IsPlace place.now }
    ensures { result ≡ all_combined f (numbers_of_children place.now r.now) }
{
    let span = children(
        place.problem,
        place.site.level,
        centring_of(place.problem, r.name),
        place.site.index,
    );
    let moment = moment_of(place, r.store);
    let mut total = identity(f);
    for k in 0..volume(span) {
        let site = above(place, index_at(span, k));
        total = combine(f, total, field(place.problem, moment, r.name, site));
    }
    total
}

/// The number of a reduction at a moment.
#[cycle(numbers)]
pub(crate) fn reduction(problem: &Problem, moment: Moment, name: u32) -> i64
    requires evaluable { IsEvaluable problem.now }
    requires moment { IsMoment problem.now moment }
    ensures { result ≡ (state_of problem.now moment).reduction name }
{
    let Moment::InStep { step, tasks } = moment else {
        return 0;
    };
    if tasks == 0 {
        return 0;
    }
    let earlier = tasks - 1;
    let task = task_at(problem, step, earlier);
    match reduction_write(task, name) {
        Some(write) => over_levels(
            &Reducing {
                problem,
                step,
                tasks: earlier,
                task,
                write,
            },
            fold_of(problem, name),
        ),
        None => reduction(
            problem,
            Moment::InStep {
                step,
                tasks: earlier,
            },
            name,
        ),
    }
}

/// The numbers of a reducing line on all levels of its task, combined.
#[cycle(numbers)]
fn over_levels(line: &Reducing, f: Fold) -> i64
    requires { IsReducing line.now }
    ensures { result ≡ all_combined f (all_numbers line.now) }
{
    let mut total = identity(f);
    for level in line.task.levels.as_slice() {
        total = over_materials(line, f, total, *level as u32);
    }
    total
}

/// The numbers of a reducing line on a level, combined with those before.
#[cycle(numbers)]
fn over_materials(line: &Reducing, f: Fold, before: i64, level: u32) -> i64
    requires { IsReducing line.now }
    ensures { result ≡ fold (combined f) before (numbers_for line.now level) }
{
    let mut total = before;
    for material in line.task.materials.as_slice() {
        total = over_indexes(line, f, total, level, *material as u32);
    }
    total
}

/// The numbers of a reducing line on a level for a material, combined with those before.
#[cycle(numbers)]
fn over_indexes(line: &Reducing, f: Fold, before: i64, level: u32, material: u32) -> i64
    requires { IsReducing line.now }
    ensures { result ≡ fold (combined f) before (numbers_on line.now level material) }
{
    let span = space(
        line.problem,
        level as usize,
        reduced_centring(line.write.kind),
    );
    let mut total = before;
    for k in 0..volume(span) {
        let place = Place {
            problem: line.problem,
            step: line.step,
            tasks: line.tasks,
            site: Site {
                material,
                level,
                index: index_at(span, k),
            },
        };
        total = combine(f, total, value(&line.write.expr, &place));
    }
    total
}
