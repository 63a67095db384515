//! Problems that some text spells, and problems that none does.
use problem_file::parse;
use problem_printable::is_printable;
use problem_types::{Expr, Name, Problem};
use sqlite_items::{Boxed, Items};
use std::alloc::Global;
use std::test::Fail;

// The names are `u`, `start` and `shift`, and the statements stand on the lines from 1 to 18.
const TEXT: &str = "problem 1
steps 3
dump 1
ghost 2
materials 1
level ratio 1
box 0 0 0 4 2 1
patch 0 0 0 4 2 1
var u cell outside -7
init
task start levels 0 materials 0
computes u = 9
timestep
task shift levels 0 materials 0
requires old u cells 2
computes u = old.u[-1,0,2] + 5
keep u
end
";

fn problem(alloc: Global) -> Result<Problem, Fail> {
    Ok(parse(alloc, TEXT.as_bytes())?)
}

// Whether the last name may be this one.
fn takes_name(alloc: Global, name: &[u8]) -> Result<bool, Fail> {
    let mut p = problem(alloc)?;
    p.names.pop();
    p.names.push(Name::new(alloc, name)?)?;
    Ok(is_printable(alloc, &p)?)
}

#[test]
fn what_a_text_spells_can_be_printed(rt: HostRuntime) -> Result<(), Fail> {
    let p = problem(rt.alloc())?;
    assert!(rt; is_printable(rt.alloc(), &p)?);
    Ok(())
}

#[test]
fn each_name_is_a_word_of_its_own(rt: HostRuntime) -> Result<(), Fail> {
    let alloc = rt.alloc();
    assert!(rt; takes_name(alloc, b"A_9")?);
    assert!(rt; takes_name(alloc, &[b'w'; 32])?);
    assert!(rt; !takes_name(alloc, &[b'w'; 33])?);
    assert!(rt; !takes_name(alloc, b"fine_sum")?);
    assert!(rt; !takes_name(alloc, b"start")?);
    assert!(rt; !takes_name(alloc, b"9a")?);
    assert!(rt; !takes_name(alloc, b"")?);
    Ok(())
}

// Whether the problem may have a name more.
fn takes_more_names(alloc: Global) -> Result<bool, Fail> {
    let mut p = problem(alloc)?;
    p.names.push(Name::new(alloc, b"more")?)?;
    Ok(is_printable(alloc, &p)?)
}

// Whether the variable may have the name with this number.
fn takes_variable(alloc: Global, name: u32) -> Result<bool, Fail> {
    let mut p = problem(alloc)?;
    if let Some(mut var) = p.vars.pop() {
        var.name = name;
        p.vars.push(var)?;
    }
    Ok(is_printable(alloc, &p)?)
}

#[test]
fn names_stand_in_the_order_of_their_first_appearance(rt: HostRuntime) -> Result<(), Fail> {
    assert!(rt; !takes_more_names(rt.alloc())?);
    assert!(rt; takes_variable(rt.alloc(), 0)?);
    assert!(rt; !takes_variable(rt.alloc(), 1)?);
    Ok(())
}

// Whether the first and the last statement may stand on these lines.
fn takes_lines(alloc: Global, first: u32, last: u32) -> Result<bool, Fail> {
    let mut p = problem(alloc)?;
    p.version.line = first;
    p.end_line = last;
    Ok(is_printable(alloc, &p)?)
}

#[test]
fn lines_ascend_from_1(rt: HostRuntime) -> Result<(), Fail> {
    assert!(rt; takes_lines(rt.alloc(), 1, 4_000_000_000)?);
    assert!(rt; !takes_lines(rt.alloc(), 1, 17)?);
    assert!(rt; !takes_lines(rt.alloc(), 0, 18)?);
    Ok(())
}

// Whether the first task may run on these levels.
fn takes_levels(alloc: Global, levels: &[u64]) -> Result<bool, Fail> {
    let mut p = problem(alloc)?;
    if let Some(mut task) = p.init.pop() {
        task.levels = Items::from_slice(alloc, levels)?;
        p.init.push(task)?;
    }
    Ok(is_printable(alloc, &p)?)
}

#[test]
fn a_task_runs_on_levels_that_ascend(rt: HostRuntime) -> Result<(), Fail> {
    assert!(rt; takes_levels(rt.alloc(), &[0, 3])?);
    assert!(rt; !takes_levels(rt.alloc(), &[0, 0])?);
    assert!(rt; !takes_levels(rt.alloc(), &[])?);
    Ok(())
}

// Whether a level may have no patches.
fn takes_no_patches(alloc: Global) -> Result<bool, Fail> {
    let mut p = problem(alloc)?;
    if let Some(mut level) = p.levels.pop() {
        level.patches = Items::new(alloc);
        p.levels.push(level)?;
    }
    Ok(is_printable(alloc, &p)?)
}

#[test]
fn a_level_has_a_patch(rt: HostRuntime) -> Result<(), Fail> {
    assert!(rt; !takes_no_patches(rt.alloc())?);
    Ok(())
}

// Whether the kernel of the first task may be the number of the step with so many minus signs before it.
fn takes_minus_signs(alloc: Global, count: u32) -> Result<bool, Fail> {
    let mut p = problem(alloc)?;
    let mut kernel = Expr::Step;
    for _so_far in 0..count {
        kernel = Expr::Neg(Boxed::new(alloc, kernel)?);
    }
    if let Some(mut task) = p.init.pop() {
        if let Some(mut write) = task.writes.pop() {
            write.expr = kernel;
            task.writes.push(write)?;
        }
        p.init.push(task)?;
    }
    Ok(is_printable(alloc, &p)?)
}

#[test]
fn an_expression_is_at_most_64_deep(rt: HostRuntime) -> Result<(), Fail> {
    assert!(rt; takes_minus_signs(rt.alloc(), 63)?);
    assert!(rt; !takes_minus_signs(rt.alloc(), 64)?);
    Ok(())
}
