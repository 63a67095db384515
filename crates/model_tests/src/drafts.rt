//! Problems built by hand.
use problem_types::{
    BoxLine, Centring, Expr, Fold, Ghost, GhostKind, How, Keep, Level, Name, NoMemory, Num, Op,
    Problem, Read, Reduction, Require, Store, Task, Var, What, Write, WriteKind, in_form,
};
use sqlite_items::{Boxed, Items};
use std::alloc::Global;
use std::test::Fail;
use task_check::{Checked, check};

// The names, by their places.
pub(crate) const U: u32 = 0;

pub(crate) const V: u32 = 1;

pub(crate) const W: u32 = 2;

pub(crate) const LOW: u32 = 3;

pub(crate) const FIRST: u32 = 4;

pub(crate) const SECOND: u32 = 5;

pub(crate) const THIRD: u32 = 6;

pub(crate) const FOURTH: u32 = 7;

/// The names of a problem, each of one letter.
fn push_names(alloc: Global, names: &mut Items<Name>) -> Result<(), NoMemory> {
    for letter in [b"u", b"v", b"w", b"l", b"a", b"b", b"c", b"d"] {
        names.push(Name::new(alloc, letter)?)?;
    }
    Ok(())
}

/// A problem in the making. Each statement stands on the line behind the one before.
#[derive(Drop)]
pub(crate) struct Draft {
    pub(crate) alloc: Global,
    line: u32,
    problem: Problem,
    /// The tasks of the list at hand.
    tasks: Items<Task>,
}

pub(crate) fn num(line: u32, value: u64) -> Num {
    Num { line, value }
}

/// A draft of so many steps and materials, without levels.
pub(crate) fn new_draft(alloc: Global, steps: u64, dump: u64, materials: u64) -> Draft {
    let problem = Problem {
        names: Items::new(alloc),
        version: num(1, 1),
        steps: num(2, steps),
        dump: num(3, dump),
        ghost_limit: num(4, 1),
        materials: num(5, materials),
        levels: Items::new(alloc),
        vars: Items::new(alloc),
        reductions: Items::new(alloc),
        init_line: 0,
        init: Items::new(alloc),
        timestep_line: 0,
        timestep: Items::new(alloc),
        keeps: Items::new(alloc),
        end_line: 0,
    };
    Draft {
        alloc,
        line: 5,
        problem,
        tasks: Items::new(alloc),
    }
}

impl Draft {
    fn next_line(&mut self) -> u32 {
        self.line = self.line.saturating_add(1);
        self.line
    }

    fn cells(&mut self, lo: [u64; 3], hi: [u64; 3]) -> BoxLine {
        BoxLine {
            line: self.next_line(),
            lo,
            hi,
        }
    }

    /// Up to so many ghost layers.
    pub(crate) fn ghost_limit(&mut self, layers: u64) {
        self.problem.ghost_limit = num(4, layers);
    }

    /// A level of two patches, of which the second begins here along x.
    pub(crate) fn level(
        &mut self,
        ratio: u64,
        lo: [u64; 3],
        second: u64,
        hi: [u64; 3],
    ) -> Result<(), NoMemory> {
        let line = self.next_line();
        let whole = self.cells(lo, hi);
        let left = self.cells(lo, [second, hi[1], hi[2]]);
        let right = self.cells([second, lo[1], lo[2]], hi);
        self.problem.levels.push(Level {
            line,
            ratio,
            boxes: Items::from_slice(self.alloc, &[whole])?,
            patches: Items::from_slice(self.alloc, &[left, right])?,
        })?;
        Ok(())
    }

    pub(crate) fn variable(
        &mut self,
        name: u32,
        centring: Centring,
        outside: i64,
    ) -> Result<(), NoMemory> {
        let line = self.next_line();
        self.problem.vars.push(Var {
            line,
            name,
            centring,
            outside,
        })?;
        Ok(())
    }

    pub(crate) fn reduction(&mut self, name: u32, fold: Fold) -> Result<(), NoMemory> {
        let line = self.next_line();
        self.problem
            .reductions
            .push(Reduction { line, name, fold })?;
        Ok(())
    }

    pub(crate) fn keep(&mut self, name: u32) -> Result<(), NoMemory> {
        let line = self.next_line();
        self.problem.keeps.push(Keep { line, name })?;
        Ok(())
    }

    /// A task on these levels and materials, which follow those before it.
    pub(crate) fn task(
        &mut self,
        name: u32,
        levels: &[u64],
        materials: &[u64],
    ) -> Result<(), NoMemory> {
        let line = self.next_line();
        self.tasks.push(Task {
            line,
            name,
            levels: Items::from_slice(self.alloc, levels)?,
            materials: Items::from_slice(self.alloc, materials)?,
            requirements: Items::new(self.alloc),
            writes: Items::new(self.alloc),
        })?;
        Ok(())
    }

    /// One more requirement of the last task.
    pub(crate) fn require(&mut self, store: Store, what: What) -> Result<(), NoMemory> {
        let line = self.next_line();
        if let Some(mut task) = self.tasks.pop() {
            task.requirements.push(Require { line, store, what })?;
            self.tasks.push(task)?;
        }
        Ok(())
    }

    /// One more line that the last task writes.
    pub(crate) fn write(&mut self, kind: WriteKind, name: u32, expr: Expr) -> Result<(), NoMemory> {
        let line = self.next_line();
        if let Some(mut task) = self.tasks.pop() {
            task.writes.push(Write {
                line,
                kind,
                name,
                expr,
            })?;
            self.tasks.push(task)?;
        }
        Ok(())
    }

    pub(crate) fn compute(&mut self, name: u32, expr: Expr) -> Result<(), NoMemory> {
        self.write(WriteKind::Computes, name, expr)
    }

    pub(crate) fn reduce(&mut self, name: u32, expr: Expr) -> Result<(), NoMemory> {
        self.write(WriteKind::Reduces(Centring::Cell), name, expr)
    }

    /// From here on the tasks are those of the init list.
    pub(crate) fn init(&mut self) {
        self.problem.init_line = self.next_line();
    }

    /// From here on the tasks are those of the timestep list.
    pub(crate) fn timestep(&mut self) {
        self.problem.timestep_line = self.next_line();
        self.problem.init = std::mem::replace(&mut self.tasks, Items::new(self.alloc));
    }

    /// The problem, which has no fault.
    pub(crate) fn checked(mut self) -> Result<Checked, Fail> {
        push_names(self.alloc, &mut self.problem.names)?;
        self.problem.end_line = self.next_line();
        let Draft {
            mut problem,
            tasks,
            ..
        } = self;
        problem.timestep = tasks;
        accepted(problem)
    }
}

/// The problem, which has no fault.
pub(crate) fn accepted(problem: Problem) -> Result<Checked, Fail> {
    if !in_form(&problem) {
        return Err("not in form".into());
    }
    match check(problem) {
        Ok(checked) => Ok(checked),
        Err(_) => Err("refused".into()),
    }
}

/// The variable on the own level, with so many layers of ghost cells.
pub(crate) fn same(var: u32, n: u64) -> What {
    let kind = if n == 0 {
        GhostKind::None
    } else {
        GhostKind::Cells
    };
    What::Same {
        var,
        layers: Ghost { kind, n },
    }
}

pub(crate) fn read(store: Store, how: How, name: u32, x: i64) -> Expr {
    Expr::Read(Read {
        store,
        how,
        name,
        offset: [x, 0, 0],
    })
}

/// What the tasks before left in `u`, so far away along x.
pub(crate) fn new_u(x: i64) -> Expr {
    read(Store::New, How::Same, U, x)
}

pub(crate) fn binary(alloc: Global, op: Op, a: Expr, b: Expr) -> Result<Expr, NoMemory> {
    Ok(Expr::Binary(op, Boxed::new(alloc, a)?, Boxed::new(alloc, b)?))
}

/// So many times the number.
pub(crate) fn times(alloc: Global, factor: i64, a: Expr) -> Result<Expr, NoMemory> {
    binary(alloc, Op::Mul, Expr::Literal(factor), a)
}
