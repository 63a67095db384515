//! Names of a problem with a variable 3 and a reduction 5, and of a rule over a list of names.
ghost use Rattle.std.specs.Prelude.{◌≡◌, Contains};
ghost use Rattle.kernel_ast.specs.declared.expression.Store.TheVariants.{Old};

use problem_types::{
    Centring, Expr, Fold, Ghost, GhostKind, How, NoMemory, Num, Op, Problem, Read, Reduction,
    Require, Store, Var, What, Write, WriteKind,
};
use sqlite_items::{Boxed, Items};
use std::alloc::Global;
use std::test::Fail;
use task_rules::{
    ReadRule, allows_all, are_names_known, is_known, is_reduction, is_repeated, is_variable,
    wants_missing_level,
};

fn problem(alloc: Global) -> Result<Problem, NoMemory> {
    let num = Num { line: 1, value: 1 };
    let var = Var {
        line: 4,
        name: 3,
        centring: Centring::Cell,
        outside: 0,
    };
    let reduction = Reduction {
        line: 5,
        name: 5,
        fold: Fold::Max,
    };
    Ok(Problem {
        names: Items::new(alloc),
        version: num,
        steps: num,
        dump: num,
        ghost_limit: num,
        materials: num,
        levels: Items::new(alloc),
        vars: Items::from_slice(alloc, &[var])?,
        reductions: Items::from_slice(alloc, &[reduction])?,
        init_line: 10,
        init: Items::new(alloc),
        timestep_line: 11,
        timestep: Items::new(alloc),
        keeps: Items::new(alloc),
        end_line: 12,
    })
}

fn read(name: u32) -> Expr {
    Expr::Read(Read {
        store: Store::Old,
        how: How::Same,
        name,
        offset: [0, 0, 0],
    })
}

fn number(store: Store, name: u32) -> Expr {
    Expr::Number { store, name }
}

fn negated(alloc: Global, a: Expr) -> Result<Expr, NoMemory> {
    Ok(Expr::Neg(Boxed::new(alloc, a)?))
}

fn added(alloc: Global, a: Expr, b: Expr) -> Result<Expr, NoMemory> {
    let b = Boxed::new(alloc, b)?;
    Ok(Expr::Binary(Op::Add, Boxed::new(alloc, a)?, b))
}

fn selected(alloc: Global, c: Expr, a: Expr, b: Expr) -> Result<Expr, NoMemory> {
    let b = Boxed::new(alloc, b)?;
    let a = Boxed::new(alloc, a)?;
    Ok(Expr::Select(Boxed::new(alloc, c)?, a, b))
}

fn line(alloc: Global, kind: WriteKind, name: u32, parts: [u32; 3]) -> Result<Write, NoMemory> {
    let condition = negated(alloc, read(parts[0]))?;
    let second = added(alloc, Expr::X, read(parts[2]))?;
    let expr = selected(alloc, condition, number(Store::New, parts[1]), second)?;
    Ok(Write {
        line: 20,
        kind,
        name,
        expr,
    })
}

fn same(var: u32, n: u64) -> What {
    let kind = GhostKind::Cells;
    What::Same {
        var,
        layers: Ghost { kind, n },
    }
}

fn coarse(var: u32) -> What {
    let kind = GhostKind::None;
    What::Coarse {
        var,
        layers: Ghost { kind, n: 0 },
    }
}

#[test]
fn names_are_known_as_what_they_are(rt: HostRuntime) -> Result<(), Fail> {
    let p = problem(rt.alloc())?;
    for (name, variable, reduction) in [(3, true, false), (4, false, false), (5, false, true)] {
        assert_eq!(rt; is_variable(&p, name), variable);
        assert_eq!(rt; is_reduction(&p, name), reduction);
    }
    for (what, want) in [
        (same(3, 1), true),
        (coarse(5), false),
        (What::Fine { var: 3 }, true),
        (What::Fine { var: 4 }, false),
        (What::Number { name: 5 }, true),
        (What::Number { name: 3 }, false),
    ] {
        assert_eq!(rt; is_known(&p, what), want);
    }
    Ok(())
}

#[test]
fn each_part_of_a_line_is_looked_at(rt: HostRuntime) -> Result<(), Fail> {
    let alloc = rt.alloc();
    let p = problem(alloc)?;
    for (kind, name, parts, want) in [
        (WriteKind::Computes, 3, [3, 5, 3], true),
        (WriteKind::Modifies, 5, [3, 5, 3], false),
        (WriteKind::Reduces(Centring::Node), 5, [3, 5, 3], true),
        (WriteKind::Reduces(Centring::Node), 3, [3, 5, 3], false),
        (WriteKind::Computes, 3, [4, 5, 3], false),
        (WriteKind::Computes, 3, [3, 3, 3], false),
        (WriteKind::Computes, 3, [3, 5, 5], false),
    ] {
        let write = line(alloc, kind, name, parts)?;
        assert_eq!(rt; are_names_known(&p, &write), want);
    }
    Ok(())
}

#[test]
fn ghost_data_make_no_other_requirement(rt: HostRuntime) -> Result<(), Fail> {
    let line = 30;
    let (store, what) = (Store::Old, same(3, 1));
    let before = [
        Require {
            line,
            store: Store::New,
            what: What::Number { name: 5 },
        },
        Require { line, store, what },
    ];
    for (store, what, want) in [
        (Store::Old, same(3, 2), true),
        (Store::New, same(3, 1), false),
        (Store::Old, same(4, 1), false),
        (Store::Old, coarse(3), false),
        (Store::New, What::Number { name: 5 }, true),
    ] {
        assert_eq!(rt; is_repeated(&before, Require { line, store, what }), want);
    }
    Ok(())
}

#[test]
fn the_ends_of_the_levels_are_missing(rt: HostRuntime) -> Result<(), Fail> {
    let fine = What::Fine { var: 3 };
    for (count, levels, what, want) in [
        (3, [1, 0], coarse(3), true),
        (3, [2, 1], coarse(3), false),
        (3, [0, 2], fine, true),
        (3, [0, 1], fine, false),
        (usize::MAX, [0, u64::MAX], fine, true),
        (3, [0, 2], same(3, 1), false),
        (3, [0, 2], What::Number { name: 5 }, false),
    ] {
        assert_eq!(rt; wants_missing_level(count, &levels, what), want);
    }
    Ok(())
}

/// Reads of these variables, and of reductions of the step before.
#[derive(Drop)]
struct Listed<'a> {
    names: &'a [u32],
}

impl ReadRule for Listed<'_> {
    ghost allows = { λ rule r. Contains rule.names.now r.name };

    ghost allows_number = { λ rule store name. store ≡ Old };

    fn allows(&self, read: &Read) -> bool {
        self.names.contains(&read.name)
    }

    fn allows_number(&self, store: Store, _: u32) -> bool {
        store == Store::Old
    }
}

#[test]
fn a_rule_of_ones_own(rt: HostRuntime) -> Result<(), Fail> {
    let alloc = rt.alloc();
    let rule = Listed { names: &[4, 8] };
    for (name, store, want) in [
        (8, Store::Old, true),
        (3, Store::Old, false),
        (4, Store::New, false),
    ] {
        let e = added(alloc, read(name), number(store, 3))?;
        assert_eq!(rt; allows_all(&rule, &e), want);
    }
    Ok(())
}
