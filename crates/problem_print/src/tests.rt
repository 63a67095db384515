//! Printed forms, written out by hand.
use crate::expression::put_expression;
use crate::statements::Line;
use crate::{print, well_formed};
use problem_file::parse;
use problem_types::{
    BoxLine, Centring, Expr, Fold, Ghost, GhostKind, How, Keep, Level, Name, Num, Op, Problem,
    Read, Reduction, Require, Store, Task, Var, What, Write, WriteKind,
};
use sqlite_items::{Boxed, Items};
use std::alloc::Global;
use std::test::Fail;

fn names(alloc: Global) -> Result<Items<Name>, Fail> {
    let mut names = Items::new(alloc);
    for word in [b"u".as_slice(), b"most", b"start", b"go"] {
        names.push(Name::new(alloc, word)?)?;
    }
    Ok(names)
}

fn binary(alloc: Global, op: Op, a: Expr, b: Expr) -> Result<Expr, Fail> {
    Ok(Expr::Binary(op, Boxed::new(alloc, a)?, Boxed::new(alloc, b)?))
}

fn negated(alloc: Global, a: Expr) -> Result<Expr, Fail> {
    Ok(Expr::Neg(Boxed::new(alloc, a)?))
}

fn read(store: Store, how: How, offset: [i64; 3]) -> Expr {
    Expr::Read(Read {
        store,
        how,
        name: 0,
        offset,
    })
}

fn is_printed_as(alloc: Global, e: &Expr, want: &str) -> Result<bool, Fail> {
    let names = names(alloc)?;
    let mut out = Vec::new(alloc);
    put_expression(&mut out, names.as_slice(), e)?;
    Ok(out.as_slice() == want.as_bytes())
}

#[test]
fn an_operation_stands_in_parentheses(rt: HostRuntime) -> Result<(), Fail> {
    let alloc = rt.alloc();
    for (op, want) in [
        (Op::Add, "(x + 10)"),
        (Op::Sub, "(x - 10)"),
        (Op::Mul, "(x * 10)"),
        (Op::Div, "(x / 10)"),
        (Op::Rem, "(x % 10)"),
        (Op::Lt, "(x < 10)"),
        (Op::Le, "(x <= 10)"),
        (Op::Gt, "(x > 10)"),
        (Op::Ge, "(x >= 10)"),
        (Op::Eq, "(x == 10)"),
        (Op::Ne, "(x != 10)"),
        (Op::Min, "min(x, 10)"),
        (Op::Max, "max(x, 10)"),
    ] {
        let e = binary(alloc, op, Expr::X, Expr::Literal(10))?;
        assert!(rt; is_printed_as(alloc, &e, want)?);
    }
    Ok(())
}

#[test]
fn a_minus_stands_at_what_it_negates(rt: HostRuntime) -> Result<(), Fail> {
    let alloc = rt.alloc();
    let twice = negated(alloc, negated(alloc, Expr::Literal(2))?)?;
    let e = binary(alloc, Op::Sub, Expr::Level, twice)?;
    assert!(rt; is_printed_as(alloc, &e, "(level - --2)")?);
    let e = negated(alloc, binary(alloc, Op::Mul, Expr::Y, Expr::Step)?)?;
    assert!(rt; is_printed_as(alloc, &e, "-(y * step)")?);
    Ok(())
}

#[test]
fn a_selection_has_its_three_parts(rt: HostRuntime) -> Result<(), Fail> {
    let alloc = rt.alloc();
    let e = Expr::Select(
        Boxed::new(alloc, binary(alloc, Op::Lt, Expr::Z, Expr::Material)?)?,
        Boxed::new(alloc, Expr::Literal(0))?,
        Boxed::new(
            alloc,
            Expr::Number {
                store: Store::New,
                name: 1,
            },
        )?,
    );
    assert!(rt; is_printed_as(alloc, &e, "select((z < material), 0, new.most)")?);
    Ok(())
}

#[test]
fn each_read_says_where_it_looks(rt: HostRuntime) -> Result<(), Fail> {
    let alloc = rt.alloc();
    for (store, how, offset, want) in [
        (Store::Old, How::Same, [-1, 0, 2], "old.u[-1,0,2]"),
        (Store::New, How::Coarse, [0, -3, 0], "new.coarse.u[0,-3,0]"),
        (Store::Old, How::FineSum, [0, 0, 0], "old.fine_sum.u"),
        (Store::New, How::FineMin, [0, 0, 0], "new.fine_min.u"),
        (Store::New, How::FineMax, [0, 0, 0], "new.fine_max.u"),
        (Store::Old, How::FineCount, [0, 0, 0], "old.fine_count.u"),
    ] {
        assert!(rt; is_printed_as(alloc, &read(store, how, offset), want)?);
    }
    Ok(())
}

fn is_put_as<S: Line>(alloc: Global, statement: &S, want: &str) -> Result<bool, Fail> {
    let names = names(alloc)?;
    let mut out = Vec::new(alloc);
    statement.put(&mut out, names.as_slice())?;
    Ok(out.as_slice() == want.as_bytes())
}

#[test]
fn a_variable_says_where_its_numbers_stand(rt: HostRuntime) -> Result<(), Fail> {
    let alloc = rt.alloc();
    for (centring, outside, want) in [
        (Centring::Cell, 0, "var u cell outside 0"),
        (Centring::Node, 10, "var u node outside 10"),
        (Centring::FaceX, -1, "var u facex outside -1"),
        (
            Centring::FaceY,
            i64::MAX,
            "var u facey outside 9223372036854775807",
        ),
        (
            Centring::FaceZ,
            i64::MIN,
            "var u facez outside -9223372036854775808",
        ),
    ] {
        let var = Var {
            line: 1,
            name: 0,
            centring,
            outside,
        };
        assert!(rt; is_put_as(alloc, &var, want)?);
    }
    Ok(())
}

#[test]
fn a_reduction_says_how_it_folds(rt: HostRuntime) -> Result<(), Fail> {
    let alloc = rt.alloc();
    for (fold, want) in [
        (Fold::Sum, "reduction most sum"),
        (Fold::Min, "reduction most min"),
        (Fold::Max, "reduction most max"),
    ] {
        let reduction = Reduction {
            line: 1,
            name: 1,
            fold,
        };
        assert!(rt; is_put_as(alloc, &reduction, want)?);
    }
    Ok(())
}

#[test]
fn a_requirement_says_which_layers_it_wants(rt: HostRuntime) -> Result<(), Fail> {
    let alloc = rt.alloc();
    for (kind, n, want) in [
        (GhostKind::None, 0, "requires new u none"),
        (GhostKind::Cells, 1, "requires new u cells 1"),
        (GhostKind::Nodes, 2, "requires new u nodes 2"),
        (GhostKind::FaceX, 3, "requires new u facex 3"),
        (GhostKind::FaceY, 4, "requires new u facey 4"),
        (GhostKind::FaceZ, 10, "requires new u facez 10"),
    ] {
        let what = What::Same {
            var: 0,
            layers: Ghost { kind, n },
        };
        let require = Require {
            line: 1,
            store: Store::New,
            what,
        };
        assert!(rt; is_put_as(alloc, &require, want)?);
    }
    Ok(())
}

fn num(line: u32, value: u64) -> Num {
    Num { line, value }
}

fn whole_level(alloc: Global) -> Result<Level, Fail> {
    let mut boxes = Items::new(alloc);
    boxes.push(BoxLine {
        line: 8,
        lo: [0, 1, 2],
        hi: [4, 5, 6],
    })?;
    let mut patches = Items::new(alloc);
    patches.push(BoxLine {
        line: 9,
        lo: [0, 1, 2],
        hi: [4, 3, 6],
    })?;
    patches.push(BoxLine {
        line: 10,
        lo: [0, 3, 2],
        hi: [4, 5, 6],
    })?;
    Ok(Level {
        line: 7,
        ratio: 1,
        boxes,
        patches,
    })
}

fn first_task(alloc: Global) -> Result<Task, Fail> {
    let mut writes = Items::new(alloc);
    writes.push(Write {
        line: 17,
        kind: WriteKind::Computes,
        name: 0,
        expr: Expr::X,
    })?;
    Ok(Task {
        line: 16,
        name: 2,
        levels: Items::from_slice(alloc, &[0])?,
        materials: Items::from_slice(alloc, &[0, 1])?,
        requirements: Items::new(alloc),
        writes,
    })
}

fn requirements(alloc: Global) -> Result<Items<Require>, Fail> {
    let layers = |kind: GhostKind, n: u64| Ghost { kind, n };
    let mut requirements = Items::new(alloc);
    for (line, store, what) in [
        (
            22,
            Store::Old,
            What::Same {
                var: 0,
                layers: layers(GhostKind::Cells, 2),
            },
        ),
        (
            23,
            Store::New,
            What::Coarse {
                var: 0,
                layers: layers(GhostKind::None, 0),
            },
        ),
        (24, Store::New, What::Fine { var: 0 }),
        (25, Store::Old, What::Number { name: 1 }),
    ] {
        requirements.push(Require { line, store, what })?;
    }
    Ok(requirements)
}

fn second_task(alloc: Global) -> Result<Task, Fail> {
    let mut writes = Items::new(alloc);
    let own = read(Store::Old, How::Same, [0, 0, -1]);
    writes.push(Write {
        line: 26,
        kind: WriteKind::Modifies,
        name: 0,
        expr: binary(alloc, Op::Add, own, Expr::Literal(5))?,
    })?;
    writes.push(Write {
        line: 27,
        kind: WriteKind::Reduces(Centring::FaceX),
        name: 1,
        expr: Expr::Z,
    })?;
    Ok(Task {
        line: 21,
        name: 3,
        levels: Items::from_slice(alloc, &[0])?,
        materials: Items::from_slice(alloc, &[1])?,
        requirements: requirements(alloc)?,
        writes,
    })
}

fn problem(alloc: Global) -> Result<Problem, Fail> {
    Ok(Problem {
        names: names(alloc)?,
        version: num(1, 1),
        steps: num(2, 3),
        dump: num(4, 1),
        ghost_limit: num(5, 2),
        materials: num(6, 2),
        levels: one(alloc, whole_level(alloc)?)?,
        vars: one(
            alloc,
            Var {
                line: 12,
                name: 0,
                centring: Centring::Cell,
                outside: -7,
            },
        )?,
        reductions: one(
            alloc,
            Reduction {
                line: 13,
                name: 1,
                fold: Fold::Max,
            },
        )?,
        init_line: 14,
        init: one(alloc, first_task(alloc)?)?,
        timestep_line: 18,
        timestep: one(alloc, second_task(alloc)?)?,
        keeps: one(alloc, Keep { line: 28, name: 1 })?,
        end_line: 30,
    })
}

fn one<T: Drop>(alloc: Global, item: T) -> Result<Items<T>, Fail> {
    let mut items = Items::new(alloc);
    items.push(item)?;
    Ok(items)
}

const WANT: &str = "problem 1
steps 3

dump 1
ghost 2
materials 2
level ratio 1
box 0 1 2 4 5 6
patch 0 1 2 4 3 6
patch 0 3 2 4 5 6

var u cell outside -7
reduction most max
init

task start levels 0 materials 0 1
computes u = x
timestep


task go levels 0 materials 1
requires old u cells 2
requires new coarse u none
requires new fine u
requires old most
modifies u = (old.u[0,0,-1] + 5)
reduces most facex = z
keep most

end
";

#[test]
fn each_statement_stands_on_its_line(rt: HostRuntime) -> Result<(), Fail> {
    let alloc = rt.alloc();
    let p = problem(alloc)?;
    assert!(rt; well_formed(alloc, &p)?);
    let text = print(alloc, &p)?;
    assert_eq!(rt; text.as_slice(), WANT.as_bytes());
    Ok(())
}

/// A problem with comments, empty lines and other blanks.
const LOOSE: &str =
    "# a cell\nproblem 1\nsteps 2\ndump 1\nghost 1\nmaterials 1\nlevel ratio 1\nbox 0 0 0 1 1 1\npatch 0 0 0 1 1 1\n\n\nvar u cell outside - 5\ninit\ntask start levels 0 materials 0\ncomputes u = 1-x-2 # of three\ntimestep\nkeep u\nend";

const PRINTED: &str =
    "\nproblem 1\nsteps 2\ndump 1\nghost 1\nmaterials 1\nlevel ratio 1\nbox 0 0 0 1 1 1\npatch 0 0 0 1 1 1\n\n\nvar u cell outside -5\ninit\ntask start levels 0 materials 0\ncomputes u = ((1 - x) - 2)\ntimestep\nkeep u\nend\n";

#[test]
fn what_is_printed_is_read_again(rt: HostRuntime) -> Result<(), Fail> {
    let alloc = rt.alloc();
    let p = parse(alloc, LOOSE.as_bytes())?;
    assert!(rt; well_formed(alloc, &p)?);
    let text = print(alloc, &p)?;
    assert_eq!(rt; text.as_slice(), PRINTED.as_bytes());
    let again = parse(alloc, PRINTED.as_bytes())?;
    let second = print(alloc, &again)?;
    assert_eq!(rt; second.as_slice(), PRINTED.as_bytes());
    Ok(())
}
