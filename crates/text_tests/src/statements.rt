//! Statements read from text, with values counted by hand.
use problem_types::{Centring, Fold, Ghost, GhostKind, Store, What, WriteKind};
use statement_parse::{Corners, Statement, StatementFault, StatementKind, parse_statement};
use std::alloc::Global;
use std::test::Fail;
use uts_lex::{Names, lex_line};

/// The tests' texts are shorter.
const LONGEST: usize = 1 << 20;

/// What the text is read as, in a text whose names so far are `names`.
fn read_with(
    alloc: Global,
    text: &[u8],
    names: &mut Names,
) -> Result<Result<Statement, StatementFault>, Fail> {
    let mut tokens = Vec::new(alloc);
    if text.len() >= LONGEST {
        return Ok(Err(StatementFault::NoMemory));
    }
    lex_line(text, 0, 1, &mut tokens)?;
    if names.len() >= LONGEST || tokens.len() >= LONGEST {
        return Ok(Err(StatementFault::NoMemory));
    }
    Ok(parse_statement(alloc, text, &tokens, names))
}

fn read(alloc: Global, text: &str) -> Result<Result<Statement, StatementFault>, Fail> {
    let mut names = Names::new(alloc);
    read_with(alloc, text.as_bytes(), &mut names)
}

fn what(alloc: Global, text: &str, names: &mut Names) -> Result<Option<(Store, What)>, Fail> {
    match read_with(alloc, text.as_bytes(), names)? {
        Ok(Statement::Require { store, what }) => Ok(Some((store, what))),
        _ => Ok(None),
    }
}

#[test]
fn reads_each_kind(rt: HostRuntime) -> Result<(), Fail> {
    let alloc = rt.alloc();
    for (text, kind) in [
        ("problem 1", StatementKind::Version),
        ("steps 0", StatementKind::Steps),
        ("dump 1", StatementKind::Dump),
        ("ghost 0", StatementKind::Ghost),
        ("materials 1", StatementKind::Materials),
        ("level ratio 2", StatementKind::Level),
        ("box 0 0 0 8 8 8", StatementKind::Box),
        ("patch 0 0 0 4 4 4", StatementKind::Patch),
        ("var u cell outside 0", StatementKind::Var),
        ("reduction heat sum", StatementKind::Reduction),
        ("init", StatementKind::Init),
        ("task t levels 0 materials 0", StatementKind::Task),
        ("requires old u none", StatementKind::Require),
        ("computes u = 1", StatementKind::Write),
        ("modifies u = 1", StatementKind::Write),
        ("reduces heat cell = 1", StatementKind::Write),
        ("timestep", StatementKind::Timestep),
        ("keep end", StatementKind::Keep),
        ("end", StatementKind::End),
    ] {
        let statement = read(alloc, text)?.ok().ok_or("a statement")?;
        assert!(rt; statement.kind() == kind, "{text}");
    }
    Ok(())
}

#[test]
fn reads_numbers(rt: HostRuntime) -> Result<(), Fail> {
    let alloc = rt.alloc();
    let largest = "steps 18446744073709551615";
    assert!(rt; matches!(read(alloc, largest)?, Ok(Statement::Steps(u64::MAX))));
    assert!(rt; matches!(read(alloc, "dump 7")?, Ok(Statement::Dump(7))));
    assert!(rt; matches!(read(alloc, "level ratio 4")?, Ok(Statement::Level(4))));
    let corners = Corners {
        lo: [1, 2, 3],
        hi: [4, 5, 6],
    };
    match read(alloc, "box 1 2 3 4 5 6")? {
        Ok(Statement::Box(found)) => assert!(rt; found == corners),
        _ => assert!(rt; false),
    }
    let task = read(alloc, "task t levels 0 2 materials 1 3 4")?
        .ok()
        .ok_or("a task")?;
    match &task {
        Statement::Task {
            name,
            levels,
            materials,
        } => {
            assert!(rt; *name == 0 && levels.as_slice() == [0, 2].as_slice());
            assert!(rt; materials.as_slice() == [1, 3, 4].as_slice());
        }
        _ => assert!(rt; false),
    }
    Ok(())
}

#[test]
fn reads_declarations(rt: HostRuntime) -> Result<(), Fail> {
    let alloc = rt.alloc();
    for (text, at, number) in [
        ("var u node outside -0", Centring::Node, 0),
        ("var u facex outside 5", Centring::FaceX, 5),
        (
            "var u facez outside -9223372036854775808",
            Centring::FaceZ,
            i64::MIN,
        ),
    ] {
        match read(alloc, text)? {
            Ok(
                Statement::Var {
                    name,
                    centring,
                    outside,
                },
            ) => {
                assert!(rt; name == 0 && centring == at && outside == number, "{text}");
            }
            _ => assert!(rt; false, "{text}"),
        }
    }
    match read(alloc, "reduction heat max")? {
        Ok(Statement::Reduction { name, fold }) => assert!(rt; name == 0 && fold == Fold::Max),
        _ => assert!(rt; false),
    }
    Ok(())
}

#[test]
fn reads_requirements(rt: HostRuntime) -> Result<(), Fail> {
    let alloc = rt.alloc();
    let mut names = Names::new(alloc);
    let none = Ghost {
        kind: GhostKind::None,
        n: 0,
    };
    let one = Ghost {
        kind: GhostKind::Cells,
        n: 1,
    };
    for (text, store, wanted) in [
        (
            "requires old u none",
            Store::Old,
            What::Same {
                var: 0,
                layers: none,
            },
        ),
        (
            "requires new coarse v cells 1",
            Store::New,
            What::Coarse {
                var: 1,
                layers: one,
            },
        ),
        ("requires old fine u", Store::Old, What::Fine { var: 0 }),
        ("requires old none", Store::Old, What::Number { name: 2 }),
        (
            "requires old cells cells 1",
            Store::Old,
            What::Same {
                var: 3,
                layers: one,
            },
        ),
    ] {
        let found = what(alloc, text, &mut names)?;
        assert!(rt;
            found.is_some_and(|f| f.0 == store && f.1 == wanted),
            "{text}"
        );
    }
    Ok(())
}

#[test]
fn numbers_the_name_of_a_write_first(rt: HostRuntime) -> Result<(), Fail> {
    let alloc = rt.alloc();
    let mut names = Names::new(alloc);
    names.number(b"u")?;
    match read_with(
        alloc,
        b"reduces heat node = old.u[0,0,0] + old.v[0,0,0]",
        &mut names,
    )? {
        Ok(Statement::Write { kind, name, .. }) => {
            assert!(rt; name == 1 && kind == WriteKind::Reduces(Centring::Node));
        }
        _ => assert!(rt; false),
    }
    assert!(rt; names.len() == 3);
    assert!(rt; names.get(2).is_some_and(|word| word == b"v".as_slice()));
    Ok(())
}

#[test]
fn refuses_what_is_no_statement(rt: HostRuntime) -> Result<(), Fail> {
    let alloc = rt.alloc();
    for text in [
        "",
        "problem 2",
        "steps",
        "steps 1 2",
        "dump 0",
        "materials 0",
        "level 2",
        "box 1 2 3 4 5",
        "var u cell outside 9223372036854775808",
        "var u cells outside 0",
        "reduction heat fold",
        "init 1",
        "task t levels materials 0",
        "task t levels 0 0 materials 0",
        "task t levels 1 0 materials 0",
        "task t levels 0 materials",
        "requires old u cells 0",
        "requires old u cells",
        "requires old fine u none",
        "keep coarse",
        "keep u v",
        "computes u 1",
        "computes u = ",
        "reduces heat = 1",
        "u = 1",
        "end end",
    ] {
        let bad = matches!(read(alloc, text)?, Err(StatementFault::BadStatement));
        assert!(rt; bad, "{text}");
    }
    Ok(())
}
