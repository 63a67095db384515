//! Expressions in their printed form.
ghost use Rattle.std.specs.Prelude.{◌≡◌, ◌++◌, codes, OnOk};
ghost use Rattle.problem_print.specs.Printed.{store_text, offset_text, read_text, name_text, expression_text};

use crate::putting::{put_name, put_word};
use crate::words::{middle, opening, read_level, store_word};
use problem_types::{Expr, How, Name, Read, Store};
use uts_num::{NoMemory, put_i64};

/// Appends an expression, with parentheses around each operation that stands between its operands.
#[tactic(auto, using(crate::proofs::Pieces::expression_pieces))]
pub(crate) fn put_expression(out: &mut Vec<u8>, names: &[Name], e: &Expr) -> Result<(), NoMemory>
    ensures { OnOk result (out.new.items ≡ out.old.items ++ expression_text names.now e.now) }
{
    match e {
        Expr::Literal(n) => put_i64(out, *n),
        Expr::X => put_word(out, b"x"),
        Expr::Y => put_word(out, b"y"),
        Expr::Z => put_word(out, b"z"),
        Expr::Level => put_word(out, b"level"),
        Expr::Material => put_word(out, b"material"),
        Expr::Step => put_word(out, b"step"),
        Expr::Read(read) => put_read(out, names, read),
        Expr::Number { store, name } => put_reduction(out, names, *store, *name),
        Expr::Neg(a) => {
            put_word(out, b"-")?;
            put_expression(out, names, a.get())
        }
        Expr::Binary(op, a, b) => {
            put_word(out, opening(*op))?;
            put_expression(out, names, a.get())?;
            put_word(out, middle(*op))?;
            put_expression(out, names, b.get())?;
            put_word(out, b")")
        }
        Expr::Select(c, a, b) => {
            put_word(out, b"select(")?;
            put_expression(out, names, c.get())?;
            put_word(out, b", ")?;
            put_expression(out, names, a.get())?;
            put_word(out, b", ")?;
            put_expression(out, names, b.get())?;
            put_word(out, b")")
        }
    }
}

/// Appends the read of a variable.
fn put_read(out: &mut Vec<u8>, names: &[Name], read: &Read) -> Result<(), NoMemory>
    ensures { OnOk result (out.new.items ≡ out.old.items ++ read_text names.now read.now) }
{
    put_word(out, store_word(read.store))?;
    put_word(out, read_level(read.how))?;
    put_name(out, names, read.name)?;
    match read.how {
        How::Same | How::Coarse => put_offset(out, &read.offset),
        How::FineSum | How::FineMin | How::FineMax | How::FineCount => Ok(()),
    }
}

/// Appends the number of a reduction.
fn put_reduction(out: &mut Vec<u8>, names: &[Name], store: Store, name: u32) -> Result<(), NoMemory>
    ensures { OnOk result (out.new.items ≡ out.old.items ++ (store_text store ++ (codes "." ++ name_text names.now name))) }
{
    put_word(out, store_word(store))?;
    put_word(out, b".")?;
    put_name(out, names, name)
}

/// Appends `[x,y,z]`.
fn put_offset(out: &mut Vec<u8>, by: &[i64; 3]) -> Result<(), NoMemory>
    ensures { OnOk result (out.new.items ≡ out.old.items ++ offset_text by.now) }
{
    put_word(out, b"[")?;
    put_i64(out, by[0])?;
    put_word(out, b",")?;
    put_i64(out, by[1])?;
    put_word(out, b",")?;
    put_i64(out, by[2])?;
    put_word(out, b"]")
}
