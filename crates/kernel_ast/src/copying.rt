ghost use Rattle.std.specs.Prelude.{◌≡◌, IfOk};

use crate::Expr;
use sqlite_items::Boxed;
use std::alloc::{AllocError, Global};

/// Memory ran out.
#[derive(Clone, Copy, Debug, PartialEq, Eq)]
pub struct NoMemory;

impl From<AllocError> for NoMemory {
    fn from(_: AllocError) -> Self {
        NoMemory
    }
}

/// The same expression once more. It goes down as deep as the expression is.
#[cycle(copy)]
pub fn copy(alloc: Global, e: &Expr) -> Result<Expr, NoMemory>
    ensures { IfOk result (λ x. x ≡ e.now) }
{
    match e {
        Expr::Literal(n) => Ok(Expr::Literal(*n)),
        Expr::X => Ok(Expr::X),
        Expr::Y => Ok(Expr::Y),
        Expr::Z => Ok(Expr::Z),
        Expr::Level => Ok(Expr::Level),
        Expr::Material => Ok(Expr::Material),
        Expr::Step => Ok(Expr::Step),
        Expr::Read(read) => Ok(Expr::Read(*read)),
        Expr::Number { store, name } => Ok(Expr::Number {
            store: *store,
            name: *name,
        }),
        Expr::Neg(a) => Ok(Expr::Neg(copy_part(alloc, a)?)),
        Expr::Binary(op, a, b) => Ok(Expr::Binary(*op, copy_part(alloc, a)?, copy_part(alloc, b)?)),
        Expr::Select(c, a, b) => Ok(Expr::Select(
            copy_part(alloc, c)?,
            copy_part(alloc, a)?,
            copy_part(alloc, b)?,
        )),
    }
}

#[cycle(copy)]
fn copy_part(alloc: Global, part: &Boxed<Expr>) -> Result<Boxed<Expr>, NoMemory>
    ensures { IfOk result (λ x. x ≡ part.now) }
{
    Ok(Boxed::new(alloc, copy(alloc, part.get())?)?)
}
