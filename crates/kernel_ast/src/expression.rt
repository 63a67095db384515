use sqlite_items::Boxed;

/// Which step's variables are read.
#[derive(Clone, Copy, Debug, PartialEq, Eq)]
pub enum Store {
    /// Those at the end of the step before.
    Old,
    /// Those of this step, as the tasks before left them.
    New,
}

/// Where a read looks: on the kernel's own level, on the next coarser one, or at the children of its
/// index on the next finer one.
#[derive(Clone, Copy, Debug, PartialEq, Eq)]
pub enum How {
    Same,
    Coarse,
    FineSum,
    FineMin,
    FineMax,
    FineCount,
}

/// A read of a variable. The offset is in cells by axis, x, y, z, and 0, 0, 0 at the fine forms.
#[derive(Clone, Copy, Debug, PartialEq, Eq)]
pub struct Read {
    pub store: Store,
    pub how: How,
    /// A place in the problem's names.
    pub name: u32,
    pub offset: [i64; 3],
}

/// A binary operation.
#[derive(Clone, Copy, Debug, PartialEq, Eq)]
pub enum Op {
    Add,
    Sub,
    Mul,
    Div,
    Rem,
    Lt,
    Le,
    Gt,
    Ge,
    Eq,
    Ne,
    Min,
    Max,
}

/// The expression of a kernel. `docs/language.md` has its spelling, and `specs/Value` its number.
#[derive(Debug, Drop)]
pub enum Expr {
    /// At least 0.
    Literal(i64),
    /// The index at which the kernel runs.
    X,
    Y,
    Z,
    Level,
    Material,
    /// The number of the step, 0 in the init list.
    Step,
    Read(Read),
    /// A reduction, named by a place in the problem's names.
    Number { store: Store, name: u32 },
    Neg(Boxed<Expr>),
    Binary(Op, Boxed<Expr>, Boxed<Expr>),
    /// The second where the first is not 0, else the third.
    Select(Boxed<Expr>, Boxed<Expr>, Boxed<Expr>),
}
