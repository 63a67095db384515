//! The fixed words of the printed form.
ghost use Rattle.std.specs.Prelude.{◌≡◌};
ghost use Rattle.problem_print.specs.Pieces.{opening_text, middle_text, level_text};
ghost use Rattle.problem_print.specs.Printed.{store_text, centring_text, fold_text};

use problem_types::{Centring, Fold, How, Op, Store};

pub(crate) fn store_word(store: Store) -> &'static [u8]
    ensures { result.now ≡ store_text store }
{
    match store {
        Store::Old => b"old",
        Store::New => b"new",
    }
}

pub(crate) fn centring_word(centring: Centring) -> &'static [u8]
    ensures { result.now ≡ centring_text centring }
{
    match centring {
        Centring::Cell => b"cell",
        Centring::Node => b"node",
        Centring::FaceX => b"facex",
        Centring::FaceY => b"facey",
        Centring::FaceZ => b"facez",
    }
}

pub(crate) fn fold_word(fold: Fold) -> &'static [u8]
    ensures { result.now ≡ fold_text fold }
{
    match fold {
        Fold::Sum => b"sum",
        Fold::Min => b"min",
        Fold::Max => b"max",
    }
}

/// What stands before the operands of an operation.
pub(crate) fn opening(op: Op) -> &'static [u8]
    ensures { result.now ≡ opening_text op }
{
    match op {
        Op::Min => b"min(",
        Op::Max => b"max(",
        Op::Add
        | Op::Sub
        | Op::Mul
        | Op::Div
        | Op::Rem
        | Op::Lt
        | Op::Le
        | Op::Gt
        | Op::Ge
        | Op::Eq
        | Op::Ne => b"(",
    }
}

/// What stands between the operands of an operation.
pub(crate) fn middle(op: Op) -> &'static [u8]
    ensures { result.now ≡ middle_text op }
{
    match op {
        Op::Add => b" + ",
        Op::Sub => b" - ",
        Op::Mul => b" * ",
        Op::Div => b" / ",
        Op::Rem => b" % ",
        Op::Lt => b" < ",
        Op::Le => b" <= ",
        Op::Gt => b" > ",
        Op::Ge => b" >= ",
        Op::Eq => b" == ",
        Op::Ne => b" != ",
        Op::Min | Op::Max => b", ",
    }
}

/// What stands between the store of a read and its name.
pub(crate) fn read_level(how: How) -> &'static [u8]
    ensures { result.now ≡ level_text how }
{
    match how {
        How::Same => b".",
        How::Coarse => b".coarse.",
        How::FineSum => b".fine_sum.",
        How::FineMin => b".fine_min.",
        How::FineMax => b".fine_max.",
        How::FineCount => b".fine_count.",
    }
}
