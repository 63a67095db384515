//! Names numbered in the order of their first appearance.
ghost use Rattle.std.specs.Prelude.{◌≡◌, [], ◌∷◌};
ghost use Rattle.problem_printable.specs.Numbering.{known_behind, what_names, expression_names};

use problem_types::{Expr, What};

/// How many names are known behind this one, if it is known by then or the next new one.
pub(crate) fn known_behind_name(known: usize, name: u32) -> Option<usize>
    ensures { result ≡ known_behind known (name ∷ []) }
{
    let name = name as usize;
    if name < known {
        Some(known)
    } else if name == known {
        Some(known + 1)
    } else {
        None
    }
}

/// How many names are known behind what a task requires.
pub(crate) fn known_behind_what(known: usize, what: What) -> Option<usize>
    ensures { result ≡ known_behind known (what_names what) }
{
    match what {
        What::Same { var, .. } | What::Coarse { var, .. } | What::Fine { var } => {
            known_behind_name(known, var)
        }
        What::Number { name } => known_behind_name(known, name),
    }
}

/// How many names are known behind an expression.
#[tactic(auto, using(crate::specs::Known::known_parts, crate::proofs::Forms::names_of_forms))]
pub(crate) fn known_behind_expression(known: usize, e: &Expr) -> Option<usize>
    ensures { result ≡ known_behind known (expression_names e.now) }
{
    match e {
        Expr::Read(read) => known_behind_name(known, read.name),
        Expr::Number { name, .. } => known_behind_name(known, *name),
        Expr::Literal(_)
        | Expr::X
        | Expr::Y
        | Expr::Z
        | Expr::Level
        | Expr::Material
        | Expr::Step => Some(known),
        Expr::Neg(a) => known_behind_expression(known, a.get()),
        Expr::Binary(_, a, b) => {
            let known = known_behind_expression(known, a.get())?;
            known_behind_expression(known, b.get())
        }
        Expr::Select(c, a, b) => {
            let known = known_behind_expression(known, c.get())?;
            let known = known_behind_expression(known, a.get())?;
            known_behind_expression(known, b.get())
        }
    }
}
