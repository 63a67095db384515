//! Names that stand for variables and reductions, and requirements that repeat.
ghost use Rattle.std.specs.Prelude.{◌↔◌, IsTrue, Any};
ghost use Rattle.task_rules.specs.Names.{IsVariable, IsReduction, IsKnown, IsKnownAs, AreNamesKnown, HaveOneRelation, Repeats};

use crate::lines::wanted_name;
use crate::reads::are_reads_known;
use problem_types::{Problem, Require, What, Write, WriteKind, reduction_of, var_of};

/// Whether a variable of this name is declared.
#[tactic(auto, using(crate::proofs::Declared::placed_where_found))]
pub fn is_variable(p: &Problem, name: u32) -> bool
    ensures { IsTrue result ↔ IsVariable p.now name }
{
    var_of(p, name).is_some()
}

/// Whether a reduction of this name is declared.
#[tactic(auto, using(crate::proofs::Declared::placed_where_found))]
pub fn is_reduction(p: &Problem, name: u32) -> bool
    ensures { IsTrue result ↔ IsReduction p.now name }
{
    reduction_of(p, name).is_some()
}

/// Whether what is required is declared: a variable on a level, and a reduction by itself.
pub fn is_known(p: &Problem, what: What) -> bool
    ensures { IsTrue result ↔ IsKnown p.now what }
{
    match what {
        What::Same { var, .. } | What::Coarse { var, .. } | What::Fine { var } => is_variable(
            p, var,
        ),
        What::Number { name } => is_reduction(p, name),
    }
}

fn is_known_as(p: &Problem, name: u32, kind: WriteKind) -> bool
    ensures { IsTrue result ↔ IsKnownAs p.now name kind }
{
    match kind {
        WriteKind::Computes | WriteKind::Modifies => is_variable(p, name),
        WriteKind::Reduces(_) => is_reduction(p, name),
    }
}

/// Whether all names of the line are declared as what they stand for, those of its expression too.
pub fn are_names_known(p: &Problem, write: &Write) -> bool
    ensures { IsTrue result ↔ AreNamesKnown p.now write.now }
{
    is_known_as(p, write.name, write.kind) && are_reads_known(p, &write.expr)
}

fn have_one_relation(a: What, b: What) -> bool
    ensures { IsTrue result ↔ HaveOneRelation a b }
{
    match (a, b) {
        (What::Same { .. }, What::Same { .. })
        | (What::Coarse { .. }, What::Coarse { .. })
        | (What::Fine { .. }, What::Fine { .. })
        | (What::Number { .. }, What::Number { .. }) => true,
        _ => false,
    }
}

fn repeats(q: Require, r: Require) -> bool
    ensures { IsTrue result ↔ Repeats q r }
{
    q.store == r.store
        && have_one_relation(q.what, r.what)
        && wanted_name(q.what) == wanted_name(r.what)
}

/// Whether one of the requirements is of the same store, relation and name. Their ghost data are not compared.
pub fn is_repeated(before: &[Require], r: Require) -> bool
    ensures { IsTrue result ↔ Any (λ q. Repeats q r) before.now }
{
    before.iter().any(|q| repeats(*q, r))
}
