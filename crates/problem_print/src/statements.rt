//! The statements that stand in lists, each in its printed form.
ghost use Rattle.std.specs.Prelude.{◌≡◌, ◌++◌, ◌∷◌, [], map, codes, OnOk};
ghost use Rattle.problem_file.specs.Statements.{var_statement, reduction_statement, require_statement, write_statement, keep_statement};
ghost use Rattle.problem_print.specs.Pages.{Adds};
ghost use Rattle.problem_print.specs.Printed.{statement_text, layers_text, what_text, target_text, name_text, numbers_text};

use crate::expression::put_expression;
use crate::page::Page;
use crate::putting::{put_name, put_numbered, put_numbers, put_word};
use crate::words::{centring_word, fold_word, store_word};
use problem_types::{
    Ghost, GhostKind, Keep, Name, Reduction, Require, Task, Var, What, Write, WriteKind,
};
use uts_num::{NoMemory, put_i64};

/// What stands on one line.
pub(crate) trait Line {
    ghost use Rattle.problem_file.specs.Statements.{Placed};

    ghost placed: { Self → Placed };

    /// The number of its line.
    fn line(&self) -> u32
        ensures { result ≡ (placed self.now).line };

    /// Appends its text.
    fn put(&self, out: &mut Vec<u8>, names: &[Name]) -> Result<(), NoMemory>
        ensures { OnOk result (out.new.items ≡ out.old.items ++ statement_text names.now (placed self.now).statement) };
}

/// Puts a statement on its line.
pub(crate) fn put_statement<S: Line>(
    page: &mut Page,
    names: &[Name],
    statement: &S,
) -> Result<(), NoMemory>
    ensures { OnOk result (Adds names.now (S.placed statement.now ∷ []) page.old page.new) }
{
    page.begin_line(statement.line())?;
    statement.put(&mut page.text, names)?;
    page.end_line()
}

/// Puts statements on their lines.
pub(crate) fn put_statements<S: Line>(
    page: &mut Page,
    names: &[Name],
    statements: &[S],
) -> Result<(), NoMemory>
    ensures { OnOk result (Adds names.now (map S.placed statements.now) page.old page.new) }
{
    for statement in statements {
        put_statement(page, names, statement)?;
    }
    Ok(())
}

impl Line for Var {
    ghost placed = { var_statement };

    fn line(&self) -> u32 {
        self.line
    }

    fn put(&self, out: &mut Vec<u8>, names: &[Name]) -> Result<(), NoMemory> {
        put_word(out, b"var ")?;
        put_name(out, names, self.name)?;
        put_word(out, b" ")?;
        put_word(out, centring_word(self.centring))?;
        put_word(out, b" outside ")?;
        put_i64(out, self.outside)?;
        Ok(())
    }
}

impl Line for Reduction {
    ghost placed = { reduction_statement };

    fn line(&self) -> u32 {
        self.line
    }

    fn put(&self, out: &mut Vec<u8>, names: &[Name]) -> Result<(), NoMemory> {
        put_word(out, b"reduction ")?;
        put_name(out, names, self.name)?;
        put_word(out, b" ")?;
        put_word(out, fold_word(self.fold))
    }
}

impl Line for Require {
    ghost placed = { require_statement };

    fn line(&self) -> u32 {
        self.line
    }

    fn put(&self, out: &mut Vec<u8>, names: &[Name]) -> Result<(), NoMemory> {
        put_word(out, b"requires ")?;
        put_word(out, store_word(self.store))?;
        put_word(out, b" ")?;
        put_what(out, names, self.what)
    }
}

impl Line for Write {
    ghost placed = { write_statement };

    fn line(&self) -> u32 {
        self.line
    }

    fn put(&self, out: &mut Vec<u8>, names: &[Name]) -> Result<(), NoMemory> {
        put_target(out, names, self.kind, self.name)?;
        put_word(out, b" = ")?;
        put_expression(out, names, &self.expr)
    }
}

impl Line for Keep {
    ghost placed = { keep_statement };

    fn line(&self) -> u32 {
        self.line
    }

    fn put(&self, out: &mut Vec<u8>, names: &[Name]) -> Result<(), NoMemory> {
        put_word(out, b"keep ")?;
        put_name(out, names, self.name)
    }
}

/// Appends layers of ghost data, behind a space.
fn put_layers(out: &mut Vec<u8>, layers: Ghost) -> Result<(), NoMemory>
    ensures { OnOk result (out.new.items ≡ out.old.items ++ layers_text layers) }
{
    match layers.kind {
        GhostKind::None => put_word(out, b" none"),
        GhostKind::Cells => put_numbered(out, b" cells ", layers.n),
        GhostKind::Nodes => put_numbered(out, b" nodes ", layers.n),
        GhostKind::FaceX => put_numbered(out, b" facex ", layers.n),
        GhostKind::FaceY => put_numbered(out, b" facey ", layers.n),
        GhostKind::FaceZ => put_numbered(out, b" facez ", layers.n),
    }
}

/// Appends what a task requires, behind the store.
fn put_what(out: &mut Vec<u8>, names: &[Name], what: What) -> Result<(), NoMemory>
    ensures { OnOk result (out.new.items ≡ out.old.items ++ what_text names.now what) }
{
    match what {
        What::Same { var, layers } => {
            put_name(out, names, var)?;
            put_layers(out, layers)
        }
        What::Coarse { var, layers } => {
            put_word(out, b"coarse ")?;
            put_name(out, names, var)?;
            put_layers(out, layers)
        }
        What::Fine { var } => {
            put_word(out, b"fine ")?;
            put_name(out, names, var)
        }
        What::Number { name } => put_name(out, names, name),
    }
}

/// Appends what a task writes, up to the `=`.
fn put_target(out: &mut Vec<u8>, names: &[Name], kind: WriteKind, name: u32) -> Result<(), NoMemory>
    ensures { OnOk result (out.new.items ≡ out.old.items ++ target_text kind (name_text names.now name)) }
{
    match kind {
        WriteKind::Computes => {
            put_word(out, b"computes ")?;
            put_name(out, names, name)
        }
        WriteKind::Modifies => {
            put_word(out, b"modifies ")?;
            put_name(out, names, name)
        }
        WriteKind::Reduces(centring) => {
            put_word(out, b"reduces ")?;
            put_name(out, names, name)?;
            put_word(out, b" ")?;
            put_word(out, centring_word(centring))
        }
    }
}

/// Appends the line that begins a task.
pub(crate) fn put_task_words(out: &mut Vec<u8>, names: &[Name], task: &Task) -> Result<(), NoMemory>
    ensures { OnOk result (out.new.items ≡ out.old.items ++ (codes "task " ++ (name_text names.now task.now.name
        ++ (codes " levels" ++ (numbers_text task.now.levels ++ (codes " materials" ++ numbers_text task.now.materials)))))) }
{
    put_word(out, b"task ")?;
    put_name(out, names, task.name)?;
    put_word(out, b" levels")?;
    put_numbers(out, task.levels.as_slice())?;
    put_word(out, b" materials")?;
    put_numbers(out, task.materials.as_slice())
}
