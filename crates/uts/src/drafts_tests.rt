//! What tests of whole texts share: drafts of problems, and whether a text is accepted or refused.
use crate::tests::{CALM, TWO_PATCHES, call};
use std::alloc::{AllocError, Global};
use std::test::Fail;

/// A level that is one half of the one before it.
pub const FINER_LEVEL: &str = "level ratio 2\nbox 0 0 0 2 2 2\npatch 0 0 0 2 2 2\n";

/// A box of 64 times 64 times 64 cells in one patch.
const CUBE: &str = "box 0 0 0 64 64 64\npatch 0 0 0 64 64 64\n";

/// The line of a task on each of eight materials.
const ON_EIGHT_MATERIALS: &str = "task start levels 0 materials 0 1 2 3 4 5 6 7\n";

/// Whether `check` accepts the text.
pub fn is_accepted(alloc: Global, text: &str) -> Result<bool, Fail> {
    let answer = call(alloc, "check", text.as_bytes(), &CALM)?;
    Ok(
        answer.status == 0
            && answer.out.as_slice() == b"accepted\n".as_slice()
            && answer.err.len() == 0,
    )
}

/// Whether each command refuses the text by these words.
pub fn is_refused(alloc: Global, text: &str, words: &str) -> Result<bool, Fail> {
    let line = format!(in alloc; "refused: {words}\n")?;
    for word in ["check", "plain", "graph"] {
        let answer = call(alloc, word, text.as_bytes(), &CALM)?;
        if answer.status != 1 || answer.out.len() > 0 || answer.err.as_slice() != line.as_bytes() {
            return Ok(false);
        }
    }
    Ok(true)
}

/// What stands before and behind each number below the count.
pub fn numbered(
    alloc: Global,
    count: u32,
    before: &str,
    behind: &str,
) -> Result<String, AllocError> {
    let mut text = String::new(alloc);
    for number in 0..count {
        let piece = format!(in alloc; "{before}{number}{behind}")?;
        text.push_str(piece.as_str())?;
    }
    Ok(text)
}

/// A problem of one level with these lines: what stands up to its box, its box and patches, its variables and its init list.
fn problem(
    alloc: Global,
    materials: u32,
    grid: &str,
    variables: u32,
    init: &str,
) -> Result<String, AllocError> {
    let vars = numbered(alloc, variables, "var v", " cell outside 0\n")?;
    let vars = vars.as_str();
    format!(in alloc;
        "problem 1\nsteps 0\ndump 1\nghost 8\nmaterials {materials}\nlevel ratio 1\n{grid}{vars}init\n{init}timestep\nend\n"
    )
}

/// The lines of patches of one cell, so many along x, at this y and z.
fn put_row(alloc: Global, grid: &mut String, width: u16, y: u16, z: u16) -> Result<(), AllocError> {
    let (high_y, high_z) = (u32::from(y) + 1, u32::from(z) + 1);
    for x in 0..width {
        let high_x = u32::from(x) + 1;
        let patch = format!(in alloc; "patch {x} {y} {z} {high_x} {high_y} {high_z}\n")?;
        grid.push_str(patch.as_str())?;
    }
    Ok(())
}

/// The lines of patches of one cell, so many along x and y, at this z.
fn put_layer(
    alloc: Global,
    grid: &mut String,
    width: u16,
    depth: u16,
    z: u16,
) -> Result<(), AllocError> {
    for y in 0..depth {
        put_row(alloc, grid, width, y, z)?;
    }
    Ok(())
}

/// A box of so many cells along x, y and z, each of them a patch.
fn block_of_patches(
    alloc: Global,
    width: u16,
    depth: u16,
    height: u16,
) -> Result<String, AllocError> {
    let mut grid = format!(in alloc; "box 0 0 0 {width} {depth} {height}\n")?;
    for z in 0..height {
        put_layer(alloc, &mut grid, width, depth, z)?;
    }
    Ok(grid)
}

/// A box of 1,024 cells in a row, each of them a patch.
pub fn row_of_patches(alloc: Global) -> Result<String, AllocError> {
    block_of_patches(alloc, 1024, 1, 1)
}

/// The problem of two patches, whose second task has so many lines besides the two that it has.
pub fn many_lines(alloc: Global, more: u32) -> Result<String, AllocError> {
    let variables = numbered(alloc, more, "var v", " cell outside 0\n")?;
    let computes = numbered(alloc, more, "computes v", " = 0\n")?;
    let declared = format!(in alloc; "{variables}init\n")?;
    let written = format!(in alloc; "{computes}keep u\n")?;
    let text = TWO_PATCHES.replace(alloc, "init\n", declared.as_str())?;
    text.as_str().replace(alloc, "keep u\n", written.as_str())
}

/// The text with a finer level of one patch, and these tasks behind those of its init list.
pub fn refined(alloc: Global, text: &str, tasks: &str) -> Result<String, AllocError> {
    let levels = format!(in alloc; "{FINER_LEVEL}var v0 ")?;
    let listed = format!(in alloc; "{tasks}timestep\n")?;
    let text = text.replace(alloc, "var v0 ", levels.as_str())?;
    text.as_str().replace(alloc, "timestep\n", listed.as_str())
}

/// A row of 1,024 patches, one task that computes a variable on each of eight materials, and seven that modify it: 65,536 detailed
/// tasks.
pub fn many_detailed(alloc: Global) -> Result<String, AllocError> {
    let row = row_of_patches(alloc)?;
    let again = numbered(
        alloc,
        7,
        "task again",
        " levels 0 materials 0 1 2 3 4 5 6 7\nmodifies v0 = 0\n",
    )?;
    let tasks = format!(in alloc; "{ON_EIGHT_MATERIALS}computes v0 = 0\n{again}")?;
    problem(alloc, 8, row.as_str(), 1, tasks.as_str())
}

/// A row of 1,024 patches, and 32 variables that a task computes on each of eight materials: 262,144 slots.
pub fn many_slots(alloc: Global) -> Result<String, AllocError> {
    let row = row_of_patches(alloc)?;
    let computes = numbered(alloc, 32, "computes v", " = 0\n")?;
    let task = format!(in alloc; "{ON_EIGHT_MATERIALS}{computes}")?;
    problem(alloc, 8, row.as_str(), 32, task.as_str())
}

/// Patches of one cell, and tasks that read so many variables through eight layers on each of eight materials.
fn seen(alloc: Global, grid: &str, variables: u32) -> Result<String, AllocError> {
    let computes = numbered(alloc, variables, "computes v", " = 0\n")?;
    let wanted = numbered(alloc, variables, "requires new v", " cells 8\n")?;
    let tasks = format!(in alloc;
        "{ON_EIGHT_MATERIALS}{computes}task wide levels 0 materials 0 1 2 3 4 5 6 7\n{wanted}computes v9 = 0\n"
    )?;
    problem(alloc, 8, grid, 10, tasks.as_str())
}

/// 8 times 8 times 8 patches, each of which sees all of them, on each of eight materials: 2,097,152 reads.
pub fn many_reads(alloc: Global) -> Result<String, AllocError> {
    let block = block_of_patches(alloc, 8, 8, 8)?;
    seen(alloc, block.as_str(), 1)
}

/// 32 times 32 patches, and windows of so many variables: 1,782,272 reads each.
pub fn wide_windows(alloc: Global, variables: u32) -> Result<String, AllocError> {
    let block = block_of_patches(alloc, 32, 32, 1)?;
    seen(alloc, block.as_str(), variables)
}

/// A level of one patch, and variables that its task computes on each material.
fn stored(alloc: Global, grid: &str, variables: u32, last: &str) -> Result<String, AllocError> {
    let computes = numbered(alloc, variables, "computes v", " = 0\n")?;
    let tasks = format!(in alloc; "{ON_EIGHT_MATERIALS}{computes}{last}")?;
    problem(alloc, 8, grid, 33, tasks.as_str())
}

/// Eight variables on eight materials of 262,144 cells: 16,777,216 numbers.
pub fn many_stored(alloc: Global) -> Result<String, AllocError> {
    stored(alloc, CUBE, 8, "")
}

/// 257 fields of 65,281 cells, which are 16,777,217 numbers: of 32 variables on eight materials, and of one on one of them.
pub fn one_more_stored(alloc: Global) -> Result<String, AllocError> {
    let last = "task last levels 0 materials 0\ncomputes v32 = 0\n";
    stored(
        alloc,
        "box 0 0 0 673 97 1\npatch 0 0 0 673 97 1\n",
        32,
        last,
    )
}

/// A cube, and eight variables that one task reads, and perhaps a reduction besides: 2,097,152 numbers or one more.
fn gathered(alloc: Global, reduces: &str, wanted: &str) -> Result<String, AllocError> {
    let computes = numbered(alloc, 8, "computes v", " = 0\n")?;
    let windows = numbered(alloc, 8, "requires new v", " none\n")?;
    let tasks = format!(in alloc;
        "task start levels 0 materials 0\n{computes}{reduces}task again levels 0 materials 0\n{windows}{wanted}modifies v0 = 0\n"
    )?;
    let text = problem(alloc, 1, CUBE, 8, tasks.as_str())?;
    text.as_str()
        .replace(alloc, "init\n", "reduction r sum\ninit\n")
}

pub fn many_gathered(alloc: Global) -> Result<String, AllocError> {
    gathered(alloc, "", "")
}

pub fn one_more_gathered(alloc: Global) -> Result<String, AllocError> {
    gathered(alloc, "reduces r cell = 0\n", "requires new r\n")
}
