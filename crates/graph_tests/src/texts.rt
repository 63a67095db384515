//! Problems from texts, for tests.
ghost use Rattle.std.specs.Prelude.{IfOk};
ghost use Rattle.problem_file.specs.Grammar.{Spells};

use problem_file::parse;
use std::alloc::Global;
use std::test::Fail;
use task_check::{Checked, check};

/// The texts are shorter.
const LONGEST: usize = 1 << 20;

/// The checked problem of a text. An error where the text has 2^20 bytes or more, spells no problem, or is refused.
pub fn checked(alloc: Global, text: &str) -> Result<Checked, Fail>
    ensures { IfOk result (Spells text.now) }
{
    if text.len() >= LONGEST {
        return Err("too long".into());
    }
    let Ok(problem) = parse(alloc, text.as_bytes()) else {
        return Err("not a problem".into());
    };
    match check(problem) {
        Ok(c) => Ok(c),
        Err(_) => Err("refused".into()),
    }
}
