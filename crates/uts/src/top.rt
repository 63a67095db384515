ghost use Rattle.std.specs.Prelude.{◌≡◌, ◌⊎◌, ◌≤◌, ℕ, List, [], IfSome};
ghost use Rattle.uts_io.specs.Streams.{Rose, grown, GrewByPrefix, IsAtEnd};
ghost use Rattle.uts.specs.Answer.{IsCommand, Answers, ErrorLine};
ghost use Rattle.uts.specs.Laws.{OneAnswer};

use crate::command::Command;
use crate::failure::Failure;
use crate::laws::one_answer;
use crate::report::report;
use crate::serve::serve;
use problem_file::{no_problem_with_a_bad_line, one_problem};
use std::alloc::Global;
use task_check::accepted_problems_have_none;
use uts_io::{Sink, Source};

/// Does what the words ask, and gives the status of the program.
pub fn quiet_top<R: Source, O: Sink, E: Sink>(
    alloc: Global,
    words: &[String],
    source: &mut R,
    out: &mut O,
    err: &mut E,
) -> u8
    ensures statuses { result ≤ 5 }

    // Words that are no command.
    ensures usage { (IsCommand words.now → ⊥) → (result ≡ 2) ⊎ ((result ≡ 4) × Rose (E.faults err.old) (E.faults err.new)) }
    ensures usage_only { result ≡ 2 → IsCommand words.now → ⊥ }
    ensures nothing_read { (IsCommand words.now → ⊥) → source.new ≡ source.old }
    ensures nothing_written { (IsCommand words.now → ⊥) → out.new ≡ out.old }

    // Done: the source was read to its end, and the bytes for its text were written.
    ensures ended { result ≡ 0 → IsAtEnd (R.left source.new) }
    ensures done { result ≡ 0 → IfSome (R.left source.old) (λ text. (bytes : List ℕ) × Answers words.now text 0 bytes
        × (O.taken out.new ≡ grown O.after (O.taken out.old) bytes)) }

    // Done only where no stream's count of faults rose.
    ensures calm { result ≡ 0 → (R.faults source.new ≡ R.faults source.old) × (O.faults out.new ≡ O.faults out.old)
        × (E.faults err.new ≡ E.faults err.old) }

    // Told what is refused, only where standard error had no fault.
    ensures told_calm { (result ≡ 1) ⊎ (result ≡ 2) → E.faults err.new ≡ E.faults err.old }

    // The cause of each other status.
    ensures refused { result ≡ 1 → IfSome (R.left source.old) (λ text. Answers words.now text 1 []) }
    ensures read_fault { result ≡ 3 → Rose (R.faults source.old) (R.faults source.new) }
    ensures write_fault { result ≡ 4 → Rose (O.faults out.old) (O.faults out.new) ⊎ Rose (E.faults err.old) (E.faults err.new) }

    // What stands on standard output: nothing at 1, 2 and 3, and always a prefix of the bytes for the text.
    ensures unwritten { (result ≡ 1) ⊎ (result ≡ 2) ⊎ (result ≡ 3) → O.taken out.new ≡ O.taken out.old }
    ensures prefix { IfSome (R.left source.old) (λ text. (status : ℕ) (bytes : List ℕ) → Answers words.now text status bytes
        → GrewByPrefix O.after (O.taken out.old) (O.taken out.new) bytes) }

    // What stands on standard error: the line of the status at 0, 1 and 2, and wherever it did not fail. Where it
    // failed, it is a prefix of that line, or of the line that could not be told.
    ensures told { (result ≤ 2) ⊎ (Rose (E.faults err.old) (E.faults err.new) → ⊥) → (line : List ℕ)
        × ErrorLine words.now (R.left source.old) result line × (E.taken err.new ≡ grown E.after (E.taken err.old) line) }
    ensures told_in_part { (status : ℕ) × (line : List ℕ) × ErrorLine words.now (R.left source.old) status line
        × ((status ≡ result) ⊎ ((result ≡ 4) × ((status ≡ 1) ⊎ (status ≡ 2))))
        × GrewByPrefix E.after (E.taken err.old) (E.taken err.new) line }

    // Where no count of faults rose, the status is that of the text, or memory ran out.
    ensures completed { IfSome (R.left source.old) (λ text. (bytes : List ℕ) → Answers words.now text 0 bytes
        → (Rose (R.faults source.old) (R.faults source.new) → ⊥) → (Rose (O.faults out.old) (O.faults out.new) → ⊥)
        → (Rose (E.faults err.old) (E.faults err.new) → ⊥) → (result ≡ 0) ⊎ (result ≡ 5)) }
    ensures completed_refusal { IfSome (R.left source.old) (λ text. Answers words.now text 1 []
        → (Rose (R.faults source.old) (R.faults source.new) → ⊥) → (Rose (E.faults err.old) (E.faults err.new) → ⊥)
        → (result ≡ 1) ⊎ (result ≡ 5)) }

    // There is one answer with one line on standard error, and no two, to each words and text.
    ensures one_answer { OneAnswer }

    // No count of faults falls.
    ensures source_never_falls { R.faults source.old ≤ R.faults source.new }
    ensures out_never_falls { O.faults out.old ≤ O.faults out.new }
    ensures err_never_falls { E.faults err.old ≤ E.faults err.new }
{
    one_problem();
    no_problem_with_a_bad_line();
    accepted_problems_have_none();
    one_answer();
    let Some(command) = Command::of_words(words) else {
        return report(alloc, err, Failure::Usage);
    };
    match serve(alloc, command, source, out) {
        Ok(()) => 0,
        Err(failure) => report(alloc, err, failure),
    }
}
