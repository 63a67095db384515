//! Words, numbers and names put behind others.
ghost use Rattle.std.specs.Prelude.{◌≡◌, ◌++◌, decimal, OnOk};
ghost use Rattle.problem_print.specs.Printed.{name_text, numbers_text};

use itoa::Buffer;
use problem_types::Name;
use uts_num::NoMemory;

/// Appends some bytes.
pub(crate) fn put_word(out: &mut Vec<u8>, word: &[u8]) -> Result<(), NoMemory>
    ensures { OnOk result (out.new.items ≡ out.old.items ++ word.now) }
{
    out.extend_from_slice(word)?;
    Ok(())
}

/// Appends the decimal of `n`.
pub(crate) fn put_u64(out: &mut Vec<u8>, n: u64) -> Result<(), NoMemory>
    ensures { OnOk result (out.new.items ≡ out.old.items ++ decimal n) }
{
    let mut buffer = Buffer::new();
    out.extend_from_slice(buffer.format(n).as_bytes())?;
    Ok(())
}

/// Appends some bytes, and behind them the decimal of `n`.
pub(crate) fn put_numbered(out: &mut Vec<u8>, word: &[u8], n: u64) -> Result<(), NoMemory>
    ensures { OnOk result (out.new.items ≡ out.old.items ++ (word.now ++ decimal n)) }
{
    out.extend_from_slice(word)?;
    put_u64(out, n)
}

/// Appends numbers, each behind a space.
pub(crate) fn put_numbers(out: &mut Vec<u8>, numbers: &[u64]) -> Result<(), NoMemory>
    ensures { OnOk result (out.new.items ≡ out.old.items ++ numbers_text numbers.now) }
{
    for n in numbers {
        put_numbered(out, b" ", *n)?;
    }
    Ok(())
}

/// Appends the word of a name.
pub(crate) fn put_name(out: &mut Vec<u8>, names: &[Name], name: u32) -> Result<(), NoMemory>
    ensures { OnOk result (out.new.items ≡ out.old.items ++ name_text names.now name) }
{
    if let Some(word) = names.get(name as usize) {
        out.extend_from_slice(word.bytes())?;
    }
    Ok(())
}
