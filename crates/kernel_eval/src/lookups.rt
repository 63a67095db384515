//! The parts of reads, and the numbers of reductions.
ghost use Rattle.std.specs.Prelude.{◌≡◌};
ghost use Rattle.std.specs.List.{find};
ghost use Rattle.std.specs.Option.{option_copied};
ghost use Rattle.kernel_eval.specs.Environments.{is_given_as, is_part_of, is_read_in, is_same_store, number_given};

use crate::{Given, Part, Windows};
use kernel_ast::{How, Read, Store};

fn is_same_store(a: Store, b: Store) -> bool
    ensures { result ≡ is_same_store a b }
{
    match (a, b) {
        (Store::Old, Store::Old) | (Store::New, Store::New) => true,
        _ => false,
    }
}

/// Whether a read of this form looks into a part of that one.
fn is_read_in(how: How, part: How) -> bool
    ensures { result ≡ is_read_in how part }
{
    match (how, part) {
        (How::Same, How::Same) | (How::Coarse, How::Coarse) => true,
        (How::FineSum | How::FineMin | How::FineMax | How::FineCount, How::FineSum) => true,
        _ => false,
    }
}

fn is_part_of(read: &Read, part: &Part) -> bool
    ensures { result ≡ is_part_of read.now part.now }
{
    is_same_store(read.store, part.store)
        && is_read_in(read.how, part.how)
        && part.name == read.name
}

/// The first part that has the numbers of a read.
pub(crate) fn part_of<'a>(parts: &'a [Part], read: &Read) -> Option<&'a Part>
    ensures { option_copied result ≡ find (is_part_of read.now) parts.now }
{
    parts.iter().find(|part| is_part_of(read, part))
}

fn is_given_as(store: Store, name: u32, given: Given) -> bool
    ensures { result ≡ is_given_as store name given }
{
    is_same_store(store, given.store) && given.name == name
}

/// The first number that is given for a reduction.
fn given_as(numbers: &[Given], store: Store, name: u32) -> Option<Given>
    ensures { result ≡ find (is_given_as store name) numbers.now }
{
    numbers
        .iter()
        .copied()
        .find(|g| is_given_as(store, name, *g))
}

/// The number that is given for a reduction, 0 where none is.
pub(crate) fn number_given(w: &Windows, store: Store, name: u32) -> i64
    ensures { result ≡ number_given w.now store name }
{
    match given_as(&w.numbers, store, name) {
        Some(g) => g.number,
        None => 0,
    }
}
