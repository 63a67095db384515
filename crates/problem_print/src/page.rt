//! A text that is put together line by line.
ghost use Rattle.std.specs.Prelude.{◌≡◌, ◌++◌, ◌-◌, suc, codes, decimal, replicate, OnOk};
ghost use Rattle.problem_print.specs.Pages.{AddsLine};
ghost use Rattle.problem_print.specs.Printed.{numbers_text};

use crate::putting::{put_numbered, put_numbers, put_word};
use problem_types::BoxLine;
use uts_num::NoMemory;

/// A text of whole lines.
#[derive(Debug, Drop)]
pub(crate) struct Page {
    pub(crate) text: Vec<u8>,
    /// How many lines it has.
    pub(crate) line: u32,
}

impl Page {
    /// Puts empty lines up to the line with this number.
    pub(crate) fn begin_line(&mut self, line: u32) -> Result<(), NoMemory>
        ensures text { OnOk result (self.new.text.items ≡ self.old.text.items ++ replicate (line - suc self.old.line) 10) }
        ensures line { OnOk result (self.new.line ≡ line) }
    {
        let between = line.saturating_sub(self.line).saturating_sub(1);
        put_line_feeds(&mut self.text, between)?;
        self.line = line;
        Ok(())
    }

    /// Ends the line.
    pub(crate) fn end_line(&mut self) -> Result<(), NoMemory>
        ensures text { OnOk result (self.new.text.items ≡ self.old.text.items ++ codes "\n") }
        ensures line { OnOk result (self.new.line ≡ self.old.line) }
    {
        put_word(&mut self.text, b"\n")
    }

    /// Puts a line of one word.
    pub(crate) fn put_word_line(&mut self, line: u32, word: &[u8]) -> Result<(), NoMemory>
        ensures { OnOk result (AddsLine word.now line self.old self.new) }
    {
        self.begin_line(line)?;
        put_word(&mut self.text, word)?;
        self.end_line()
    }

    /// Puts a line that ends in a number.
    pub(crate) fn put_numbered_line(
        &mut self,
        line: u32,
        word: &[u8],
        n: u64,
    ) -> Result<(), NoMemory>
        ensures { OnOk result (AddsLine (word.now ++ decimal n) line self.old self.new) }
    {
        self.begin_line(line)?;
        put_numbered(&mut self.text, word, n)?;
        self.end_line()
    }

    /// Puts a line with the low and the high corner of a box.
    pub(crate) fn put_corners_line(
        &mut self,
        word: &[u8],
        corners: &BoxLine,
    ) -> Result<(), NoMemory>
        ensures { OnOk result (AddsLine (word.now ++ (numbers_text corners.now.lo ++ numbers_text corners.now.hi)) corners.now.line self.old self.new) }
    {
        self.begin_line(corners.line)?;
        put_corners(&mut self.text, word, corners)?;
        self.end_line()
    }
}

/// Appends a word, and the low and the high corner of a box.
fn put_corners(out: &mut Vec<u8>, word: &[u8], corners: &BoxLine) -> Result<(), NoMemory>
    ensures { OnOk result (out.new.items ≡ out.old.items ++ (word.now ++ (numbers_text corners.now.lo ++ numbers_text corners.now.hi))) }
{
    put_word(out, word)?;
    put_numbers(out, &corners.lo)?;
    put_numbers(out, &corners.hi)
}

/// Appends so many line feeds.
fn put_line_feeds(out: &mut Vec<u8>, count: u32) -> Result<(), NoMemory>
    ensures { OnOk result (out.new.items ≡ out.old.items ++ replicate count 10) }
{
    for _so_far in 0..count {
        out.push(b'\n')?;
    }
    Ok(())
}
