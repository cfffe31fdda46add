// The file's lines: header, ninety lines, then nines.
ghost use Rattle.std.specs.Prelude.{◌≡◌, ◌&&◌, [], ◌∷◌, ◌+◌, ◌<◌, ◌^◌, length, IfOk, MatchOption, OnOk, OnSome};
ghost use Rattle.refusals.specs.Paper.{said};
ghost use Rattle.text.specs.Lines.{lines};
ghost use Rattle.text.specs.Words.{words};
ghost use Rattle.lists.specs.Sets.{Ninety};
ghost use Rattle.agency.specs.Entries.{entry_of, equals, nines};
ghost use Rattle.agency.specs.Code.{set_of, set_said};
ghost use Rattle.agency.specs.Cof.{file_says, following, header_says, nines_verdict, placed, row_says};

use crate::entries;
use crate::entries::{Entry, Words};
use lists::Lists;
use refusals::{Refusal, Verdict};
use tables::N_COEFF;
use text::FirstLine;

// The degree and the order that are due.
#[derive(Clone, Copy)]
struct Place {
    degree: usize,
    order: usize,
}

impl Place {
    // The place that is due after this one.
    fn following(self) -> Place
        requires degree_bound { self.degree < 1000 }
        requires order_bound { self.order < 1000 }
        ensures { result ≡ following self }
    {
        if self.order == self.degree {
            return Place {
                degree: self.degree + 1,
                order: 0,
            };
        }
        Place {
            order: self.order + 1,
            ..self
        }
    }

    // The entry's degree and order are these.
    fn is_of(self, entry: Entry) -> bool
        ensures { result ≡ equals entry.degree self.degree && equals entry.order self.order }
    {
        usize::try_from(entry.degree) == Ok(self.degree)
            && usize::try_from(entry.order) == Ok(self.order)
    }
}

// A file's set, in lists of its own: four, as a set is lent.
#[derive(Drop)]
pub struct FileSet {
    pub epoch_year: i32,
    pub g: [f32; N_COEFF],
    pub h: [f32; N_COEFF],
    pub g_dot: [f32; N_COEFF],
    pub h_dot: [f32; N_COEFF],
}

impl FileSet {
    ghost use Rattle.agency.specs.Code.{lent_set, set_of};

    pub fn lists(&self) -> Lists<'_>
        ensures { lent_set result ≡ (set_of self.now).lists }
    {
        Lists {
            g: &self.g,
            h: &self.h,
            g_dot: &self.g_dot,
            h_dot: &self.h_dot,
        }
    }
}

// Line `number`, where `due` is due.
fn placed(line: &[u8], due: Place, number: usize) -> Result<Entry, Refusal>
    ensures { said result ≡ placed number due (nines line.now) (entry_of (words line.now)) }
{
    let Some(entry) = entries::read_entry(line) else {
        if entries::is_nines(line) {
            return Err(Refusal::OutOfOrder { line: number });
        }
        return Err(Refusal::Malformed { line: number });
    };
    if !due.is_of(entry) {
        return Err(Refusal::OutOfOrder { line: number });
    }
    Ok(entry)
}

// The lines of a text, read from its front: what is left, and the number of the line that comes next.
#[derive(Drop)]
struct TextLines<'a> {
    rest: &'a [u8],
    number: usize,
    // Each line takes a byte at least, so the number fits.
    ghost in_range: { number + length rest.now < 2 ^ 64 },
}

impl<'a> TextLines<'a> {
    ghost use Rattle.agency.specs.Code.{taken};

    // The next line, where the text goes on.
    fn next(&mut self) -> Option<&'a [u8]>
        ensures line { MatchOption result (lines self.old.rest.now ≡ []) (λ l. lines self.old.rest.now ≡ l.now ∷ lines self.new.rest.now) }
        ensures number { OnSome result (self.new.number ≡ self.old.number + 1) }
        ensures shorter { OnSome result (length self.new.rest.now < length self.old.rest.now) }
    {
        if self.rest.is_empty() {
            return None;
        }
        let FirstLine { line, rest } = text::first_line(self.rest);
        self.rest = rest;
        self.number += 1;
        Some(line)
    }

    // The epoch year of the first line.
    fn header(&mut self) -> Result<i32, Refusal>
        ensures header { taken result self.new.rest.now ≡ header_says (lines self.old.rest.now) }
        ensures number { OnOk result (self.new.number ≡ self.old.number + 1) }
        ensures shorter { OnOk result (length self.new.rest.now < length self.old.rest.now) }
    {
        let line = self.next().ok_or(Refusal::OutOfOrder { line: 1 })?;
        Words { rest: line }
            .whole()
            .ok_or(Refusal::Malformed { line: 1 })
    }

    // The next coefficient line, where `due` is due. At the end of the text there is none.
    fn row(&mut self, due: Place) -> Result<Entry, Refusal>
        ensures row { taken result self.new.rest.now ≡ row_says self.old.number due (lines self.old.rest.now) }
        ensures number { OnOk result (self.new.number ≡ self.old.number + 1) }
        ensures shorter { OnOk result (length self.new.rest.now < length self.old.rest.now) }
    {
        let number = self.number;
        let line = self.next().ok_or(Refusal::OutOfOrder { line: number })?;
        placed(line, due, number)
    }

    // Only lines of nines are left.
    fn nines(&mut self) -> Verdict
        ensures { result ≡ nines_verdict self.old.number (lines self.old.rest.now) }
    {
        let mut number = self.number;
        while let Some(line) = self.next() {
            if !entries::is_nines(line) {
                return Err(Refusal::Malformed { line: number });
            }
            number = self.number;
        }
        Ok(())
    }
}

// All lines: the header, a coefficient line for each degree and order, then nines.
pub fn read(text: &[u8]) -> Result<FileSet, Refusal>
    ensures set { set_said result ≡ file_says (lines text.now) }
    ensures ninety { IfOk result (λ s. Ninety (set_of s).lists) }
{
    let mut lines = TextLines {
        rest: text,
        number: 1,
    };
    let mut set = FileSet {
        epoch_year: lines.header()?,
        g: [0.0; N_COEFF],
        h: [0.0; N_COEFF],
        g_dot: [0.0; N_COEFF],
        h_dot: [0.0; N_COEFF],
    };
    let mut due = Place {
        degree: 1,
        order: 0,
    };
    // One loop for degrees and orders: k is the place in the lists.
    for k in 0..N_COEFF {
        let entry = lines.row(due)?;
        set.g[k] = entry.g;
        set.h[k] = entry.h;
        set.g_dot[k] = entry.g_dot;
        set.h_dot[k] = entry.h_dot;
        due = due.following();
    }
    lines.nines()?;
    Ok(set)
}
