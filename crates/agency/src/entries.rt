// One line: its words, a coefficient line, a line of nines.
ghost use Rattle.std.specs.Prelude.{◌≡◌, drop, slice_range};
ghost use Rattle.text.specs.Decimals.{number_of, whole_of};
ghost use Rattle.text.specs.Reading.{next_word, with_rest};
ghost use Rattle.text.specs.Words.{first_word, words};
ghost use Rattle.agency.specs.Entries.{entry_of, nines, none, only_nines};

use text::FirstWord;

const NINE: u8 = b'9';

// The words of a line, read from its front.
#[derive(Drop)]
pub struct Words<'a> {
    pub rest: &'a [u8],
}

// A coefficient line.
#[derive(Clone, Copy)]
pub struct Entry {
    pub degree: i32,
    pub order: i32,
    pub g: f32,
    pub h: f32,
    pub g_dot: f32,
    pub h_dot: f32,
}

impl<'a> Words<'a> {
    // The next word. Where there is none it is empty, which is no number.
    fn next(&mut self) -> &'a [u8]
        ensures word { let w = first_word self.old.rest.now in result.now ≡ slice_range self.old.rest.now w.start w.end }
        ensures rest { self.new.rest.now ≡ drop (first_word self.old.rest.now).end self.old.rest.now }
    {
        let FirstWord { word, rest } = text::first_word(self.rest);
        self.rest = rest;
        word
    }

    pub fn whole(&mut self) -> Option<i32>
        ensures { with_rest result (words self.new.rest.now) ≡ next_word whole_of (words self.old.rest.now) }
    {
        text::read_whole(self.next())
    }

    fn number(&mut self) -> Option<f32>
        ensures { with_rest result (words self.new.rest.now) ≡ next_word number_of (words self.old.rest.now) }
    {
        text::read_number(self.next())
    }

    // No word is left.
    fn is_end(&self) -> bool
        ensures { result ≡ none (words self.now.rest.now) }
    {
        text::first_word(self.rest).word.is_empty()
    }
}

pub fn read_entry(line: &[u8]) -> Option<Entry>
    ensures { result ≡ entry_of (words line.now) }
{
    let mut words = Words { rest: line };
    let degree = words.whole()?;
    let order = words.whole()?;
    let g = words.number()?;
    let h = words.number()?;
    let g_dot = words.number()?;
    let h_dot = words.number()?;
    if !words.is_end() {
        return None;
    }
    Some(Entry {
        degree,
        order,
        g,
        h,
        g_dot,
        h_dot,
    })
}

fn only_nines(line: &[u8]) -> bool
    ensures { result ≡ only_nines line.now }
{
    line.iter().all(|c| *c == NINE || text::is_blank(*c))
}

// One word or more, of the digit 9 alone.
pub fn is_nines(line: &[u8]) -> bool
    ensures { result ≡ nines line.now }
{
    only_nines(line) && line.contains(&NINE)
}
