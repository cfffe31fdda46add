// The set in force and the second set of the IGRF profile: the lines SET and SET2. At first each has
// epoch 0 and four empty lists.
use crate::words::{Unread, Words};
use lists::{CoefficientSet, Lists, SecondSet};
use std::alloc::Global;

// The most floats of a list.
const FLOATS: usize = 128;

// A coefficient set.
#[derive(Drop)]
pub struct Set {
    epoch_year: i32,
    g: Vec<f32>,
    h: Vec<f32>,
    g_dot: Vec<f32>,
    h_dot: Vec<f32>,
}

// The next word is a count, and so many floats follow.
fn list(alloc: Global, words: &mut Words) -> Result<Vec<f32>, Unread> {
    let count = words.count(3, FLOATS)?;
    let mut list = Vec::with_capacity(alloc, count)?;
    for _ in 0..count {
        list.push(words.float()?)?;
    }
    Ok(list)
}

impl Set {
    fn empty(alloc: Global) -> Set {
        Set {
            epoch_year: 0,
            g: Vec::new(alloc),
            h: Vec::new(alloc),
            g_dot: Vec::new(alloc),
            h_dot: Vec::new(alloc),
        }
    }

    // All that is left of a line.
    fn read(alloc: Global, words: &mut Words) -> Result<Set, Unread> {
        let set = Set {
            epoch_year: words.int()?,
            g: list(alloc, words)?,
            h: list(alloc, words)?,
            g_dot: list(alloc, words)?,
            h_dot: list(alloc, words)?,
        };
        words.end()?;
        Ok(set)
    }

    pub fn lent(&self) -> CoefficientSet<'_> {
        CoefficientSet {
            epoch_year: self.epoch_year,
            lists: Lists {
                g: &self.g,
                h: &self.h,
                g_dot: &self.g_dot,
                h_dot: &self.h_dot,
            },
        }
    }

    pub fn lent_second(&self) -> SecondSet<'_> {
        SecondSet {
            epoch_year: self.epoch_year,
            g: &self.g,
            h: &self.h,
        }
    }
}

#[derive(Drop)]
pub struct Sets {
    pub first: Set,
    pub second: Set,
}

impl Sets {
    pub fn new(alloc: Global) -> Sets {
        Sets {
            first: Set::empty(alloc),
            second: Set::empty(alloc),
        }
    }

    // From a SET line on its set is in force, and from a SET2 line on its set is the second. Any other
    // line, and one that cannot be read whole, changes nothing.
    pub fn take(&mut self, alloc: Global, line: &[u8]) -> Result<(), Unread> {
        let mut words = Words::of(line);
        match words.word()? {
            b"SET" => self.first = Set::read(alloc, &mut words)?,
            b"SET2" => self.second = Set::read(alloc, &mut words)?,
            _ => return Err(Unread::Malformed),
        }
        Ok(())
    }
}
