// Reading a line word by word. One space stands between two words, and no more. What cannot be read is an
// `Unread`, which ends the reading of the line.
use field::{Latitude, Place};
use hex::{FromHex, FromHexError};
use refusals::Day;
use std::alloc::{AllocError, AllocFailed};
use std::str::FromStr;
use synthesis::{Colatitude, Longitude, Xyz};

// Why a line, or a part of one, is not what it is read as.
#[derive(Clone, Copy, Debug, PartialEq, Eq)]
pub enum Unread {
    Malformed,
    OutOfMemory,
}

impl From<AllocError> for Unread {
    fn from(_error: AllocError) -> Unread {
        Unread::OutOfMemory
    }
}

impl<T: Drop> From<AllocFailed<T>> for Unread {
    fn from(_refused: AllocFailed<T>) -> Unread {
        Unread::OutOfMemory
    }
}

impl From<FromHexError> for Unread {
    fn from(error: FromHexError) -> Unread {
        match error {
            FromHexError::OutOfMemory => Unread::OutOfMemory,
            _ => Unread::Malformed,
        }
    }
}

// What is left of a line: nothing after its last word.
#[derive(Clone, Copy)]
pub struct Words<'a> {
    rest: Option<&'a [u8]>,
}

// At most so many bytes, each of them a decimal digit.
fn is_decimal(digits: &[u8], most: usize) -> bool {
    digits.len() <= most && digits.iter().all(|digit| digit.is_ascii_digit())
}

// A number by the decimal digits of a word.
fn parsed<T: FromStr>(word: &[u8]) -> Result<T, Unread>
where
    T::Err: Drop,
{
    str::from_utf8(word)
        .ok()
        .and_then(|text| text.parse().ok())
        .ok_or(Unread::Malformed)
}

impl<'a> Words<'a> {
    pub fn of(line: &'a [u8]) -> Words<'a> {
        Words { rest: Some(line) }
    }

    // All that is left, as it stands.
    pub fn text(&mut self) -> Result<&'a [u8], Unread> {
        self.rest.take().ok_or(Unread::Malformed)
    }

    // The next word. It has one byte at least.
    pub fn word(&mut self) -> Result<&'a [u8], Unread> {
        let text = self.text()?;
        let word = match text.iter().position(|byte| *byte == b' ') {
            None => text,
            Some(end) => {
                self.rest = Some(&text[end + 1..]);
                &text[..end]
            }
        };
        if word.is_empty() {
            return Err(Unread::Malformed);
        }
        Ok(word)
    }

    // No word is left.
    pub fn end(&self) -> Result<(), Unread> {
        match self.rest {
            None => Ok(()),
            Some(_) => Err(Unread::Malformed),
        }
    }

    // A float by its bits: eight hex digits.
    pub fn float(&mut self) -> Result<f32, Unread> {
        let bytes = <[u8; 4]>::from_hex(self.word()?)?;
        Ok(float32::from_bits(u32::from_be_bytes(bytes)))
    }

    // A whole number of at most ten digits, with a minus before them where it is below zero.
    pub fn int(&mut self) -> Result<i32, Unread> {
        let word = self.word()?;
        let digits = word.strip_prefix(b"-").unwrap_or(word);
        if !is_decimal(digits, 10) {
            return Err(Unread::Malformed);
        }
        parsed(word)
    }

    // A count of at most so many digits, and a value of at most `most`.
    pub fn count(&mut self, digits: usize, most: usize) -> Result<usize, Unread> {
        let word = self.word()?;
        if !is_decimal(word, digits) {
            return Err(Unread::Malformed);
        }
        let count = parsed(word)?;
        if count > most {
            return Err(Unread::Malformed);
        }
        Ok(count)
    }

    pub fn colatitude(&mut self) -> Result<Colatitude, Unread> {
        Ok(Colatitude {
            cos: self.float()?,
            sin: self.float()?,
        })
    }

    pub fn latitude(&mut self) -> Result<Latitude, Unread> {
        Ok(Latitude {
            sin: self.float()?,
            cos: self.float()?,
        })
    }

    pub fn longitude(&mut self) -> Result<Longitude, Unread> {
        Ok(Longitude {
            sin: self.float()?,
            cos: self.float()?,
        })
    }

    pub fn xyz(&mut self) -> Result<Xyz, Unread> {
        Ok(Xyz {
            x: self.float()?,
            y: self.float()?,
            z: self.float()?,
        })
    }

    pub fn place(&mut self) -> Result<Place, Unread> {
        Ok(Place {
            height: self.float()?,
            latitude: self.latitude()?,
            longitude: self.longitude()?,
        })
    }

    pub fn day(&mut self) -> Result<Day, Unread> {
        Ok(Day {
            year: self.int()?,
            day_of_year: self.int()?,
        })
    }
}
