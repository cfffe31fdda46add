// The kinds of question: the first word of each, and what follows it.
use crate::words::{Unread, Words};
use field::Place;
use models::{ErrorRecord, WmmErrorModel};
use refusals::Day;
use std::alloc::Global;
use strengths::GeomagneticField;
use synthesis::{Colatitude, Longitude, Xyz};

// The most bytes of a stored set.
const STORED: usize = 4000;

// The most error records of a list.
const RECORDS: usize = 20;

// What each byte is before a set is stored.
const UNWRITTEN: u8 = 0xa5;

// A line that asks for something, with all that it says.
#[derive(Drop)]
pub enum Question<'a> {
    Sum {
        colatitude: Colatitude,
        longitude: Longitude,
        ratio: f32,
        offset: f32,
    },
    Field(Place, Day),
    Epoch(Day),
    Strengths(GeomagneticField),
    GridVariation {
        latitude: f32,
        longitude: f32,
        declination: f32,
    },
    Root(f32),
    // Beside the agency's published values, on a whole day and at an offset.
    OnDay {
        place: Place,
        day: Day,
        published: Xyz,
    },
    AtOffset {
        place: Place,
        offset: f32,
        published: Xyz,
    },
    // A word as the agency writes a number, and its file.
    Number(&'a [u8]),
    Whole(&'a [u8]),
    File(Vec<u8>),
    FieldListed {
        place: Place,
        day: Day,
        records: Vec<ErrorRecord>,
    },
    UncertaintyListed {
        components: GeomagneticField,
        epoch_year: i32,
        records: Vec<ErrorRecord>,
    },
    SineAndCosine(f32),
    Declination {
        x: f32,
        y: f32,
    },
    Directions(GeomagneticField),
    FieldInDegrees {
        height: f32,
        latitude: f32,
        longitude: f32,
        day: Day,
    },
    // The bytes of a stored set, and those into which the set in force is stored.
    StoredRead(Vec<u8>),
    StoredWrite(Vec<u8>),
    Rates(Place, Day),
    Igrf(Place, Day),
    IgrfRates(Place, Day),
}

// Bytes by two hex digits for each: all that is left of a line.
fn stored_bytes(alloc: Global, words: &mut Words) -> Result<Vec<u8>, Unread> {
    let digits = words.text()?;
    if digits.len() > 2 * STORED {
        return Err(Unread::Malformed);
    }
    Ok(hex::decode(alloc, digits)?)
}

// Room for so many bytes as the next word says.
fn stored_room(alloc: Global, words: &mut Words) -> Result<Vec<u8>, Unread> {
    let room = words.count(4, STORED)?;
    Ok(vec![in alloc; UNWRITTEN; room]?)
}

// The file that all that is left of a line stands for: each `;` is a newline in it.
fn file(alloc: Global, words: &mut Words) -> Result<Vec<u8>, Unread> {
    let text = words.text()?;
    let newline_for = |byte: &u8| if *byte == b';' { b'\n' } else { *byte };
    Ok(text.iter().map(newline_for).collect(alloc)?)
}

fn record(words: &mut Words) -> Result<ErrorRecord, Unread> {
    Ok(ErrorRecord {
        epoch_year: words.int()?,
        figures: WmmErrorModel {
            declination_sigma_c: words.float()?,
            declination_sigma_v: words.float()?,
            inclination: words.float()?,
            f: words.float()?,
            h: words.float()?,
            x: words.float()?,
            y: words.float()?,
            z: words.float()?,
        },
    })
}

// The next word is a count, and so many error records follow.
fn records(alloc: Global, words: &mut Words) -> Result<Vec<ErrorRecord>, Unread> {
    let count = words.count(3, RECORDS)?;
    let mut records = Vec::with_capacity(alloc, count)?;
    for _ in 0..count {
        records.push(record(words)?)?;
    }
    Ok(records)
}

// A record of three components alone: each uncertainty is asked with other figures.
fn components(words: &mut Words) -> Result<GeomagneticField, Unread> {
    let Xyz { x, y, z } = words.xyz()?;
    Ok(strengths::bare_record(x, y, z))
}

impl<'a> Question<'a> {
    pub fn read(alloc: Global, line: &'a [u8]) -> Result<Question<'a>, Unread> {
        let mut words = Words::of(line);
        let name = words.word()?;
        let question = Question::named(alloc, name, &mut words)?;
        words.end()?;
        Ok(question)
    }

    fn named(alloc: Global, name: &[u8], words: &mut Words<'a>) -> Result<Question<'a>, Unread> {
        Ok(match name {
            b"SUM" => Question::Sum {
                colatitude: words.colatitude()?,
                longitude: words.longitude()?,
                ratio: words.float()?,
                offset: words.float()?,
            },
            b"FIELD" => Question::Field(words.place()?, words.day()?),
            b"EPOCH" => Question::Epoch(words.day()?),
            b"STR" => Question::Strengths(components(words)?),
            b"GV" => Question::GridVariation {
                latitude: words.float()?,
                longitude: words.float()?,
                declination: words.float()?,
            },
            b"SQRT" => Question::Root(words.float()?),
            b"ROW" => Question::OnDay {
                place: words.place()?,
                day: words.day()?,
                published: words.xyz()?,
            },
            b"MID" => Question::AtOffset {
                place: words.place()?,
                offset: words.float()?,
                published: words.xyz()?,
            },
            b"DEC" => Question::Number(words.word()?),
            b"WHOLE" => Question::Whole(words.word()?),
            b"COF" => Question::File(file(alloc, words)?),
            b"FLIST" => Question::FieldListed {
                place: words.place()?,
                day: words.day()?,
                records: records(alloc, words)?,
            },
            b"ULIST" => Question::UncertaintyListed {
                components: components(words)?,
                epoch_year: words.int()?,
                records: records(alloc, words)?,
            },
            b"TRIG" => Question::SineAndCosine(words.float()?),
            b"DECL" => Question::Declination {
                x: words.float()?,
                y: words.float()?,
            },
            b"DIR" => Question::Directions(components(words)?),
            b"FDEG" => Question::FieldInDegrees {
                height: words.float()?,
                latitude: words.float()?,
                longitude: words.float()?,
                day: words.day()?,
            },
            b"SREAD" => Question::StoredRead(stored_bytes(alloc, words)?),
            b"SWRITE" => Question::StoredWrite(stored_room(alloc, words)?),
            b"RATES" => Question::Rates(words.place()?, words.day()?),
            b"IGRF" => Question::Igrf(words.place()?, words.day()?),
            b"IRATES" => Question::IgrfRates(words.place()?, words.day()?),
            _ => return Err(Unread::Malformed),
        })
    }
}
