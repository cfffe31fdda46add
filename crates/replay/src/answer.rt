// What is answered, and how it is written: words with one space between them. A float is written by its
// bits, as eight hex digits.
use models::EpochOffset;
use rates::YearlyRates;
use refusals::Refusal;
use std::fmt;
use std::fmt::{Display, Formatter, Write};
use strengths::{GeomagneticField, WarningZone};
use synthesis::Xyz;

// A component of a field.
#[derive(Clone, Copy, Debug, PartialEq, Eq)]
pub enum Component {
    X,
    Y,
    Z,
}

// What is told of a record of three components.
#[derive(Clone, Copy)]
pub struct Strengths {
    pub h: f32,
    pub f: f32,
    pub zone: Option<WarningZone>,
    pub uncertainty_2020: f32,
    pub uncertainty_2025: f32,
}

// What is answered where nothing is refused.
#[derive(Clone, Copy)]
pub enum Answer {
    Value(f32),
    Pair(f32, f32),
    Components(Xyz),
    Field(GeomagneticField),
    Rates(YearlyRates),
    Epoch(EpochOffset),
    Strengths(Strengths),
    GridVariation(Option<f32>),
    Whole(i32),
    NoNumber,
    // A set that is read: its epoch year or what is refused of it, and the sum of the lists after it.
    Read(Result<i32, Refusal>, u64),
    // A set that is stored, and the sum of the bytes after it.
    Written(Result<(), Refusal>, u64),
    // Our value beside the published one.
    Within,
    Beyond(Component),
}

// A refusal as it is written: its number, and what it carries.
#[derive(Clone, Copy)]
pub struct Refused(pub Refusal);

// Floats as they are written, with a space before each.
#[derive(Clone, Copy)]
struct Floats<const N: usize>([f32; N]);

// The two halves of a sum.
#[derive(Clone, Copy)]
struct Sum(u64);

impl<const N: usize> Display for Floats<N> {
    fn fmt<W: Write>(&self, f: &mut Formatter<W>) -> fmt::Result {
        for x in &self.0 {
            write!(f, " {:08x}", float32::to_bits(*x))?;
        }
        Ok(())
    }
}

impl Display for Sum {
    fn fmt<W: Write>(&self, f: &mut Formatter<W>) -> fmt::Result {
        write!(f, " {:08x} {:08x}", self.0 >> 32, self.0 & 0xffff_ffff)
    }
}

impl Display for Refused {
    fn fmt<W: Write>(&self, f: &mut Formatter<W>) -> fmt::Result {
        let Refused(why) = *self;
        write!(f, "{}", why.number())?;
        match why {
            Refusal::Height { min_km, max_km } => write!(f, "{}", Floats([min_km, max_km])),
            Refusal::EpochYear { first, last } => {
                write!(f, " {} {}", first.year, first.day_of_year)?;
                write!(f, " {} {}", last.year, last.day_of_year)
            }
            Refusal::Coefficient { list, index } => write!(f, " {} {index}", list.number()),
            Refusal::OtherEpoch { of_day, of_set } => write!(f, " {of_day} {of_set}"),
            Refusal::Malformed { line } | Refusal::OutOfOrder { line } => write!(f, " {line}"),
            Refusal::WrongTag { place }
            | Refusal::WrongLength { place }
            | Refusal::WrongEnd { place } => write!(f, " {place}"),
            _ => Ok(()),
        }
    }
}

impl Display for Strengths {
    fn fmt<W: Write>(&self, f: &mut Formatter<W>) -> fmt::Result {
        let zone = match self.zone {
            None => 0,
            Some(WarningZone::Blackout) => 1,
            Some(WarningZone::Caution) => 2,
        };
        let uncertainties = Floats([self.uncertainty_2020, self.uncertainty_2025]);
        write!(f, "0{} {zone}{uncertainties}", Floats([self.h, self.f]))
    }
}

// The components, then the eight error figures.
fn field_floats(v: GeomagneticField) -> Floats<11> {
    let e = v.error;
    Floats([
        v.x,
        v.y,
        v.z,
        e.declination_sigma_c,
        e.declination_sigma_v,
        e.inclination,
        e.f,
        e.h,
        e.x,
        e.y,
        e.z,
    ])
}

fn rates_floats(v: YearlyRates) -> Floats<7> {
    Floats([v.x, v.y, v.z, v.declination, v.inclination, v.h, v.f])
}

impl Display for Answer {
    fn fmt<W: Write>(&self, f: &mut Formatter<W>) -> fmt::Result {
        match *self {
            Answer::Value(x) => write!(f, "0{}", Floats([x])),
            Answer::Pair(a, b) => write!(f, "0{}", Floats([a, b])),
            Answer::Components(v) => write!(f, "0{}", Floats([v.x, v.y, v.z])),
            Answer::Field(v) => write!(f, "0{}", field_floats(v)),
            Answer::Rates(v) => write!(f, "0{}", rates_floats(v)),
            Answer::Epoch(e) => write!(f, "0 {}{}", e.epoch_year, Floats([e.offset])),
            Answer::Strengths(v) => write!(f, "{v}"),
            Answer::GridVariation(Some(x)) => write!(f, "0 P{}", Floats([x])),
            Answer::GridVariation(None) => write!(f, "0 N"),
            Answer::Whole(value) => write!(f, "0 {value:08x}"),
            Answer::NoNumber => write!(f, "13"),
            Answer::Read(Ok(year), lists) => write!(f, "0 {year:08x}{}", Sum(lists)),
            Answer::Written(Ok(()), bytes) => write!(f, "0{}", Sum(bytes)),
            Answer::Read(Err(why), after) | Answer::Written(Err(why), after) => {
                write!(f, "{}{}", Refused(why), Sum(after))
            }
            Answer::Within => write!(f, "within"),
            Answer::Beyond(component) => write!(f, "beyond {component:?}"),
        }
    }
}
