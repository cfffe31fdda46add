// The answers to questions: only here is the library asked.
use crate::answer::{Answer, Strengths};
use crate::hash;
use crate::published::compared;
use crate::question::Question;
use crate::sets::Sets;
use field::Place;
use lists::{CoefficientSet, Lists};
use refusals::Refusal;
use strengths::GeomagneticField;
use synthesis::{Colatitude, Xyz};
use tables::N_COEFF;
use trig::Pair;

fn strengths(v: GeomagneticField) -> Result<Strengths, Refusal> {
    Ok(Strengths {
        h: v.h()?,
        f: v.f()?,
        zone: v.declination_warning()?,
        uncertainty_2020: v.declination_uncertainty(2020)?,
        uncertainty_2025: v.declination_uncertainty(2025)?,
    })
}

// A date that is no whole day: the modules, with the offset that is given.
fn at_offset(place: Place, offset: f32, lists: Lists<'_>) -> Result<Xyz, Refusal> {
    let latitude = place.latitude;
    let p = geocentric::geodetic_to_geocentric(place.height, latitude.sin, latitude.cos);
    let colatitude = Colatitude {
        cos: p.cos_theta,
        sin: p.sin_theta,
    };
    let ratio = geocentric::radius_ratio(p.r);
    let v = synthesis::sum(colatitude, place.longitude, ratio, offset, lists)?;
    Ok(field::turn(v, p, latitude))
}

// What a list holds before a set is read: the largest finite f32, so that a refusal which wrote it shows.
const UNREAD: [f32; N_COEFF] = [f32::MAX; N_COEFF];

// A reader of sets, asked with four lists.
fn read_by<F>(read: F) -> Answer
where
    F: FnOnce(&mut [f32], &mut [f32], &mut [f32], &mut [f32]) -> Result<i32, Refusal>,
    requires { F.IsAlwaysCallable read }
{
    let mut g = UNREAD;
    let mut h = UNREAD;
    let mut g_dot = UNREAD;
    let mut h_dot = UNREAD;
    let epoch_year = read(&mut g, &mut h, &mut g_dot, &mut h_dot);
    Answer::Read(epoch_year, hash::of_lists(&[g, h, g_dot, h_dot]))
}

fn read_file(text: &[u8]) -> Answer {
    read_by(|g, h, g_dot, h_dot| agency::read(text, g, h, g_dot, h_dot))
}

fn read_stored(bytes: &[u8]) -> Answer {
    read_by(|g, h, g_dot, h_dot| stored::read(bytes, g, h, g_dot, h_dot))
}

fn write_stored(set: CoefficientSet<'_>, bytes: &mut [u8]) -> Answer {
    let outcome = stored::write(set, bytes);
    Answer::Written(outcome, hash::of_bytes(bytes))
}

fn number(word: &[u8]) -> Answer {
    text::read_number(word).map_or(Answer::NoNumber, Answer::Value)
}

fn whole(word: &[u8]) -> Answer {
    text::read_whole(word).map_or(Answer::NoNumber, Answer::Whole)
}

pub fn answer(question: Question, sets: &Sets) -> Result<Answer, Refusal> {
    let set = sets.first.lent();
    Ok(match question {
        Question::Sum {
            colatitude,
            longitude,
            ratio,
            offset,
        } => Answer::Components(synthesis::sum(colatitude, longitude, ratio, offset, set.lists)?),
        Question::Field(place, day) => Answer::Field(field::field(place, day, set)?),
        Question::Epoch(day) => Answer::Epoch(models::epoch(day)?),
        Question::Strengths(v) => Answer::Strengths(strengths(v)?),
        Question::GridVariation {
            latitude,
            longitude,
            declination,
        } => Answer::GridVariation(strengths::grid_variation(latitude, longitude, declination)?),
        Question::Root(x) => Answer::Value(roots::square_root(x)?),
        Question::OnDay {
            place,
            day,
            published,
        } => {
            let GeomagneticField { x, y, z, .. } = field::field(place, day, set)?;
            compared(Xyz { x, y, z }, published)
        }
        Question::AtOffset {
            place,
            offset,
            published,
        } => compared(at_offset(place, offset, set.lists)?, published),
        Question::Number(word) => number(word),
        Question::Whole(word) => whole(word),
        Question::File(text) => read_file(&text),
        Question::FieldListed {
            place,
            day,
            records,
        } => Answer::Field(field::field_listed(place, day, set, &records)?),
        Question::UncertaintyListed {
            components,
            epoch_year,
            records,
        } => Answer::Value(components.declination_uncertainty_listed(&records, epoch_year)?),
        Question::SineAndCosine(x) => {
            let Pair { sine, cosine } = trig::sine_and_cosine(x)?;
            Answer::Pair(sine, cosine)
        }
        Question::Declination { x, y } => Answer::Value(strengths::declination(x, y)?),
        Question::Directions(v) => Answer::Pair(v.declination()?, v.inclination()?),
        Question::FieldInDegrees {
            height,
            latitude,
            longitude,
            day,
        } => Answer::Field(degrees::field_in_degrees(height, latitude, longitude, day, set)?),
        Question::StoredRead(bytes) => read_stored(&bytes),
        Question::StoredWrite(mut bytes) => write_stored(set, &mut bytes),
        Question::Rates(place, day) => Answer::Rates(rates::rates(place, day, set)?),
        Question::Igrf(place, day) => {
            Answer::Components(igrf::igrf(place, day, set, sets.second.lent_second())?)
        }
        Question::IgrfRates(place, day) => {
            Answer::Rates(rates::igrf_rates(place, day, set, sets.second.lent_second())?)
        }
    })
}
