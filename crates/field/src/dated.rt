// X, Y and Z of lists at a place and a date: Sum's, in geodetic axes.
ghost use Rattle.std.specs.Prelude.{◌≡◌};
ghost use Rattle.refusals.specs.Paper.{said};
ghost use Rattle.synthesis.specs.Sum.{sum_says, uncapped_says};
ghost use Rattle.field.specs.Dated.{xyz_by};

use crate::{Place, turn};
use geocentric::{geodetic_to_geocentric, radius_ratio};
use lists::Lists;
use refusals::Refusal;
use synthesis::{Colatitude, Xyz};

// Sum looks at the caps.
pub(crate) fn xyz(place: Place, offset: f32, lists: Lists<'_>) -> Result<Xyz, Refusal>
    ensures { said result ≡ xyz_by sum_says place offset lists.entry }
{
    let p = geodetic_to_geocentric(place.height, place.latitude.sin, place.latitude.cos);
    let colatitude = Colatitude {
        cos: p.cos_theta,
        sin: p.sin_theta,
    };
    let v = synthesis::sum(
        colatitude,
        place.longitude,
        radius_ratio(p.r),
        offset,
        lists,
    )?;
    Ok(turn(v, p, place.latitude))
}

// The same without refusal 7, whatever the entries are: for a caller who has looked at them already.
pub fn xyz_uncapped(place: Place, offset: f32, lists: Lists<'_>) -> Result<Xyz, Refusal>
    ensures answer { said result ≡ xyz_by uncapped_says place offset lists.entry }
    ensures kept { lists.exit ≡ lists.entry }
{
    let p = geodetic_to_geocentric(place.height, place.latitude.sin, place.latitude.cos);
    let colatitude = Colatitude {
        cos: p.cos_theta,
        sin: p.sin_theta,
    };
    let v = synthesis::sum_uncapped(
        colatitude,
        place.longitude,
        radius_ratio(p.r),
        offset,
        lists,
    )?;
    Ok(turn(v, p, place.latitude))
}
