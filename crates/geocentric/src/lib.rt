// The geocentric step: from a height and the sine and cosine of a geodetic latitude to the radius and
// the sine and cosine of the colatitude. Each operation is rounded once, in the order of the source.
#![tactic(auto)]

ghost use Rattle.std.specs.Prelude.{◌≡◌};
ghost use Rattle.geocentric.specs.Geo.{wgs84_e2, geocentric_of, ratio_to};

use guess::{near_one, near_radius};

mod guess;

// The ellipsoid WGS 84: the longer half axis, 6378137 m, the flattening, the f32 nearest to
// 1 / 298.257223563, and the first eccentricity squared.
pub const WGS84_A: f32 = f32::from_bits(0x4ac2a532);

pub const WGS84_F: f32 = f32::from_bits(0x3b5bbad4);

pub const WGS84_E2: f32 = f32::from_bits(0x3bdb5c88);

// The reference radius of the model, 6371200 m.
pub const WMM_A: f32 = f32::from_bits(0x4ac26f00);

// The eccentricity squared by the source's formula. Nothing calls it: its contract says that the
// two constants belong together.
#[tactic(auto, using(crate::proofs::Flattening::eccentricity))]
fn eccentricity_squared() -> f32
    ensures { result ≡ wgs84_e2 }
{
    WGS84_F * (2.0 - WGS84_F)
}

// A place as the model sees it: metres from the earth's centre, and the colatitude.
#[derive(Clone, Copy)]
pub struct Geocentric {
    pub r: f32,
    pub cos_theta: f32,
    pub sin_theta: f32,
}

// The place at a height in metres over the ellipsoid, and a geodetic latitude.
pub fn geodetic_to_geocentric(height: f32, sin_phi: f32, cos_phi: f32) -> Geocentric
    ensures { result ≡ geocentric_of height sin_phi cos_phi }
{
    let w = 1.0 - WGS84_E2 * sin_phi * sin_phi;
    let r_c = WGS84_A / roots::sqrt_by_guess(w, near_one(w));
    let p = (r_c + height) * cos_phi;
    let z = (r_c * (1.0 - WGS84_E2) + height) * sin_phi;
    let r_squared = p * p + z * z;
    let r = roots::sqrt_by_guess(r_squared, near_radius(r_squared));
    Geocentric {
        r,
        cos_theta: z / r,
        sin_theta: p / r,
    }
}

// The reference radius over the place's own: what the powers of the sum are taken of.
pub fn radius_ratio(r: f32) -> f32
    ensures { result ≡ ratio_to r }
{
    WMM_A / r
}
