// A place, and its checks: refusals 1, 2 and 3.
ghost use Rattle.std.specs.Prelude.{◌≡◌};
ghost use Rattle.field.specs.Field.{place_verdict};

use refusals::{Refusal, Verdict};
use synthesis::Longitude;

// The pair of the geodetic latitude.
#[derive(Clone, Copy)]
pub struct Latitude {
    pub sin: f32,
    pub cos: f32,
}

// The height above the ellipsoid in metres, and the pairs of the geodetic latitude and of the longitude.
#[derive(Clone, Copy)]
pub struct Place {
    pub height: f32,
    pub latitude: Latitude,
    pub longitude: Longitude,
}

// The lowest height is minus this.
const MAX_DEPTH_M: f32 = 1000.0;

const MAX_HEIGHT_M: f32 = 850000.0;

// How far below zero a latitude's cosine may lie: the f32 cosine of 90 degrees is about -4.37e-8.
const BEYOND_POLE: f32 = f32::from_bits(0x35800000);

impl Place {
    #[tactic(auto, unfolding(crate::specs::Field::place_verdict))]
    pub fn check(self) -> Verdict
        ensures { result ≡ place_verdict self.height self.latitude.sin self.latitude.cos self.longitude.sin self.longitude.cos }
    {
        if float32::outside(self.height, -MAX_DEPTH_M, MAX_HEIGHT_M) {
            return Err(Refusal::Height {
                min_km: -1.0,
                max_km: 850.0,
            });
        }
        if float32::off_circle(self.latitude.sin, self.latitude.cos) {
            return Err(Refusal::Latitude);
        }
        if !(-BEYOND_POLE <= self.latitude.cos) {
            return Err(Refusal::Latitude);
        }
        if float32::off_circle(self.longitude.sin, self.longitude.cos) {
            return Err(Refusal::Longitude);
        }
        Ok(())
    }
}
