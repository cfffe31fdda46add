// What a call lends, as the library's own values.
ghost use Rattle.std.specs.Prelude.{◌≡◌};

use field::{Latitude, Place};
use lists::{CoefficientSet, Lists};
use synthesis::Longitude;

// The height, and the pairs of the latitude and of the longitude.
pub fn place(height: f32, sin_phi: f32, cos_phi: f32, sin_lambda: f32, cos_lambda: f32) -> Place
    ensures { result ≡ record { height = height; latitude = record { sin = sin_phi; cos = cos_phi }; longitude = record { sin = sin_lambda; cos = cos_lambda } } }
{
    Place {
        height,
        latitude: Latitude {
            sin: sin_phi,
            cos: cos_phi,
        },
        longitude: Longitude {
            sin: sin_lambda,
            cos: cos_lambda,
        },
    }
}

// The epoch year and the four lists.
pub fn set<'a>(
    epoch_year: i32,
    g: &'a [f32],
    h: &'a [f32],
    g_dot: &'a [f32],
    h_dot: &'a [f32],
) -> CoefficientSet<'a>
    ensures { result ≡ record { epoch_year = epoch_year; lists = record { g = g.entry; h = h.entry; g_dot = g_dot.entry; h_dot = h_dot.entry } } }
{
    CoefficientSet {
        epoch_year,
        lists: Lists { g, h, g_dot, h_dot },
    }
}
