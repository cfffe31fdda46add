// Sines and cosines of multiples of the longitude, as bounds.
ghost use Rattle.std.specs.Prelude.{◌≡◌};
ghost use Rattle.sums.specs.Recurrence.{angle};
ghost use Rattle.bounds.specs.Bounds.{bounds};
ghost use Rattle.allowance.specs.Code.{sin_cos};

use synthesis::{Longitude, SinCos};

pub fn sin_cos_m_lambda(m: usize, longitude: Longitude) -> SinCos
    ensures { result ≡ sin_cos (angle bounds longitude.sin longitude.cos m) }
{
    let s = float32::abs(longitude.sin);
    let c = float32::abs(longitude.cos);
    let mut sin = 0.0f32;
    let mut cos = 1.0f32;
    for _ in 0..m {
        let a = sin;
        let b = cos;
        sin = a * c + b * s;
        cos = b * c + a * s;
    }
    SinCos { sin, cos }
}
