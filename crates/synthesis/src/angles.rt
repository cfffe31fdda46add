// Sines and cosines of multiples of the longitude.
ghost use Rattle.std.specs.Prelude.{◌≡◌, ◌<◌};
ghost use Rattle.tables.specs.Degree.{M_LEN};
ghost use Rattle.synthesis.specs.Code.{angles_of, sin_cos_of};

use crate::{Longitude, M_LEN};

// The pair of one order.
#[derive(Clone, Copy)]
pub struct SinCos {
    pub sin: f32,
    pub cos: f32,
}

// The pairs of all orders, the sines and the cosines apart: four of each are then read as one.
#[derive(Clone, Copy)]
pub struct Angles {
    pub sin: [f32; M_LEN],
    pub cos: [f32; M_LEN],
}

impl Angles {
    pub fn at(&self, m: usize) -> SinCos
        requires { m < M_LEN }
        ensures { result ≡ sin_cos_of self.now m }
    {
        SinCos {
            sin: self.sin[m],
            cos: self.cos[m],
        }
    }
}

pub fn sin_cos_m_lambda(longitude: Longitude) -> Angles
    ensures { result ≡ angles_of longitude.sin longitude.cos }
{
    let mut sin = [0.0f32; M_LEN];
    let mut cos = [0.0f32; M_LEN];
    cos[0] = 1.0;
    for m in 1..M_LEN {
        let a = sin[m - 1];
        let b = cos[m - 1];
        sin[m] = a * longitude.cos + b * longitude.sin;
        cos[m] = b * longitude.cos - a * longitude.sin;
    }
    Angles { sin, cos }
}
