// Sum.
ghost use Rattle.std.specs.Prelude.{◌≡◌};
ghost use Rattle.synthesis.specs.Sum.{lent, sum_says};
ghost use Rattle.ffi.specs.Told.{number_of, result_place, entry_place, sum_floats};

use crate::tell::{note_entry, tell};
use lists::Lists;
use synthesis::{Colatitude, Longitude, Xyz};

// X', Y' and Z'.
fn sum_floats(v: Xyz) -> [f32; 3]
    ensures { result ≡ sum_floats v }
{
    [v.x, v.y, v.z]
}

#[unsafe(no_mangle)]
pub extern "C" fn njerumoy_sum(
    cos_theta: f32,
    sin_theta: f32,
    sin_lambda: f32,
    cos_lambda: f32,
    ratio: f32,
    offset: f32,
    g: &[f32],
    h: &[f32],
    g_dot: &[f32],
    h_dot: &[f32],
    xyz: &mut [f32; 3],
    entry: &mut [usize; 2],
) -> u32
    ensures answer { let p = sum_says (lent cos_theta sin_theta sin_lambda cos_lambda ratio offset g.now h.now g_dot.now h_dot.now) in
        (result ≡ number_of p) × (xyz.new ≡ result_place sum_floats xyz.old p) × (entry.new ≡ entry_place entry.old p) }
    ensures kept { (g.exit.now ≡ g.entry.now) × (h.exit.now ≡ h.entry.now) × (g_dot.exit.now ≡ g_dot.entry.now) × (h_dot.exit.now ≡ h_dot.entry.now) }
{
    let colatitude = Colatitude {
        cos: cos_theta,
        sin: sin_theta,
    };
    let longitude = Longitude {
        sin: sin_lambda,
        cos: cos_lambda,
    };
    let lists = Lists { g, h, g_dot, h_dot };
    let answer = synthesis::sum(colatitude, longitude, ratio, offset, lists);
    note_entry(answer, entry);
    tell(answer.map(sum_floats), xyz)
}
