// The sine and the cosine of an angle, and the declination of two components.
ghost use Rattle.std.specs.Prelude.{◌≡◌};
ghost use Rattle.trig.specs.Fixed.{sine_says};
ghost use Rattle.strengths.specs.Angles.{declination_says};
ghost use Rattle.ffi.specs.Told.{number_of, result_place, itself, sine_of, cosine_of};

use crate::tell::tell;

#[unsafe(no_mangle)]
pub extern "C" fn njerumoy_sine_and_cosine(degrees: f32, sine: &mut f32, cosine: &mut f32) -> u32
    ensures { let p = sine_says degrees in
        (result ≡ number_of p) × (sine.new ≡ result_place sine_of sine.old p) × (cosine.new ≡ result_place cosine_of cosine.old p) }
{
    let answer = trig::sine_and_cosine(degrees);
    tell(answer.map(|p| p.sine), sine);
    tell(answer.map(|p| p.cosine), cosine)
}

#[unsafe(no_mangle)]
pub extern "C" fn njerumoy_declination(x: f32, y: f32, declination: &mut f32) -> u32
    ensures { let p = declination_says x y in
        (result ≡ number_of p) × (declination.new ≡ result_place itself declination.old p) }
{
    tell(strengths::declination(x, y), declination)
}
