// The library for programs in other languages: each entry on numbers and slices. A call returns the
// refusal's number, 0 for an answer, and writes to a place that was lent for a result only where it
// has that result. None has a `requires`: whatever numbers come, the call ends and says so.
// C has no lifetimes and no `Result`, so places, sets and answers stand flat in the entries alone: `asks`
// makes the library's own values of them, and `tell` writes its answers back.
#![tactic(auto)]

mod angles;
mod asks;
mod days;
mod fields;
mod files;
mod forms;
mod listed;
mod profile;
mod records;
mod sets;
mod sum;
mod tell;
mod yearly;

pub use angles::{njerumoy_declination, njerumoy_sine_and_cosine};
pub use days::njerumoy_epoch;
pub use fields::{
    njerumoy_allowance, njerumoy_field, njerumoy_field_in_degrees, njerumoy_igrf_allowance,
};
pub use files::njerumoy_read_cof;
pub use forms::njerumoy_field_stored_either;
pub use listed::{njerumoy_declination_uncertainty_listed, njerumoy_field_listed};
pub use profile::njerumoy_igrf;
pub use records::{
    njerumoy_declination_uncertainty, njerumoy_field_declination, njerumoy_grid_variation,
    njerumoy_horizontal, njerumoy_inclination, njerumoy_square_root, njerumoy_total, njerumoy_zone,
};
pub use sets::{
    njerumoy_field_stored, njerumoy_read_stored, njerumoy_read_stored_either,
    njerumoy_write_stored, njerumoy_write_stored_either,
};
pub use sum::njerumoy_sum;
pub use yearly::{njerumoy_igrf_rates, njerumoy_rates};
