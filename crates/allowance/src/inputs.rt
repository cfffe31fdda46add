// What the sums read.
ghost use Rattle.std.specs.Prelude.{◌≤◌, length};
ghost use Rattle.tables.specs.Degree.{N_MAX, degree_of};
ghost use Rattle.lists.specs.Lists.{Long};

use lists::Lists;
use synthesis::{Colatitude, Longitude};

// The pairs of the colatitude and the longitude, the reference radius over the place's own, the years since
// the epoch, and lists of one degree.
#[derive(Clone, Copy)]
pub struct Inputs<'a> {
    pub colatitude: Colatitude,
    pub longitude: Longitude,
    pub ratio: f32,
    pub offset: f32,
    pub lists: Lists<'a>,
    ghost long: { Long lists.g.now lists.h.now lists.g_dot.now lists.h_dot.now },
    ghost low: { degree_of (length lists.g.now) ≤ N_MAX },
}
