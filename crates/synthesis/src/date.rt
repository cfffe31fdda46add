// Coefficients at a date.
ghost use Rattle.std.specs.Prelude.{◌≡◌, ◌+◌};
ghost use Rattle.sums.specs.Arithmetic.{rounded};
ghost use Rattle.sums.specs.Recurrence.{coefficient};
ghost use Rattle.synthesis.specs.Code.{Reach, gh_at};

use lists::Lists;

// Two coefficients of one degree and order.
#[derive(Clone, Copy)]
pub struct Gh {
    pub g: f32,
    pub h: f32,
}

// Lent lists, and the years from their epoch to a date.
#[derive(Clone, Copy)]
pub struct Dated<'a> {
    pub lists: Lists<'a>,
    pub offset: f32,
}

#[tactic(auto, unfolding(sums::specs::Arithmetic::rounded))]
fn coeff_at_t(main: f32, secular: f32, offset: f32) -> f32
    ensures { result ≡ coefficient rounded main secular offset }
{
    main + offset * secular
}

impl<'a> Dated<'a> {
    // The coefficients at place i of their lists.
    pub fn at(self, i: usize) -> Gh
        requires { Reach (i + 1) self.lists }
        ensures { result ≡ gh_at self.entry i }
    {
        let l = self.lists;
        Gh {
            g: coeff_at_t(l.g[i], l.g_dot[i], self.offset),
            h: coeff_at_t(l.h[i], l.h_dot[i], self.offset),
        }
    }
}
