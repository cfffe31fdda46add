// Where all stands in a stored set. Five fields, each its tag, the length of its content in two bytes,
// and its content. The lists have 90 entries each, or 104.
ghost use Rattle.std.specs.Prelude.{◌≡◌, ◌≤◌};
ghost use Rattle.stored.specs.Fields.{tag_of};
ghost use Rattle.stored.specs.Layout.{LONGER, stored_length};

// Tag and length.
pub const HEAD: usize = 3;

pub const YEAR_LENGTH: usize = 2;

// An entry of a list.
pub const ENTRY: usize = 4;

// Where the second field stands, that of the list g.
pub const G: usize = HEAD + YEAR_LENGTH;

// The fields in their order, by their tags.
#[derive(Clone, Copy)]
pub enum Field {
    EpochYear = 1,
    G = 2,
    H = 3,
    GDot = 4,
    HDot = 5,
}

impl Field {
    pub fn tag(self) -> u8
        ensures { result ≡ tag_of self }
    {
        self as u8
    }
}

// The length of the whole.
pub fn stored_length(entries: usize) -> usize
    requires { «entries» ≤ LONGER }
    ensures { result ≡ stored_length «entries» }
{
    G + 4 * (HEAD + ENTRY * entries)
}
