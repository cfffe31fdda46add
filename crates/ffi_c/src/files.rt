// Reading a coefficient file.
ghost use Rattle.std.specs.Prelude.{◌≡◌};
ghost use Rattle.lists.specs.Sets.{lists_of};
ghost use Rattle.agency.specs.Cof.{read_of};
ghost use Rattle.ffi.specs.Told.{number_of, result_place, entry_place, where_place, whole};

#[unsafe(no_mangle)]
pub extern "C" fn njerumoy_read_cof(
    text: &[u8],
    g: &mut [f32],
    h: &mut [f32],
    g_dot: &mut [f32],
    h_dot: &mut [f32],
    epoch_year: &mut i32,
    entry: &mut [usize; 2],
    line: &mut usize,
) -> u32
    ensures answer { let s = read_of text.now (lists_of g.old h.old g_dot.old h_dot.old) in
        (result ≡ number_of s.says) × (lists_of g.new h.new g_dot.new h_dot.new ≡ s.lists)
        × (epoch_year.new ≡ result_place whole epoch_year.old s.says)
        × (entry.new ≡ entry_place entry.old s.says) × (line.new ≡ where_place line.old s.says) }
    ensures kept { text.exit.now ≡ text.entry.now }
{
    ffi::njerumoy_read_cof(text, g, h, g_dot, h_dot, epoch_year, entry, line)
}
