// Schmidt's factors, a table at place n(n+1)/2 + m, and the recurrence factors K, each by a division.
// A caller takes the table once and reads it in its loop: each use of a `const` array writes all its
// elements anew.
#![tactic(auto)]

ghost use Rattle.std.specs.Prelude.{◌≡◌};
ghost use Rattle.tables.specs.Degree.{degree_of};
ghost use Rattle.tables.specs.Tables.{schmidt_table};
ghost use Rattle.tables.specs.Division.{at_least_zero, k_divided, k_divisor, k_over};

// The highest degree, that of IGRF; and the degree of the WMM.
pub const N_MAX: usize = 13;

pub const WMM_MAX: usize = 12;

pub const N_LEGENDRE: usize = (N_MAX + 1) * (N_MAX + 2) / 2;

// The entries of a list of coefficients, the places of degree 1 and up: of the longer list, and of the
// WMM's.
pub const N_COEFF_MAX: usize = N_MAX * (N_MAX + 3) / 2;

pub const N_COEFF: usize = WMM_MAX * (WMM_MAX + 3) / 2;

// Schmidt semi-normalization factors, by their bits: as in the source up to degree 12, the nearest in
// degree 13.
const SCHMIDT_SEMI_NORM: [f32; N_LEGENDRE] = [
    f32::from_bits(0x3f800000),
    f32::from_bits(0x3f800000),
    f32::from_bits(0x3f800000),
    f32::from_bits(0x3fc00000),
    f32::from_bits(0x3fddb3d7),
    f32::from_bits(0x3f5db3d7),
    f32::from_bits(0x40200000),
    f32::from_bits(0x4043f58d),
    f32::from_bits(0x3ff7def6),
    f32::from_bits(0x3f4a62c3),
    f32::from_bits(0x408c0000),
    f32::from_bits(0x40b1166a),
    f32::from_bits(0x407a708b),
    f32::from_bits(0x4005dd98),
    f32::from_bits(0x3f3d5086),
    f32::from_bits(0x40fc0000),
    f32::from_bits(0x4122aa51),
    f32::from_bits(0x40f5ed43),
    f32::from_bits(0x4096994b),
    f32::from_bits(0x400dfc65),
    f32::from_bits(0x3f33997c),
    f32::from_bits(0x41670000),
    f32::from_bits(0x41973999),
    f32::from_bits(0x416f1b93),
    f32::from_bits(0x411f67b8),
    f32::from_bits(0x40ae9e9e),
    f32::from_bits(0x4014ea85),
    f32::from_bits(0x3f2bf418),
    f32::from_bits(0x41d68000),
    f32::from_bits(0x420de0df),
    f32::from_bits(0x41e7afbc),
    f32::from_bits(0x41a3d3bb),
    f32::from_bits(0x41459538),
    f32::from_bits(0x40c59538),
    f32::from_bits(0x401aff2c),
    f32::from_bits(0x3f25b2d1),
    f32::from_bits(0x42491800),
    f32::from_bits(0x42861000),
    f32::from_bits(0x42605458),
    f32::from_bits(0x4225ada4),
    f32::from_bits(0x41d5e3c6),
    f32::from_bits(0x416d4a14),
    f32::from_bits(0x40dbaff1),
    f32::from_bits(0x40206fd9),
    f32::from_bits(0x3f206fd9),
    f32::from_bits(0x42bdec00),
    f32::from_bits(0x42fece92),
    f32::from_bits(0x42d94cd1),
    f32::from_bits(0x42a5f736),
    f32::from_bits(0x426180c1),
    f32::from_bits(0x4206c387),
    f32::from_bits(0x418b2ef5),
    f32::from_bits(0x40f112a0),
    f32::from_bits(0x40255fe2),
    f32::from_bits(0x3f1beaa7),
    f32::from_bits(0x43346d00),
    f32::from_bits(0x4373493d),
    f32::from_bits(0x4352b122),
    f32::from_bits(0x432547c5),
    f32::from_bits(0x42e9bde1),
    f32::from_bits(0x4293d4cc),
    f32::from_bits(0x422547c5),
    f32::from_bits(0x41a05872),
    f32::from_bits(0x4102ebeb),
    f32::from_bits(0x4029e7ff),
    f32::from_bits(0x3f17f800),
    f32::from_bits(0x43ac3980),
    f32::from_bits(0x43e93177),
    f32::from_bits(0x43cc8624),
    f32::from_bits(0x43a3fbe8),
    f32::from_bits(0x436f8395),
    f32::from_bits(0x431e6c72),
    f32::from_bits(0x42bc3c3d),
    f32::from_bits(0x42466add),
    f32::from_bits(0x41b61490),
    f32::from_bits(0x410d09f0),
    f32::from_bits(0x402e1a24),
    f32::from_bits(0x3f14798b),
    f32::from_bits(0x44250c70),
    f32::from_bits(0x446041c2),
    f32::from_bits(0x4446c84f),
    f32::from_bits(0x44224e22),
    f32::from_bits(0x43f37533),
    f32::from_bits(0x43a702bc),
    f32::from_bits(0x43504c85),
    f32::from_bits(0x42ea1b95),
    f32::from_bits(0x426a1b95),
    f32::from_bits(0x41cc5893),
    f32::from_bits(0x4116eb65),
    f32::from_bits(0x403203d3),
    f32::from_bits(0x3f11593d),
    f32::from_bits(0x449eb358),
    f32::from_bits(0x44d845bd),
    f32::from_bits(0x44c1709f),
    f32::from_bits(0x44a06454),
    f32::from_bits(0x447607ac),
    f32::from_bits(0x442df82e),
    f32::from_bits(0x43e1c5c8),
    f32::from_bits(0x438591a1),
    f32::from_bits(0x430eca87),
    f32::from_bits(0x4288255f),
    f32::from_bits(0x41e31b72),
    f32::from_bits(0x412096cc),
    f32::from_bits(0x4035af8e),
    f32::from_bits(0x3f0e86ab),
];

// The degree of a list, by its entries.
#[tactic(auto, unfolding(crate::specs::Degree::degree_of))]
pub fn degree_of(entries: usize) -> usize
    ensures { result ≡ degree_of entries }
{
    if entries == N_COEFF_MAX {
        N_MAX
    } else {
        WMM_MAX
    }
}

#[tactic(auto, unfolding(crate::specs::Tables::schmidt_table, crate::specs::Tables::schmidt_bits))]
pub fn schmidt_table() -> [f32; N_LEGENDRE]
    ensures { result ≡ schmidt_table }
{
    SCHMIDT_SEMI_NORM
}

// x, or +0 where x is not above 0. (std's `max` leaves open which of two zeros it answers.)
#[tactic(auto, unfolding(crate::specs::Division::at_least_zero))]
fn not_below_zero(x: f32) -> f32
    ensures { result ≡ at_least_zero x }
{
    if 0.0 < x { x } else { 0.0 }
}

// (2n - 1)(2n - 3), which is 4(n - 1)^2 - 1. Degree 1 has 1, so that its factors are 0 and not -0.
#[tactic(auto, unfolding(crate::specs::Division::k_divisor))]
fn k_divisor(square: f32) -> f32
    ensures { result ≡ k_divisor square }
{
    if 0.0 < square {
        4.0 * square - 1.0
    } else {
        1.0
    }
}

// K from what a degree has alone, the square of n - 1 and the divisor: the sums look both up once a degree.
#[tactic(auto, unfolding(crate::specs::Division::k_over))]
pub fn legendre_k_over(square: f32, order: f32, divisor: f32) -> f32
    ensures { result ≡ k_over square order divisor }
{
    not_below_zero(square - order * order) / divisor
}

// K, the recurrence factor of order m in degree n, from n - 1 and m as f32: one division of two whole
// numbers. It is made of floats, and its two tests only choose a number, so that four lanes run at once.
#[tactic(auto, unfolding(crate::specs::Division::k_divided))]
pub fn legendre_k(below: f32, order: f32) -> f32
    ensures { result ≡ k_divided below order }
{
    let square = below * below;
    legendre_k_over(square, order, k_divisor(square))
}
