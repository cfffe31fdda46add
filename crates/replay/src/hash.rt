// The sum of floats or bytes, which an answer has in their place: the hash FNV-1a, taken by whole parts.
const START: u64 = 0xcbf2_9ce4_8422_2325;

const PRIME: u64 = 0x100_0000_01b3;

fn joined(sum: u64, part: u32) -> u64 {
    (sum ^ u64::from(part)).wrapping_mul(PRIME)
}

pub fn of_bytes(bytes: &[u8]) -> u64 {
    bytes
        .iter()
        .fold(START, |sum, byte| joined(sum, u32::from(*byte)))
}

// Of several lists, one after the other.
pub fn of_lists<const N: usize>(lists: &[[f32; N]]) -> u64 {
    let mut sum = START;
    for list in lists {
        for x in list {
            sum = joined(sum, float32::to_bits(*x));
        }
    }
    sum
}
