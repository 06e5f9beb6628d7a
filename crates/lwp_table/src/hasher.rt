//! A hasher for numbers, and the index that hashes by it.

ghost use Rattle.lwp_table.specs.Hash.{written, finished};

use indexmap::IndexMap;
use std::hash::{BuildHasherDefault, Hasher};

/// What each number leads to.
pub type NumberIndex<V> = IndexMap<u32, V, BuildHasherDefault<NumberHasher>>;

/// Hashes a number by one product.
///
/// An index takes a hash's group from its low bits, and its tag from its highest byte. So the product is turned: then
/// dense numbers, and the same offsets in many users' blocks, spread evenly over the groups.
#[derive(Clone, Copy, Drop)]
pub struct NumberHasher {
    pub number: u32,
}

impl Default for NumberHasher {
    fn default() -> NumberHasher {
        NumberHasher { number: 0 }
    }
}

impl Hasher for NumberHasher {
    ghost write = { written };

    ghost finish = { finished };

    #[inline(always)]
    fn finish(&self) -> u64 {
        self.number.wrapping_mul(0x9E37_79B1).rotate_left(8) as u64
    }

    #[inline(always)]
    fn write(&mut self, bytes: &[u8]) {
        if bytes.len() == 4 {
            self.number = u32::from_le_bytes([bytes[0], bytes[1], bytes[2], bytes[3]]);
        }
    }
}
