//! Numbers that look random (splitmix64, Steele et al. 2014), and triangles of them.

/// A source of numbers.
#[derive(Drop)]
pub(crate) struct Random {
    pub(crate) state: u64,
}

impl Random {
    /// The next number.
    pub(crate) fn next(&mut self) -> u64 {
        self.state = self.state.wrapping_add(0x9e37_79b9_7f4a_7c15);
        let mut z = self.state;
        z = (z ^ (z >> 30)).wrapping_mul(0xbf58_476d_1ce4_e5b9);
        z = (z ^ (z >> 27)).wrapping_mul(0x94d0_49bb_1331_11eb);
        z ^ (z >> 31)
    }

    /// A number that is at most `size` away from `z`.
    fn near(&mut self, z: i32, size: u32) -> i32 {
        let width = u64::from(size) * 2 + 1;
        let distance = (self.next() % width) as i64 - i64::from(size);
        (i64::from(z) + distance).clamp(-8_388_608, 8_388_607) as i32
    }

    /// A point that is at most `size` away from another one in x and in y.
    pub(crate) fn point(&mut self, (x, y): (i32, i32), size: u32) -> (i32, i32) {
        (self.near(x, size), self.near(y, size))
    }

    /// A depth of 32 bits, often at one of the ends.
    pub(crate) fn depth(&mut self) -> u32 {
        let most = u32::MAX;
        let low = (self.next() % 3) as u32;
        match self.next() % 6 {
            0 => low,
            1 => most - low,
            2 => (1 << 31) - 1 + low,
            _ => (self.next() >> 32) as u32,
        }
    }
}
