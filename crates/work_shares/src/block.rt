//! Blocks of positions, and how a total is cut into them.
ghost use Rattle.std.specs.Prelude.{◌≡◌, ◌+◌, ◌^◌, ◌<◌, ◌≤◌};
ghost use Rattle.work_shares.specs.Cuts.{block_count};

/// The positions from `first` on, `count` of them.
#[derive(Clone, Copy, PartialEq, Eq, Debug)]
pub struct Block {
    /// Its first position.
    pub first: u64,
    /// How many positions it has.
    pub count: u32,
    /// Its end is a number of 64 bits.
    pub ghost fits: { first + count < 2 ^ 64 },
}

/// Positions below `total` in blocks of `size`, the last one shorter where needed.
#[derive(Clone, Copy)]
pub struct Cut {
    /// How many positions there are.
    pub total: u64,
    /// How many positions a block has, but the last one.
    pub size: u32,
    pub ghost some: { 0 < size },
    pub ghost few: { block_count total size ≤ 2 ^ 24 },
}

impl Cut {
    ghost use Rattle.work_shares.specs.Cuts.{block_at};
    ghost use Rattle.work_shares.specs.Blocks.{extent_of};

    /// How many blocks there are.
    pub fn count(self) -> u32
        ensures { result ≡ block_count self.total self.size }
    {
        self.total.div_ceil(u64::from(self.size)) as u32
    }

    /// The block of a number.
    pub fn block(self, number: u32) -> Block
        requires { number < block_count self.total self.size }
        ensures { extent_of result ≡ block_at self.total self.size number }
    {
        let first = u64::from(number) * u64::from(self.size);
        let left = self.total - first;
        Block {
            first,
            count: left.min(u64::from(self.size)) as u32,
        }
    }
}
