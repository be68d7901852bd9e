//! What the dealt blocks are, as a law.
ghost use Rattle.std.specs.Prelude.{◌≡◌, ◌+◌, ◌<◌, ◌≤◌, All, map, flat_map};
ghost use Rattle.std.specs.List.{range_with_len};
ghost use Rattle.std.specs.List.Sorted.{IsStrictlyIncreasing};
ghost use Rattle.work_shares.specs.Cuts.{dealt, positions_of};

/// The law of dealt blocks, which this call states and does nothing for: their positions in order are those below the
/// total, no block is empty, each ends at the total or below, and no two begin at one position.
pub fn deals_cover(total: u64, block: u32)
    requires { 0 < block }
    ensures cover { flat_map positions_of (dealt total block) ≡ range_with_len 0 total }
    ensures some { All (λ one. 0 < one.1) (dealt total block) }
    ensures within { All (λ one. one.0 + one.1 ≤ total) (dealt total block) }
    ensures rising { IsStrictlyIncreasing (map (λ one. one.0) (dealt total block)) }
{}
