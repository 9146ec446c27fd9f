// The place of a target in a block of 128 ids, and whether it stands there.

#![tactic(auto)]

ghost use Rattle.std.specs.Prelude.{◌≡◌, ◌+◌, ◌*◌, ◌≤◌, ◌<◌};
ghost use Rattle.block_search.specs.Search.{pivots_below_of, search_block_of, stands_at, CountsSmaller, HitsMember};

// Where a target belongs in a block, and whether it stands there.
#[derive(Clone, Copy, Debug, PartialEq, Eq)]
pub struct Located {
    pub place: usize,
    pub hit: bool,
}

// Of n segments of step elements each, from base on: how many end on an element below the target. A pivot is such an end.
// Branchless; unrolled where n is a constant. By places: `skip`, `step_by` and `take` over the array would say it in more words.
#[tactic(auto, using(crate::proofs::Search::pivots_le, crate::proofs::Search::pivots_more), unfolding(crate::specs::Search::pivots_below_of))]
fn pivots_below(arr: &[u32; 128], target: u32, base: usize, step: usize, n: usize) -> usize
    requires { (0 < step) × (base + n * step ≤ 128) }
    ensures { (result ≡ pivots_below_of arr.now target base step n) × (result ≤ n) }
{
    let mut count = 0;
    for i in 0..n {
        count += usize::from(arr[base + (i + 1) * step - 1] < target);
    }
    count
}

// Whether the target stands at a place; behind the block nothing does.
#[tactic(auto, unfolding(crate::specs::Search::stands_at))]
fn stands(arr: &[u32; 128], target: u32, place: usize) -> bool
    ensures { result ≡ stands_at arr.now target place }
{
    place < 128 && arr[place] == target
}

// The place is the index of the first element that is at least the target, where the elements never fall and the last reaches the
// target. Such a block has the target there or nowhere, so one comparison tells whether it is in it.
// An 8-ary search: 128 -> 16 -> 2 by seven pivots each, then a scan of the two elements left, which are pivots at step 1.
// Inlined by hand, for speed: docs/DECISIONS.md, "Inlined".
// By hand, since the library's `partition_point` halves, and so finds another place in elements that fall, of which `place` speaks too.
#[inline(always)]
pub fn search_block(arr: &[u32; 128], target: u32) -> Located
    ensures place { result.place ≡ search_block_of arr.now target }
    ensures hit { result.hit ≡ stands_at arr.now target result.place }
    ensures counts_smaller { CountsSmaller arr.now target result.place }
    ensures hits_member { HitsMember arr.now target result.hit }
{
    let mut base = pivots_below(arr, target, 0, 16, 7) * 16;
    base += pivots_below(arr, target, base, 2, 7) * 2;
    let place = base + pivots_below(arr, target, base, 1, 2);
    Located {
        place,
        hit: stands(arr, target, place),
    }
}
