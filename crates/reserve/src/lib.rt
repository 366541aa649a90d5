// How much room to reserve for a record, before its slots are looked at: the refusals, and the number of bytes.
#![tactic(auto)]

ghost use Rattle.std.specs.Prelude.{◌≡◌, ◌-◌, ◌≤◌, ◌<◌};
ghost use Rattle.paper.specs.Refusal.{verdict};
ghost use Rattle.paper.specs.Fault.{fault};
ghost use Rattle.paper.specs.Reserve.{most_bytes, bound_fault};

use frame::check_sizes;
use paper::refusal::Fault;
use record::ceil;

// The refusals: 4 of u and B, 15, 13. (13 is judged last, for the slots above a cut are u - cut only where the cut is within u.)
#[tactic(auto, using(laws::proofs::Links::bound_links), unfolding(paper::specs::Reserve::bound_fault))]
pub fn check_bound(u: u32, block: u32, cut: u32, n: u32) -> Result<(), Fault>
    ensures { verdict (fault result) 0 ≡ bound_fault u block cut n }
{
    check_sizes(u, block)?;
    if u < cut {
        return Err(Fault::Cut);
    }
    if u - cut < n {
        return Err(Fault::Rising);
    }
    Ok(())
}

// The most bytes that a record can need whose n slots above the cut go into m blocks. Every slot that begins no block has a code of at least one byte. A
// second byte is only for a gap of 129 or more, and a third for one of 16,385 or more; all gaps together are at most the slots above the cut. The sum is taken in 64 bits,
// and fits a u32: it is never above 8,396,811.
#[tactic(auto, using(crate::proofs::Sums::most_is))]
pub fn most_bytes(u: u32, block: u32, cut: u32, n: u32) -> u32
    requires { (u ≤ 1048576) × (0 < block) × (cut ≤ u) × (n ≤ u - cut) }
    ensures { result ≡ most_bytes u block cut n }
{
    let bits = ceil(cut, 8);
    let m = ceil(n, block);
    let codes = n as usize - m;
    let above = (u - cut) as usize;
    let bytes = 12 + bits + 8 * m + codes + above / 129 + above / 16385;
    bytes as u32
}
