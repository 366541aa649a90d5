// A record without a fault, opened: its bytes together with where its parts lie, so that what looking has found out of it goes with it.
#![tactic(auto)]

ghost use Rattle.std.specs.Prelude.{◌≡◌, ◌*◌, ◌≤◌, ◌<◌, [], length, get_or};
ghost use Rattle.paper.specs.Record.{bits_of, codes_of, behind_bits, code_length, tail_of, record_fault};
ghost use Rattle.paper.specs.Held.{listed};
ghost use Rattle.record.specs.Opened.{Opened, PartOf, block_slots};

use crate::{Parts, block_end, ceil, slots_in};
use codes::Block;
use words::u32_at;

// The bytes of a record that has no fault, and its parts.
#[derive(Clone, Copy)]
pub struct Held<'a> {
    pub rec: &'a [u8],
    pub parts: Parts,
    pub ghost opened: { Opened parts.u parts.block rec.now parts },
}

impl<'a> Held<'a> {
    // Opens it. The one division by the block length is done here, once for each list.
    #[tactic(auto, using(crate::proofs::Opening::opens))]
    pub fn open(rec: &'a [u8], u: u32, block: u32) -> Held<'a>
        requires { (record_fault u block (length rec.now) rec.now ≡ 0) × (0 < block) × (u ≤ 1048576) }
        ensures { (result.rec.now ≡ rec.entry.now) × (result.parts.u ≡ u) × (result.parts.block ≡ block) }
    {
        let cut = u32_at(rec, 0);
        let n = u32_at(rec, 4);
        let m = ceil(n, block);
        let from = 12 + ceil(cut, 8);
        let to = from + 8 * m;
        let parts = Parts {
            u,
            block,
            cut,
            n,
            m,
            from,
            to,
        };
        Held { rec, parts }
    }

    // Its bits, which reach up to the cut.
    #[tactic(auto, using(crate::proofs::Opening::bits_are, crate::proofs::Opening::bits_hold))]
    pub fn bits(&self) -> &'a [u8]
        ensures { (result.now ≡ bits_of self.now.rec.now) × (self.now.parts.cut ≤ 8 * length result.now) }
    {
        &self.rec[12..self.parts.from]
    }

    // Its skip entries.
    #[tactic(auto, using(crate::proofs::Opening::entries_listed, crate::proofs::Opening::entries_long))]
    pub fn entries(&self) -> &'a [u8]
        ensures { (result.now ≡ (listed self.now.parts.u self.now.parts.block self.now.rec.now).entries) × (length result.now ≡ 8 * self.now.parts.m) }
    {
        &self.rec[self.parts.from..self.parts.to]
    }

    // Its code bytes.
    #[tactic(auto, using(crate::proofs::Opening::codes_are, crate::proofs::Opening::codes_long))]
    fn codes(&self) -> &'a [u8]
        ensures { (result.now ≡ codes_of self.now.parts.m (behind_bits self.now.rec.now)) × (length result.now ≡ code_length self.now.rec.now) }
    {
        &self.rec[self.parts.to..]
    }

    // Block `nth`, counted from 0. Its codes are a part of the record itself.
    // Kept: which block is asked for as a number with a bound, here and in `marks`. The numbers come out of ranges over m, and in `search::in_block` out of the search, which leads to no
    // block past m; a type for them would say no more.
    #[tactic(auto, using(crate::proofs::Opening::blocks_stand))]
    pub fn block(&self, nth: usize) -> Block<'a>
        requires { nth < self.now.parts.m }
        ensures { let h = self.now in (get_or (tail_of h.parts.u h.parts.block h.rec.now).blocks nth [] ≡ block_slots result) × (result.u ≡ h.parts.u)
            × PartOf result.codes.now h.rec.now }
    {
        let entries = self.entries();
        let codes = self.codes();
        let at = 8 * nth;
        let first = u32_at(entries, at);
        let start = u32_at(entries, at + 4) as usize;
        let end = block_end(entries, codes.len(), self.parts.m - nth, at);
        let size = slots_in(self.parts.n, self.parts.block, nth);
        Block {
            codes: &codes[start..end],
            count: size - 1,
            first,
            u: self.parts.u,
        }
    }
}
