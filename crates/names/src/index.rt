// An index that looking accepts: what looking has found out of its bytes goes with them.
#![tactic(auto)]

ghost use Rattle.std.specs.Prelude.{◌≡◌, ◌<◌};
ghost use Rattle.paper.specs.Index.{u_of, block_length, k_of, record_of};
ghost use Rattle.paper.specs.Look.{look};
ghost use Rattle.record.specs.Holds.{list_of, slots_of};
ghost use Rattle.names.specs.Asked.{list_named, slots_named};

use frame::{from_end, start_of};
use record::Held;

// The bytes of an index that is accepted.
#[derive(Clone, Copy)]
pub struct Index<'a> {
    pub bytes: &'a [u8],
    pub ghost accepted: { (look bytes.now).number ≡ 0 },
}

#[tactic(auto, using(crate::proofs::Records::trailer_held))]
impl<'a> Index<'a> {
    // Its u: no slot is larger.
    pub fn u(&self) -> u32
        ensures { result ≡ u_of self.now.bytes.now }
    {
        from_end(self.bytes, 20)
    }

    // Its block length.
    pub fn block(&self) -> u32
        ensures { result ≡ block_length self.now.bytes.now }
    {
        from_end(self.bytes, 16)
    }

    // How many lists it has.
    pub fn k(&self) -> u32
        ensures { result ≡ k_of self.now.bytes.now }
    {
        from_end(self.bytes, 12)
    }

    // The record of one name, a part of the index.
    pub fn record(&self, name: u32) -> &'a [u8]
        requires { name < k_of self.now.bytes.now }
        ensures { result.now ≡ record_of self.now.bytes.now name }
    {
        let from = start_of(self.bytes, name as usize);
        let to = start_of(self.bytes, name as usize + 1);
        &self.bytes[from..to]
    }

    // The list of one name, opened.
    pub fn list(&self, name: u32) -> Held<'a>
        requires { name < k_of self.now.bytes.now }
        ensures bytes { result.rec.now ≡ record_of self.now.bytes.now name }
        ensures bound { result.parts.u ≡ u_of self.now.bytes.now }
        ensures searched { list_of result ≡ list_named self.now.bytes.now name }
        ensures slots { slots_of result ≡ slots_named self.now.bytes.now name }
    {
        Held::open(self.record(name), self.u(), self.block())
    }
}
