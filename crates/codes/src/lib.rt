// Codes of one to three bytes, read, measured and written. The bytes of one block come as a slice of their own and are read once, from its start to its end.
#![tactic(auto)]

ghost use Rattle.std.specs.Prelude.{◌≡◌, ◌+◌, ◌≤◌, ◌<◌, length, drop};
ghost use Rattle.std.proofs.lemmas.List.Edits.{sets};
ghost use Rattle.paper.specs.Lists.{some_slot};
ghost use Rattle.paper.specs.Code.{code_of, code_bytes};
ghost use Rattle.paper.specs.Code.Code.{code};
ghost use Rattle.paper.specs.Block.{read_codes};
ghost use Rattle.paper.specs.Walk.{seek};
ghost use Rattle.codes.specs.Got.{as_code, Inside, Stands};
ghost use Rattle.codes.specs.InBlock.{told, checked, stopped};

pub mod block;

pub use block::Block;
use paper::refusal::Fault;
use words::byte;

// One code: its value, and the position behind it.
#[derive(Clone, Copy)]
pub struct CodeAt {
    pub value: u32,
    pub next: usize,
}

// The code at position `at`, where there is one.
#[tactic(auto, using(laws::proofs::Codes::ways))]
pub fn read_code(s: &[u8], at: usize) -> Option<CodeAt>
    ensures result_value { as_code s.now result ≡ code_of (drop at s.now) }
    ensures inside { Inside s.now result }
{
    let a = u32::from(*s.get(at)?);
    if a < 128 {
        return Some(CodeAt {
            value: a,
            next: at + 1,
        });
    }
    let b = u32::from(*s.get(at + 1)?);
    if b == 0 {
        return None;
    }
    if b < 128 {
        return Some(CodeAt {
            value: a % 128 + 128 * b,
            next: at + 2,
        });
    }
    let c = u32::from(*s.get(at + 2)?);
    if c == 0 || 128 <= c {
        return None;
    }
    Some(CodeAt {
        value: a % 128 + 128 * (b % 128) + 16384 * c,
        next: at + 3,
    })
}

// The code at position `at`, where one is known to stand: in a list without a fault nothing but where it ends is left to test.
#[tactic(auto, using(laws::proofs::Codes::ways))]
pub fn known_code(s: &[u8], at: usize) -> CodeAt
    requires { (at < length s.now) × Stands s.now at }
    ensures { (code result.value (drop result.next s.now) ≡ code_of (drop at s.now)) × (result.next ≤ length s.now) }
{
    let a = byte(s, at);
    if a < 128 {
        return CodeAt {
            value: a,
            next: at + 1,
        };
    }
    let b = byte(s, at + 1);
    if b < 128 {
        return CodeAt {
            value: a % 128 + 128 * b,
            next: at + 2,
        };
    }
    let c = byte(s, at + 2);
    CodeAt {
        value: a % 128 + 128 * (b % 128) + 16384 * c,
        next: at + 3,
    }
}

// A fault among the codes of a block, and the last slot before it.
#[derive(Clone, Copy, Debug, PartialEq, Eq)]
pub struct Misread {
    pub fault: Fault,
    pub last: u32,
}

impl From<Misread> for Fault {
    ghost from_gives = { λ m f. f ≡ m.fault };

    fn from(misread: Misread) -> Fault {
        misread.fault
    }
}

// Checks that `s` is `count` codes behind the slot `first`, and nothing more: the last slot. The gap is held against what is left up to u, so that no sum
// can leave the range.
// Kept: what makes up a block, one by one, as in `checks`: nothing is known of the bytes yet.
#[tactic(auto, using(crate::proofs::Turns::steps))]
pub fn check_codes(s: &[u8], count: u32, first: u32, u: u32) -> Result<u32, Misread>
    requires { first ≤ u }
    ensures { told result ≡ checked first (read_codes u count first s.now) }
{
    let mut at: usize = 0;
    let mut last = first;
    for _read in 0..count {
        let code = read_code(s, at).ok_or(Misread {
            fault: Fault::Code,
            last,
        })?;
        if u - last <= code.value {
            return Err(Misread {
                fault: Fault::Slot,
                last,
            });
        }
        last = last + code.value + 1;
        at = code.next;
    }
    if at < s.len() {
        return Err(Misread {
            fault: Fault::Code,
            last,
        });
    }
    Ok(last)
}

// Where reading in a block stopped: the slot, where it came to one that is not below x, and the codes that it took.
#[derive(Clone, Copy, Debug, PartialEq, Eq)]
pub struct Stopped {
    pub slot: Option<u32>,
    pub codes: u32,
}

impl Stopped {
    // Stopped at a slot, which 0 is not.
    pub fn at(slot: u32, codes: u32) -> Stopped
        ensures { result ≡ record { slot = some_slot slot; codes = codes } }
    {
        Stopped {
            slot: (slot != 0).then_some(slot),
            codes,
        }
    }
}

// Reads a block from its first slot on until a slot that is not below x, or to its end.
// Kept: beside `seeks::seek_in`, which is given a block that is known to be well. This one is public, and promises the same of any bytes.
#[tactic(auto, using(crate::proofs::Turns::steps))]
pub fn seek_in(s: &[u8], count: u32, first: u32, u: u32, x: u32) -> Stopped
    requires { first ≤ u }
    ensures { result ≡ stopped 0 (seek x first (read_codes u count first s.now).slots) }
{
    let mut at: usize = 0;
    let mut slot = first;
    for codes in 0..count {
        if x <= slot {
            return Stopped::at(slot, codes);
        }
        let Some(code) = read_code(s, at) else {
            return Stopped { slot: None, codes };
        };
        if u - slot <= code.value {
            return Stopped { slot: None, codes };
        }
        slot = slot + code.value + 1;
        at = code.next;
    }
    if x <= slot {
        return Stopped::at(slot, count);
    }
    Stopped {
        slot: None,
        codes: count,
    }
}

// How many bytes the code of v takes: as few as hold it. There is no branch on v, so that the compiler measures several values side by side.
#[tactic(auto, using(crate::proofs::Puts::puts))]
pub fn code_size(v: u32) -> usize
    ensures { (result ≡ length (code_bytes v)) × (result ≤ 3) }
{
    1 + usize::from(128 <= v) + usize::from(16384 <= v)
}

// Writes the code of v from `at` on, and tells the position behind it.
// Kept: a store for each byte. A copy of an array of them would be no plainer: it names the same bytes, and the places that they go to once more.
#[tactic(auto, using(crate::proofs::Puts::puts))]
pub fn put_code(s: &mut [u8], at: usize, v: u32) -> usize
    requires { (v < 2097152) × (at + length (code_bytes v) ≤ length s.old) }
    ensures { (result ≡ at + length (code_bytes v)) × (s.new ≡ sets s.old at (code_bytes v)) }
{
    if v < 128 {
        s[at] = v as u8;
        return at + 1;
    }
    if v < 16384 {
        s[at] = (128 + v % 128) as u8;
        s[at + 1] = (v / 128) as u8;
        return at + 2;
    }
    s[at] = (128 + v % 128) as u8;
    s[at + 1] = (128 + v / 128 % 128) as u8;
    s[at + 2] = (v / 16384) as u8;
    at + 3
}
