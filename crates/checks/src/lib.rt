// The codes of one block, checked. They come as a slice of their own. What a glance accepts is not read again; all else is read code by code, which alone
// tells a fault by its name.
#![tactic(auto)]

ghost use Rattle.std.specs.Prelude.{◌≡◌, ◌+◌, ◌-◌, ◌≤◌, ◌<◌, length, IsTrue, IfSome};
ghost use Rattle.paper.specs.Bytes.{byte_at};
ghost use Rattle.paper.specs.Block.{read_codes};
ghost use Rattle.codes.specs.InBlock.{told, checked};
ghost use Rattle.checks.specs.Glanced.{Accepts};

use codes::Misread;
use glance::{singles, totals, triples};
use words::byte;

// Whether the bytes are `count` codes, where `on` of them lead on to the next: the last does not, and there are as many others as codes.
fn counted(s: &[u8], count: u32, on: u64) -> bool
    requires { (0 < length s.now) × (on < 255) }
    ensures { IsTrue result → (byte_at s.now (length s.now - 1) < 128) × (on + count ≡ length s.now) }
{
    let n = s.len();
    byte(s, n - 1) < 128 && on + u64::from(count) == n as u64
}

// The last slot, where it is not above u.
fn up_to(u: u32, last: u64) -> Option<u32>
    ensures { IfSome result (λ x. (x ≡ last) × (x ≤ u)) }
{
    if last <= u64::from(u) {
        Some(last as u32)
    } else {
        None
    }
}

// Codes of one byte each, by a glance: the last slot, where they are that and no slot is above u.
// Kept: the four parameters that make up a block, one by one, here, in the functions behind and in `codes::check_codes`. Tried: a struct of them, with the glances as its methods. The goal `returns` of `by_ones` did not
// close: of a slice that stands in a struct no fact says that its bytes are below 256.
fn by_ones(s: &[u8], count: u32, first: u32, u: u32) -> Option<u32>
    requires { (9 ≤ length s.now) × (length s.now ≤ 254) × (length s.now ≡ count) }
    ensures { Accepts result first (read_codes u count first s.now) }
{
    let t = singles(s);
    if t.wrong != 0 {
        return None;
    }
    let last = u64::from(first) + u64::from(count) + t.low;
    up_to(u, last)
}

// Codes of one and two bytes, by a glance: the last slot, where they are that and no slot is above u.
// Kept: the bounds of the length, here, in `by_ones` and in `glance`. A slice of its own type for 9 to 254 bytes would be made for one call of each.
fn by_pairs(s: &[u8], count: u32, first: u32, u: u32) -> Option<u32>
    requires { (9 ≤ length s.now) × (length s.now ≤ 254) }
    ensures { Accepts result first (read_codes u count first s.now) }
{
    let t = totals(s);
    if t.wrong != 0 || !counted(s, count, t.on) {
        return None;
    }
    let last = u64::from(first) + u64::from(count) + t.low + 127 * t.led;
    up_to(u, last)
}

// Codes of up to three bytes, by a glance: the last slot, where they are that and no slot is above u.
fn by_threes(s: &[u8], count: u32, first: u32, u: u32) -> Option<u32>
    ensures { Accepts result first (read_codes u count first s.now) }
{
    if s.len() < 10 || 254 < s.len() {
        return None;
    }
    let t = triples(s);
    if t.wrong != 0 || !counted(s, count, t.on) {
        return None;
    }
    let last = u64::from(first) + u64::from(count) + t.low + 127 * t.led + 16256 * t.far;
    up_to(u, last)
}

// A glance at codes of one byte, or of one and two: the last slot, where it will do. It is not for very short blocks.
fn glanced(s: &[u8], count: u32, first: u32, u: u32) -> Option<u32>
    ensures { Accepts result first (read_codes u count first s.now) }
{
    let n = s.len();
    if n < 9 || 254 < n {
        return None;
    }
    if n == count as usize {
        return by_ones(s, count, first, u);
    }
    if 2 * (count as usize) < n {
        return None;
    }
    by_pairs(s, count, first, u)
}

// Checks that `s` is `count` codes behind the slot `first`, and nothing more: by a glance where that accepts, and else code by code, which finds the fault.
pub fn check_codes(s: &[u8], count: u32, first: u32, u: u32) -> Result<u32, Misread>
    requires { first ≤ u }
    ensures { told result ≡ checked first (read_codes u count first s.now) }
{
    if let Some(last) = glanced(s, count, first, u) {
        return Ok(last);
    }
    if let Some(last) = by_threes(s, count, first, u) {
        return Ok(last);
    }
    codes::check_codes(s, count, first, u)
}
