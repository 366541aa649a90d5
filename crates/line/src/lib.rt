// The text of a question: its numbers, one after the other, the way first and then the names.
#![tactic(auto)]

ghost use Rattle.std.specs.Prelude.{◌≡◌, false, ◌+◌, ◌-◌, ◌*◌, ◌≤◌, ◌<◌, length, drop, MatchOption};
ghost use Rattle.paper.specs.Bytes.{byte_at};
ghost use Rattle.paper.specs.Line.{is_parting, is_digit, read_numbers};
ghost use Rattle.line.specs.Numbers.{MeetsLine, zeros};
ghost use Rattle.line.specs.OneNumber.{Begins, as_numbers, Beyond};

pub mod numbers;

pub use numbers::Numbers;
use words::byte;

// A byte that parts two numbers.
fn is_parting(b: u32) -> bool
    ensures { result ≡ is_parting b }
{
    b == 0x20 || b == 0x0a
}

// A byte that is a digit.
fn is_digit(b: u32) -> bool
    ensures { result ≡ is_digit b }
{
    0x30 <= b && b <= 0x39
}

// A number with one digit more, where a u32 holds it.
fn with_digit(value: u32, b: u32) -> Option<u32>
    requires { 0x30 ≤ b }
    ensures { MatchOption result (4294967295 < 10 * value + (b - 0x30)) (λ n. (n ≡ 10 * value + (b - 0x30)) × (n ≤ 4294967295)) }
{
    value.checked_mul(10)?.checked_add(b - 0x30)
}

// Goes on over parting bytes, to the next byte that is none or to the end.
#[tactic(auto, using(crate::proofs::Reading::skips))]
fn skip(text: &[u8], at: usize) -> usize
    requires { at ≤ length text.now + 1 }
    ensures { Begins text.now at result }
{
    for i in at..text.len() {
        if !is_parting(byte(text, i)) {
            return i;
        }
    }
    at.max(text.len())
}

// The number that begins at `at`, together with the parting byte behind it: its value, and where to read on; or that none stands there.
// The end of the text counts as a parting byte, so the position to read on from may lie one past the end. Every number thus takes two
// places at least, which keeps the numbers of a short text few.
#[tactic(auto, using(crate::proofs::Reading::numbers))]
fn read_number(text: &[u8], at: usize) -> Option<(u32, usize)>
    requires { (at < length text.now) × (is_parting (byte_at text.now at) ≡ false) }
    ensures result_value { as_numbers text.now result ≡ read_numbers (drop at text.now) false 0 }
    ensures beyond { Beyond text.now at result }
{
    let mut value: u32 = 0;
    for i in at..text.len() {
        let b = byte(text, i);
        if is_parting(b) {
            return Some((value, i + 1));
        }
        if !is_digit(b) {
            return None;
        }
        value = with_digit(value, b)?;
    }
    Some((value, text.len() + 1))
}

// A text that is no question.
#[tactic(auto, unfolding(crate::specs::Numbers::zeros))]
fn no_numbers() -> Numbers
    ensures { (result.many ≡ 0) × (result.values ≡ zeros) }
{
    Numbers {
        many: 0,
        values: [0; 128],
    }
}

// Reads a text as a question. 256 bytes hold at most 128 numbers.
#[tactic(auto, using(crate::proofs::Storing::stores), unfolding(crate::specs::Numbers::zeros))]
pub fn read_line(text: &[u8]) -> Numbers
    ensures { MeetsLine text.now result }
{
    if 256 < text.len() {
        return no_numbers();
    }
    let mut values = [0u32; 128];
    let mut many: usize = 0;
    let mut at = skip(text, 0);
    // Kept: a `for` is no plainer, since a turn goes on by a whole number, to where `skip` says that the next one begins.
    while at < text.len() {
        let Some((value, next)) = read_number(text, at) else {
            return no_numbers();
        };
        values[many] = value;
        many += 1;
        at = skip(text, next);
    }
    Numbers { many, values }
}
