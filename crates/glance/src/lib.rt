// A glance at the bytes of a block, eight at a time: what they add up to, if they are codes of one and two bytes. It tells no fault by its number.
#![tactic(auto)]

ghost use Rattle.std.specs.Prelude.{◌≡◌, ◌+◌, ◌-◌, ◌*◌, ◌/◌, ◌%◌, ◌^◌, ◌≤◌, ◌<◌, length, take, drop};
ghost use Rattle.std.specs.Int.Bits.{bit_and, bit_or};
ghost use Rattle.paper.specs.Bytes.{u32_at};
ghost use Rattle.quick.specs.Sums.{Told, Flat, Told3, digits};
ghost use Rattle.quick.specs.Words.{of_low, of_top, wrong_of, led_of, in_pairs, on_of, wrong3_of, far_of};
ghost use Rattle.glance.specs.Rooms.{RoomyPairs, RoomyOnes};

use words::u64_at;

// Eight bytes at a time, as one number: the lowest seven bits of each byte, the highest bit of each, and every second byte.
const LOW: u64 = 9187201950435737471;

const TOP: u64 = 9259542123273814144;

const EVEN: u64 = 71777214294589695;

// Whether one of the bytes w is led to by the byte before it (the bytes p are one place before w), and leads on or is 0: then the number is not 0.
#[tactic(auto, using(crate::proofs::Masks::masks), unfolding(quick::specs::Words::wrong_of))]
fn wrong_in(w: u64, p: u64) -> u64
    ensures { result ≡ wrong_of w p }
{
    let on = p & TOP;
    let some = (w & LOW) + LOW;
    (on & w) | (on - (some & on))
}

// The digits of the bytes w that are led to.
#[tactic(auto, unfolding(quick::specs::Words::led_of))]
fn led_in(w: u64, p: u64) -> u64
    ensures { result ≡ led_of w p }
{
    let on = p & TOP;
    (w & LOW) & (on - on / 128)
}

// The eight bytes of x, added up in pairs.
#[tactic(auto, using(crate::proofs::Masks::masks), unfolding(quick::specs::Words::in_pairs))]
fn in_pairs(x: u64) -> u64
    ensures { (result ≡ in_pairs x) × (result ≤ 143554428589179390) }
{
    (x & EVEN) + (x / 256 & EVEN)
}

// A 1 for each of the bytes w that leads on.
#[tactic(auto, using(crate::proofs::Masks::masks), unfolding(quick::specs::Words::on_of))]
fn on_in(w: u64) -> u64
    ensures { (result ≡ on_of w) × (result ≤ 72340172838076673) }
{
    (w & TOP) / 128
}

// Of the eight bytes that begin `back` before the end of s the upper ones, `left` of them, as a number.
fn upper(s: &[u8], back: usize, left: usize) -> u64
    requires { (8 ≤ back) × (back ≤ length s.now) × (1 ≤ left) × (left ≤ 8) }
    ensures { result ≡ (u32_at s.now (length s.now - back) + 4294967296 * u32_at s.now (length s.now - back + 4)) / 2 ^ (8 * (8 - left)) }
{
    u64_at(s, s.len() - back) >> (8 * (8 - left))
}

// What a glance at bytes tells: not 0 where a byte that is led to is wrong; the sum of all digits, that of the digits led to, and how many bytes lead on.
// Kept: three structs and three loops for the three glances, since one for all would have to say which sums are left out and which bytes stand first.
#[derive(Drop)]
pub struct Glance {
    pub wrong: u64,
    pub low: u64,
    pub led: u64,
    pub on: u64,
}

impl Glance {
    // The same with the bytes w more, of which those one place before are p.
    fn and(self, w: u64, p: u64) -> Glance
        requires { RoomyPairs self.low × RoomyPairs self.led × RoomyOnes self.on }
        ensures { (result.wrong ≡ bit_or self.wrong (wrong_of w p)) × (result.low ≡ self.low + in_pairs (bit_and w of_low))
            × (result.led ≡ self.led + in_pairs (led_of w p)) × (result.on ≡ self.on + on_of w) }
    {
        Glance {
            wrong: self.wrong | wrong_in(w, p),
            low: self.low + in_pairs(w & LOW),
            led: self.led + in_pairs(led_in(w, p)),
            on: self.on + on_in(w),
        }
    }

    // The sums by themselves, out of the places in which they were added up.
    fn told(self) -> Glance
        ensures { (result.wrong ≡ self.wrong) × (result.low ≡ self.low % 65535) × (result.led ≡ self.led % 65535) × (result.on ≡ self.on % 255) }
    {
        Glance {
            wrong: self.wrong,
            low: self.low % 65535,
            led: self.led % 65535,
            on: self.on % 255,
        }
    }
}

// Glances at bytes that may be codes of one and two bytes, eight at a time and the last one to eight as the upper part of the last eight. There is no way from one
// turn to the next but sums, so that the compiler takes several turns side by side.
#[tactic(auto, using(crate::proofs::Turns::rooms))]
pub fn totals(s: &[u8]) -> Glance
    requires { (9 ≤ length s.now) × (length s.now ≤ 254) }
    ensures { Told s.now result.wrong result.low result.led result.on }
{
    let first = u64::from(s[0]);
    let mut sums = Glance {
        wrong: 0,
        low: first % 128,
        led: 0,
        on: first / 128,
    };
    let mut i: usize = 1;
    // Kept: tried as a `for` over the turns. Short blocks then take up to a twentieth longer to be checked.
    while i + 8 < s.len() {
        sums = sums.and(u64_at(s, i), u64_at(s, i - 1));
        i += 8;
    }
    let left = s.len() - i;
    sums.and(upper(s, 8, left), upper(s, 9, left)).told()
}

// What a glance at bytes tells that are to be codes of one byte each: not 0 where one leads on; and their sum.
#[derive(Drop)]
pub struct Flats {
    pub wrong: u64,
    pub low: u64,
}

impl Flats {
    // The same with the bytes w more.
    fn and(self, w: u64) -> Flats
        requires { RoomyPairs self.low }
        ensures { (result.wrong ≡ bit_or self.wrong (bit_and w of_top)) × (result.low ≡ self.low + in_pairs (bit_and w of_low)) }
    {
        Flats {
            wrong: self.wrong | (w & TOP),
            low: self.low + in_pairs(w & LOW),
        }
    }

    // The sum by itself.
    fn told(self) -> Flats
        ensures { (result.wrong ≡ self.wrong) × (result.low ≡ self.low % 65535) }
    {
        Flats {
            wrong: self.wrong,
            low: self.low % 65535,
        }
    }
}

// Glances at bytes that may be codes of one byte each, as `totals` does.
#[tactic(auto, using(crate::proofs::Turns::rooms))]
pub fn singles(s: &[u8]) -> Flats
    requires { (9 ≤ length s.now) × (length s.now ≤ 254) }
    ensures { Flat s.now result.wrong result.low }
{
    let mut sums = Flats { wrong: 0, low: 0 };
    for turn in 0..(s.len() - 1) / 8 {
        sums = sums.and(u64_at(s, 8 * turn));
    }
    let left = (s.len() - 1) % 8 + 1;
    sums.and(upper(s, 8, left)).told()
}

// Where codes may have three bytes: whether one of the bytes w is led to and is 0, or is led to twice (the bytes q are two places before w) and leads on.
#[tactic(auto, using(crate::proofs::Masks::masks), unfolding(quick::specs::Words::wrong3_of))]
fn wrong3_in(w: u64, p: u64, q: u64) -> u64
    ensures { result ≡ wrong3_of w p q }
{
    let on = p & TOP;
    let some = ((w & LOW) + LOW) | w;
    (on & q & w) | (on - (some & on))
}

// The digits of the bytes w that are led to twice.
#[tactic(auto, unfolding(quick::specs::Words::far_of))]
fn far_in(w: u64, p: u64, q: u64) -> u64
    ensures { result ≡ far_of w p q }
{
    let both = p & TOP & q;
    (w & LOW) & (both - both / 128)
}

// What a glance tells where codes may have three bytes; `far` is the sum of the digits that are led to twice.
#[derive(Drop)]
pub struct Glance3 {
    pub wrong: u64,
    pub low: u64,
    pub led: u64,
    pub on: u64,
    pub far: u64,
}

impl Glance3 {
    // The same with the bytes w more, of which those one place before are p, and those two places before q.
    fn and(self, w: u64, p: u64, q: u64) -> Glance3
        requires { RoomyPairs self.low × RoomyPairs self.led × RoomyOnes self.on × RoomyPairs self.far }
        ensures { (result.wrong ≡ bit_or self.wrong (wrong3_of w p q)) × (result.low ≡ self.low + in_pairs (bit_and w of_low))
            × (result.led ≡ self.led + in_pairs (led_of w p)) × (result.on ≡ self.on + on_of w) × (result.far ≡ self.far + in_pairs (far_of w p q)) }
    {
        Glance3 {
            wrong: self.wrong | wrong3_in(w, p, q),
            low: self.low + in_pairs(w & LOW),
            led: self.led + in_pairs(led_in(w, p)),
            on: self.on + on_in(w),
            far: self.far + in_pairs(far_in(w, p, q)),
        }
    }

    // The sums by themselves.
    fn told(self) -> Glance3
        ensures { (result.wrong ≡ self.wrong) × (result.low ≡ self.low % 65535) × (result.led ≡ self.led % 65535) × (result.on ≡ self.on % 255)
            × (result.far ≡ self.far % 65535) }
    {
        Glance3 {
            wrong: self.wrong,
            low: self.low % 65535,
            led: self.led % 65535,
            on: self.on % 255,
            far: self.far % 65535,
        }
    }
}

// Glances at bytes that may be codes of one to three bytes, as `totals` does. The first two bytes are taken as a number by themselves.
#[tactic(auto, using(crate::proofs::Turns::rooms))]
pub fn triples(s: &[u8]) -> Glance3
    requires { (10 ≤ length s.now) × (length s.now ≤ 254) }
    ensures { Told3 s.now result.wrong result.low result.led result.on result.far }
{
    let first = u64::from(s[0]);
    let second = u64::from(s[1]);
    let none = Glance3 {
        wrong: 0,
        low: 0,
        led: 0,
        on: 0,
        far: 0,
    };
    let mut sums = none.and(first + 256 * second, 256 * first, 0);
    for turn in 0..(s.len() - 3) / 8 {
        let i = 8 * turn;
        sums = sums.and(u64_at(s, i + 2), u64_at(s, i + 1), u64_at(s, i));
    }
    let left = (s.len() - 3) % 8 + 1;
    sums.and(upper(s, 8, left), upper(s, 9, left), upper(s, 10, left))
        .told()
}

// The digits of the eight bytes from `at` on, summed: what they add up to, where each is a code of its own.
#[tactic(auto, using(quick::proofs::Places::eight_digits))]
pub fn eight(s: &[u8], at: usize) -> u32
    requires { at + 8 ≤ length s.now }
    ensures { result ≡ digits (take 8 (drop at s.now)) }
{
    let sum = in_pairs(u64_at(s, at) & LOW) % 65535;
    sum as u32
}
