// The way in which a question is answered, and its number for callers.
#![tactic(auto)]

ghost use Rattle.std.specs.Prelude.{◌≡◌, IfOk};
ghost use Rattle.paper.specs.Refusal.{verdict, accepted, fault14};
ghost use Rattle.paper.specs.Fault.{fault};
ghost use Rattle.question.specs.Ways.{number_of};

use paper::refusal::Fault;

// Plainly, list by list, or by skips.
#[derive(Clone, Copy, Debug, PartialEq, Eq)]
pub enum Way {
    Plainly,
    BySkips,
}

impl TryFrom<u32> for Way {
    type Error = Fault;

    ghost try_from_gives = { λ n r. (verdict (fault r) 0 ≡ fault14 n accepted) × IfOk r (λ way. number_of way ≡ n) };

    #[tactic(auto, using(laws::proofs::Links::way_links))]
    fn try_from(number: u32) -> Result<Way, Fault> {
        match number {
            0 => Ok(Way::Plainly),
            1 => Ok(Way::BySkips),
            _ => Err(Fault::Way),
        }
    }
}
