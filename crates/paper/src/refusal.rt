// Why an operation refuses, as the library says it inside: a fault, and where a row of the table names one, a place. The numbers of the table are for callers outside.
ghost use Rattle.std.specs.Prelude.{◌≡◌};
ghost use Rattle.paper.specs.Fault.{number_of, told};

use crate::Verdict;

// The rows of the table of refusals, in its order.
#[derive(Clone, Copy, Debug, PartialEq, Eq)]
pub enum Fault {
    Size = 1,
    Tag,
    Edition,
    Range,
    Directory,
    Head,
    Offset,
    Code,
    Slot,
    Names,
    Name,
    Room,
    Rising,
    Way,
    Cut,
    Asked,
    Unused,
}

impl Fault {
    // The number of the row.
    pub fn number(self) -> u32
        ensures { result ≡ number_of self }
    {
        self as u32
    }
}

// A fault and its place, 0 where the row names none.
#[derive(Clone, Copy, Debug, PartialEq, Eq)]
pub struct Refusal {
    pub fault: Fault,
    pub place: u32,
}

impl From<Fault> for Refusal {
    ghost from_gives = { λ f r. r ≡ record { fault = f; place = 0 } };

    fn from(fault: Fault) -> Refusal {
        Refusal { fault, place: 0 }
    }
}

impl From<Result<(), Refusal>> for Verdict {
    ghost from_gives = { λ seen v. v ≡ told seen };

    fn from(seen: Result<(), Refusal>) -> Verdict {
        match seen {
            Ok(()) => Verdict {
                number: 0,
                place: 0,
            },
            Err(refusal) => Verdict {
                number: refusal.fault.number(),
                place: refusal.place,
            },
        }
    }
}
