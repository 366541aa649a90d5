// The answers of the public operations, as plain structs, and what may be refused inside of them. Which answer an operation gives is said by the definitions in
// specs/; the only code here tells the numbers.
// Every answer has a number, 0 where the operation accepts, and a place. On refusal every other field is 0 or false.
// Kept: a number and a place in each answer, and a struct for each operation. `MeetsLook`, `MeetsAsk` and the others and the theorems of `promises` speak of
// these fields, and the C interface hands them on. Inside the library a refusal goes by name (`refusal`).
#![tactic(auto)]

pub mod refusal;

#[derive(Drop)]
pub struct Verdict {
    pub number: u32,
    pub place: u32,
}

// The answer to a question: `count` slots stand at the front of the slice; `looks` and `codes` are what the searches cost, summed over the names.
// `looks16` and `codes16` say which list cost what: place i has that of the name at position i of the question as it was asked, counted from 0. The place of the
// smallest list, which the search starts from, is 0, and so are those behind the names.
#[derive(Drop)]
pub struct Answer {
    pub number: u32,
    pub place: u32,
    pub count: u32,
    pub looks: u64,
    pub codes: u64,
    pub looks16: [u64; 16],
    pub codes16: [u64; 16],
}

#[derive(Drop)]
pub struct Tested {
    pub number: u32,
    pub place: u32,
    pub yes: bool,
}

// The next slot of a list, from some slot on; 0 where there is none.
#[derive(Drop)]
pub struct Next {
    pub number: u32,
    pub place: u32,
    pub slot: u32,
}

#[derive(Drop)]
pub struct Counted {
    pub number: u32,
    pub place: u32,
    pub count: u32,
}

// The length is that of the record written, or of the index closed.
#[derive(Drop)]
pub struct Written {
    pub number: u32,
    pub place: u32,
    pub length: u32,
}

// Where one list's record lies in the index.
#[derive(Drop)]
pub struct Part {
    pub number: u32,
    pub place: u32,
    pub start: u32,
    pub length: u32,
}

// The most bytes that a record can need.
#[derive(Drop)]
pub struct Bound {
    pub number: u32,
    pub place: u32,
    pub bytes: u32,
}
