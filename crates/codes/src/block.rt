// A block of a list that is known to be well: it stands in a file of its own, since whatever its ghost fields name is imported by all that name it.
ghost use Rattle.std.specs.Prelude.{◌≡◌, ◌≤◌};
ghost use Rattle.paper.specs.Block.{read_codes};

// `count` codes behind the slot `first`, and nothing more: each of them is a code, and none leads above u.
#[derive(Clone, Copy)]
pub struct Block<'a> {
    pub codes: &'a [u8],
    pub count: u32,
    pub first: u32,
    pub u: u32,
    ghost low: { first ≤ u },
    ghost sound: { (read_codes u count first codes.now).fault ≡ 0 },
}
