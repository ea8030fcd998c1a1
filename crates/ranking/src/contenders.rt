ghost use Rattle.std.specs.Prelude.{◌≡◌, ◌≤◌};

/// What a ranking sees of a row that can exist: the declared value, the number of items in the bundle, and the row's number.
#[derive(Clone, Copy)]
pub struct Contender {
    pub value: u32,
    pub size: usize,
    pub number: usize,
    ghost priced: { value ≤ 100000000 },
    ghost nonempty: { 1 ≤ size },
    ghost small: { size ≤ 64 },
}

/// What fills the unused places of a list of contenders with a fixed capacity: worthless, as small as can be, and of row 0.
// By hand: no derive fills ghost fields.
impl Default for Contender {
    ghost is_default = { λ c. (c.value ≡ 0) × (c.size ≡ 1) × (c.number ≡ 0) };

    fn default() -> Self {
        Contender {
            value: 0,
            size: 1,
            number: 0,
        }
    }
}
