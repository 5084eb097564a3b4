// Terms: what settling asks of a signature to tell variables from others, and when two terms are equal.
ghost use Rattle.std.specs.Prelude.{◌≡◌, ◌≤◌, ◌<◌};
ghost use Rattle.rules.specs.Words.{limit12};
ghost use Rattle.rules.specs.Signature.{same_term};

// What settling asks of a signature: G, names below which are globals, and the value-eq head.
#[derive(Clone, Copy)]
pub struct Sign {
    pub globals: u32,
    pub equals: u32,
    pub ghost few_globals: { globals ≤ limit12 },
    pub ghost known_equals: { equals < limit12 },
}

// Whether two terms are equal: the one test of it, as in the definitions.
pub fn same_term(a: u32, b: u32) -> bool
    ensures { result ≡ same_term a b }
{
    a == b
}
