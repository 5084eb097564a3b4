// Buckets: a word falls into one of so many, and an atom by a key of its head and inputs, so that atoms that are alike fall into one.
ghost use Rattle.std.specs.Prelude.{◌≡◌, ◌+◌, ◌≤◌, ◌<◌, length, replicate};
ghost use Rattle.octets.specs.Words.{words};
ghost use Rattle.octets.specs.Regions.{splice};
ghost use Rattle.bodies.specs.Buckets.{mix, mix_all, key_of, bucket_of};

// A key with one word more.
fn mixed(k: u32, w: u32) -> u32
    ensures { result ≡ mix k w }
{
    k.wrapping_mul(0x9e37_79b1).wrapping_add(w)
}

// A key with the words `ws` mixed into it, in their order.
fn mix_all(ws: &[u8], start: u32) -> u32
    ensures { result ≡ mix_all start (words ws.now) }
{
    let mut k = start;
    for i in 0..octets::count(ws) {
        k = mixed(k, octets::get(ws, i));
    }
    k
}

// The key of the words `ws`, an atom's head and inputs: the first word, with the others mixed into it. Most atoms have at most two inputs: those take no
// loop. The words are read from the front, since their count comes from the first of them: where the second and the third stand is known before that is.
pub fn key(ws: &[u8]) -> u32
    requires { 0 < length (words ws.now) }
    ensures { result ≡ key_of (words ws.now) }
{
    let n = octets::count(ws);
    if n < 2 {
        return octets::get(ws, 0);
    }
    let two = mixed(octets::get(ws, 0), octets::get(ws, 1));
    if n < 3 {
        return two;
    }
    let three = mixed(two, octets::get(ws, 2));
    if n < 4 {
        return three;
    }
    mix_all(octets::part(ws, 3, n - 3), three)
}

// The bucket of a word, of so many. A product's upper half spreads words over any number of buckets without a division.
pub fn bucket(w: u32, count: usize) -> usize
    requires { (0 < count) × (count < 0x1_0000_0000) }
    ensures { (result ≡ bucket_of count w) × (result < count) }
{
    (mixed(w, 0) as u64 * count as u64 / 0x1_0000_0000) as usize
}

// Writes w into the n words at p. It takes a place and a count, as `octets::regions::replace` does: callers speak of words, and
// would cut what they lend by bytes (octets/src/regions.rt says what was tried).
pub fn fill(s: &mut [u8], p: usize, n: usize, w: u32)
    requires { p + n ≤ length (words s.old) }
    ensures { words s.new ≡ splice (words s.old) p (replicate n w) }
{
    for i in 0..n {
        octets::put(s, p + i, w);
    }
}
