// 256 bits in four words, as one number: place i is digit i of it, bit i % 64 (the low bit first)
// of word i / 64. A map is read round from any place: the place after 255 is 0.
#![tactic(auto)]

ghost use Rattle.std.specs.Prelude.{◌≡◌, [], ◌∷◌, ℕ, ◌+◌, ◌-◌, ◌*◌, ◌/◌, ◌%◌, ◌^◌, ◌<◌, ◌≤◌, min, eqb, ltb, get_or};
ghost use Rattle.std.specs.Int.Bits.{bit_or, bit_and};
ghost use Rattle.std.specs.Int.Count.{ones, count_trailing_zeros};
ghost use Rattle.terms.specs.Paper.{pick};
ghost use Rattle.tick_map.specs.Bits.{bit, is_set, run, value_of, bits_in, map_of};
ghost use Rattle.tick_map.specs.Ring.{rotated, without, only, lacking};

// How many digits of a word stand below its lowest set one: 64 where none is set.
fn zeros_in(w: u64) -> u64
    ensures { (result ≡ count_trailing_zeros 64 w) × (result ≤ 64) }
{
    u64::from(w.trailing_zeros())
}

// A choice without a branch.
fn either(t: bool, a: u64, b: u64) -> u64
    ensures { result ≡ pick t a b }
{
    if t { a } else { b }
}

// Digit i of a word alone.
fn digit(i: u64) -> u64
    requires { i < 64 }
    ensures { result ≡ 2 ^ i }
{
    1 << i
}

// The n lowest digits of a word.
fn lowest(n: u64) -> u64
    requires { n < 64 }
    ensures { result ≡ 2 ^ n - 1 }
{
    digit(n) - 1
}

// Word j of the map that holds place i alone.
fn place(i: u64, j: u64) -> u64
    ensures { result ≡ pick (eqb j (i / 64)) (2 ^ (i % 64)) 0 }
{
    either(j == i / 64, digit(i % 64), 0)
}

// All digits of a word.
const ALL: u64 = u64::MAX;

// Word j of the map that holds the places below x.
fn below(x: u64, j: u64) -> u64
    ensures { (q : ℕ) → q < 64 → bit result q ≡ pick (ltb (64 * j + q) x) 1 0 }
{
    let own = lowest(x % 64);
    either(j < x / 64, ALL, either(j == x / 64, own, 0))
}

// Word j of the map that holds the k places from s on, counted round: those below one end and not
// below the other, and where the stretch comes round all others.
fn span(s: u64, k: u64, j: u64) -> u64
    requires { (k ≤ 256) × (j < 4) }
    ensures { (q : ℕ) → q < 64 → bit result q ≡ pick (ltb ((64 * j + q + (256 - s % 256)) % 256) k) 1 0 }
{
    let e = s % 256 + k;
    below(s % 256, j) ^ below(e % 256, j) ^ either(256 <= e, ALL, 0)
}

// The lowest word first.
#[derive(Clone, Copy)]
pub struct Map {
    pub words: [u64; 4],
}

impl Map {
    // Nothing held.
    #[tactic(auto, unfolding(crate::specs::Bits::map_of))]
    pub fn new() -> Map
        ensures { result ≡ map_of 0 }
    {
        Map { words: [0; 4] }
    }

    // Word j: chosen and not looked up, so that the four words stay in registers.
    fn word(self, j: u64) -> u64
        requires { j < 4 }
        ensures { result ≡ get_or self.words j 0 }
    {
        let odd = j % 2 == 1;
        let low = either(odd, self.words[1], self.words[0]);
        let high = either(odd, self.words[3], self.words[2]);
        either(j < 2, low, high)
    }

    // The words from word j on, counted round: chosen, as one is.
    fn turned(self, j: u64) -> Map
        requires { j < 4 }
        ensures { bits_in result ≡ rotated (64 * j) (bits_in self) }
    {
        let w = self.words;
        let odd = j % 2 == 1;
        let near = j < 2;
        let a = either(odd, w[1], w[0]);
        let b = either(odd, w[2], w[1]);
        let c = either(odd, w[3], w[2]);
        let d = either(odd, w[0], w[3]);
        Map {
            words: [
                either(near, a, c),
                either(near, b, d),
                either(near, c, a),
                either(near, d, b),
            ],
        }
    }

    // Of each word the digits of one mask.
    fn masked(self, a: u64, b: u64, c: u64, d: u64) -> Map
        ensures { result.words ≡ bit_and (get_or self.words 0 0) a ∷ bit_and (get_or self.words 1 0) b ∷ bit_and (get_or self.words 2 0) c ∷ bit_and (get_or self.words 3 0) d ∷ [] }
    {
        let w = self.words;
        Map {
            words: [w[0] & a, w[1] & b, w[2] & c, w[3] & d],
        }
    }

    // The k places from place q of the first word on alone, counted round: where they end, the
    // words before are whole, and those behind are empty.
    fn front(self, q: u64, k: u64) -> Map
        requires { (q < 64) × (k ≤ 256) }
        ensures { result ≡ map_of (only q k (bits_in self)) }
    {
        let end = q + k;
        let own = lowest(end % 64);
        let first = ALL ^ lowest(q);
        if end < 64 {
            return self.masked(first & own, 0, 0, 0);
        }
        if end < 128 {
            return self.masked(first, own, 0, 0);
        }
        if end < 192 {
            return self.masked(first, ALL, own, 0);
        }
        if end < 256 {
            return self.masked(first, ALL, ALL, own);
        }
        self.masked(first | own, ALL, ALL, ALL)
    }

    // How many places are held.
    pub fn held(self) -> u64
        ensures { result ≡ ones (bits_in self) }
    {
        let [a, b, c, d] = self.words;
        u64::from(a.count_ones() + b.count_ones() + c.count_ones() + d.count_ones())
    }

    // Whether place i is held; none from 256 on is.
    pub fn holds(self, i: u64) -> bool
        ensures { result ≡ is_set (bits_in self) i }
    {
        i < 256 && self.word(i / 64) >> i % 64 & 1 == 1
    }

    // Place i held too; from 256 on there is no place, and nothing changes.
    pub fn with(self, i: u64) -> Map
        ensures { result ≡ map_of (bit_or (bits_in self) (2 ^ i) % 2 ^ 256) }
    {
        if 256 <= i {
            return self;
        }
        let w = self.words;
        Map {
            words: [
                w[0] | place(i, 0),
                w[1] | place(i, 1),
                w[2] | place(i, 2),
                w[3] | place(i, 3),
            ],
        }
    }

    // The complement: held where this map is not.
    fn flipped(self) -> Map
        ensures { bits_in result ≡ (2 ^ 256 - 1) - bits_in self }
    {
        let [a, b, c, d] = self.words;
        Map {
            words: [!a, !b, !c, !d],
        }
    }

    // Whether no place is held.
    #[tactic(auto, using(crate::proofs::Words::value_zero))]
    pub fn empty(self) -> bool
        ensures { result ≡ eqb (bits_in self) 0 }
    {
        let [a, b, c, d] = self.words;
        a | b | c | d == 0
    }

    // Whether no place is held but perhaps the k behind place q of the first word, counted round:
    // not q and those before it, and not those behind the k, of which the first is in the word that
    // is shifted.
    fn front_but(self, q: u64, k: u64) -> bool
        requires { (q < 64) × (k < 256) }
        ensures { result ≡ eqb (rotated (q + 1) (bits_in self) / 2 ^ k) 0 }
    {
        let [a, b, c, d] = self.words;
        let end = q + 1 + k;
        let low = a << 63 - q;
        if end < 64 {
            return low | a >> end | b | c | d == 0;
        }
        if end < 128 {
            return low | b >> end - 64 | c | d == 0;
        }
        if end < 192 {
            return low | c >> end - 128 | d == 0;
        }
        if end < 256 {
            return low | d >> end - 192 == 0;
        }
        low >> k - 192 == 0
    }

    // Whether no place is held but perhaps the k behind place s, counted round.
    pub fn none_but(self, s: u64, k: u64) -> bool
        ensures { result ≡ eqb (without (s + 1) k (bits_in self)) 0 }
    {
        if 256 <= k {
            return true;
        }
        self.turned(s / 64 % 4).front_but(s % 64, k)
    }

    // How many places from s on are clear, counted round: 256 where none is held.
    // The place's own word is the first one, and the last: by then its places from s on are known
    // to be clear.
    pub fn first_from(self, s: u64) -> u64
        ensures { result ≡ count_trailing_zeros 256 (rotated s (bits_in self)) }
    {
        let q = s % 64;
        let own = s / 64 % 4;
        let near = zeros_in(self.word(own) >> q);
        if near < 64 {
            return near;
        }
        for n in 1..5 {
            let zeros = zeros_in(self.word((own + n) % 4));
            if zeros < 64 {
                return 64 * n - q + zeros;
            }
        }
        256
    }

    // How many places from s on are held without a break, counted round: the clear places of
    // the complement.
    pub fn run_from(self, s: u64) -> u64
        ensures { result ≡ run 256 (rotated s (bits_in self)) }
    {
        self.flipped().first_from(s)
    }

    // How many of the k places from s on are held, counted round; beyond 256 there is no place.
    pub fn held_from(self, s: u64, k: u64) -> u64
        ensures { result ≡ ones (rotated s (bits_in self) % 2 ^ k) }
    {
        self.turned(s / 64 % 4).front(s % 64, k.min(256)).held()
    }

    // The map without the k places from s on, counted round; beyond 256 nothing is left.
    pub fn cleared(self, s: u64, k: u64) -> Map
        ensures { result ≡ map_of (without s k (bits_in self)) }
    {
        let w = self.words;
        let o = self.only(s, k).words;
        Map {
            words: [w[0] ^ o[0], w[1] ^ o[1], w[2] ^ o[2], w[3] ^ o[3]],
        }
    }

    // The k places from s on alone, counted round: what lies outside them is cleared.
    pub fn only(self, s: u64, k: u64) -> Map
        ensures { result ≡ map_of (only s k (bits_in self)) }
    {
        let w = self.words;
        let n = k.min(256);
        Map {
            words: [
                w[0] & span(s, n, 0),
                w[1] & span(s, n, 1),
                w[2] & span(s, n, 2),
                w[3] & span(s, n, 3),
            ],
        }
    }

    // Those of the k places from s on that are not held, counted round.
    #[tactic(auto, unfolding(crate::specs::Ring::lacking))]
    pub fn lacking(self, s: u64, k: u64) -> Map
        ensures { result ≡ map_of (lacking s k (bits_in self)) }
    {
        self.flipped().only(s, k)
    }
}
