// Numbers in lent bytes, as little-endian words of four bytes. Each function takes any place: what does not lie within the lent bytes is
// read as zeros, and is not written.
#![tactic(auto)]

ghost use Rattle.std.specs.Prelude.{◌≡◌, ◌∷◌, ◌++◌, ◌+◌, ◌*◌, ◌≤◌, ◌<◌, length, drop};
ghost use Rattle.answer.specs.Over.{over};
ghost use Rattle.codec.specs.Over.{laid};
ghost use Rattle.words.specs.Words.{le4, flat, word_of, word_at, words_of, words_in, counted_in, added_in, le8, flat8, number_at, numbers_of, numbers_in};
ghost use Rattle.words.specs.Ranges.{inside};

// The word of four bytes, the lowest first.
pub fn word_of(a: u8, b: u8, c: u8, d: u8) -> u32
    ensures { result ≡ word_of a b c d }
{
    u32::from_le_bytes([a, b, c, d])
}

// The word whose first byte stands at `at`.
fn word_at(b: &[u8], at: usize) -> u32
    requires { at + 4 ≤ length b.now }
    ensures { result ≡ word_at b.now at }
{
    word_of(b[at], b[at + 1], b[at + 2], b[at + 3])
}

// The four bytes of x from `at`.
#[tactic(auto, using(codec::proofs::Overs::put_over, crate::proofs::Words::four_bytes))]
fn put_word(b: &mut [u8], at: usize, x: u32)
    requires { at + 4 ≤ length b.old }
    ensures { b.new ≡ over b.old at (le4 x) }
{
    b[at..at + 4].copy_from_slice(&x.to_le_bytes());
}

// The bytes of the words from `at`.
#[tactic(auto, using(answer::proofs::Overs::over_nil, crate::proofs::Words::over_word), unfolding(crate::specs::Words::flat))]
fn put_words(b: &mut [u8], at: usize, w: &[u32])
    requires { at + length w.now * 4 ≤ length b.old }
    ensures { b.new ≡ over b.old at (flat w.now) }
{
    for (i, x) in w.iter().enumerate() {
        put_word(b, at + i * 4, *x);
    }
}

// N words of b from `at`.
#[tactic(auto, using(crate::proofs::Words::words_beyond))]
pub fn words_in<const N: usize>(b: &[u8], at: u32) -> [u32; N]
    ensures { result ≡ words_in N at b.now }
{
    let from = at as usize;
    let mut w = [0u32; N];
    if N <= b.len() / 4 && from <= b.len() - N * 4 {
        for (i, x) in w.iter_mut().enumerate() {
            *x = word_at(b, from + i * 4);
        }
    }
    w
}

// N words laid over b from `at`.
#[tactic(auto, using(codec::proofs::Overs::laid_done, codec::proofs::Overs::laid_kept, crate::proofs::Words::length_flat))]
pub fn lay_words<const N: usize>(b: &mut [u8], at: u32, w: &[u32; N])
    ensures { b.new ≡ laid b.old at (flat w.now) }
{
    let from = at as usize;
    if N <= b.len() / 4 && from <= b.len() - N * 4 {
        put_words(b, from, w);
    }
}

// The 208 bytes of twenty-two words and of thirty behind them.
// One function with `numbered_record` would want a `requires`: that the second part has 52 - N words is no const argument.
#[tactic(auto, using(crate::proofs::Words::over_two))]
pub fn record_of(v: &[u32; 22], w: &[u32; 30]) -> [u8; 208]
    ensures { result ≡ flat (v.now ++ w.now) }
{
    let mut t = [0u8; 208];
    put_words(&mut t, 0, v);
    put_words(&mut t, 88, w);
    t
}

// The 208 bytes of a word and of fifty-one behind it.
#[tactic(auto, using(crate::proofs::Words::over_two), unfolding(crate::specs::Words::flat))]
pub fn numbered_record(number: u32, v: &[u32; 51]) -> [u8; 208]
    ensures { result ≡ flat (number ∷ v.now) }
{
    let mut t = [0u8; 208];
    put_word(&mut t, 0, number);
    put_words(&mut t, 4, v);
    t
}

// Whether each number lies in its range: one loop without an early end, so that the test of 17 is the same work for all bytes (speed/flat).
#[tactic(auto, using(crate::proofs::Ranges::and_three), unfolding(crate::specs::Ranges::inside))]
pub fn in_range<const N: usize>(lo: &[u32; N], hi: &[u32; N], w: &[u32; N]) -> bool
    ensures { result ≡ inside lo.now hi.now w.now }
{
    let mut good = true;
    for ((least, most), x) in lo.iter().zip(hi).zip(w) {
        good = good & ((*least <= *x) & (*x <= *most));
    }
    good
}

// One more in word i, and `most` at most.
#[tactic(auto, using(crate::proofs::Words::counted, crate::proofs::Words::counted_not))]
pub fn count_at(b: &mut [u8], i: u32, most: u32)
    ensures { b.new ≡ counted_in b.old i most }
{
    let at = i as usize * 4;
    if at + 4 <= b.len() {
        let x = word_at(b, at);
        let more = filter::up(x, most);
        put_word(b, at, more);
    }
}

// So many more in word i, and `most` at most.
#[tactic(auto, using(crate::proofs::Words::added, crate::proofs::Words::added_not))]
pub fn add_at(b: &mut [u8], i: u32, more: u32, most: u32)
    ensures { b.new ≡ added_in b.old i more most }
{
    let at = i as usize * 4;
    if at + 4 <= b.len() {
        let x = word_at(b, at);
        let sum = filter::add(x, more, most);
        put_word(b, at, sum);
    }
}

// The number of 64 bits whose first byte stands at `at`, its low word first: as `number_at` says it, by its two words.
fn number_at(b: &[u8], at: usize) -> u64
    requires { at + 8 ≤ length b.now }
    ensures { result ≡ number_at b.now at }
{
    let low = word_at(b, at);
    let high = word_at(b, at + 4);
    u64::from(low) + 4294967296 * u64::from(high)
}

// The first N numbers of 64 bits of b.
#[tactic(auto, using(crate::proofs::Words::numbers_beyond))]
pub fn numbers_in<const N: usize>(b: &[u8]) -> [u64; N]
    ensures { result ≡ numbers_in N b.now }
{
    let mut v = [0u64; N];
    if N > b.len() / 8 {
        return v;
    }
    for (i, x) in v.iter_mut().enumerate() {
        *x = number_at(b, i * 8);
    }
    v
}

// The eight bytes of x from `at`.
// `put_number`, `number_at`, `put_numbers` and `numbers_in` stand beside `put_word` and its like, as `le8` beside `le4`: a trait for both would have more members than these have lines.
#[tactic(auto, using(codec::proofs::Overs::put_over, crate::proofs::Words::eight_bytes))]
fn put_number(b: &mut [u8], at: usize, x: u64)
    requires { at + 8 ≤ length b.old }
    ensures { b.new ≡ over b.old at (le8 x) }
{
    b[at..at + 8].copy_from_slice(&x.to_le_bytes());
}

// The bytes of the numbers.
#[tactic(auto, using(answer::proofs::Overs::over_nil, crate::proofs::Words::over_number), unfolding(crate::specs::Words::flat8))]
fn put_numbers(b: &mut [u8], v: &[u64])
    requires { length v.now * 8 ≤ length b.old }
    ensures { b.new ≡ over b.old 0 (flat8 v.now) }
{
    for (i, x) in v.iter().enumerate() {
        put_number(b, i * 8, *x);
    }
}

// The 184 bytes of 23 numbers of 64 bits.
#[tactic(auto, using(codec::proofs::Overs::over_all, crate::proofs::Words::length_flat8))]
pub fn bytes_of(v: [u64; 23]) -> [u8; 184]
    ensures { result ≡ flat8 v }
{
    let mut t = [0u8; 184];
    put_numbers(&mut t, &v);
    t
}
