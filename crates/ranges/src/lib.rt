// The test of refusal 17: the length of lent bytes, and each number within its range. docs/SUPERVISOR.md has the table.
#![tactic(auto)]

ghost use Rattle.std.specs.Prelude.{◌≡◌};
ghost use Rattle.codec.specs.Over.{bytes_in};
ghost use Rattle.words.specs.Words.{words_in};
ghost use Rattle.ranges.specs.Sound.{below, line_ranged, layer_ranged, sound};

use words::word_of;

// Whether each byte is at most its greatest: one loop without an early end, so that the test of 17 is the same work for all bytes (speed/flat).
#[tactic(auto, unfolding(crate::specs::Sound::below))]
pub fn is_below<const N: usize>(greatest: &[u8; N], w: &[u8; N]) -> bool
    ensures { result ≡ below greatest.now w.now }
{
    let mut good = true;
    for (most, x) in greatest.iter().zip(w) {
        good = good & (*x <= *most);
    }
    good
}

const LINE_GREATEST: [u8; 64] = [
    3, 0, 0, 0, 0, 0, 0, 0, 0, 0, 0, 0, 0, 0, 0, 0, 0, 0, 0, 0, 0, 0, 0, 0, 0, 0, 0, 0, 255, 255,
    255, 255, 1, 1, 4, 1, 255, 4, 1, 255, 0, 0, 0, 0, 0, 0, 0, 0, 0, 0, 0, 0, 255, 255, 255, 255,
    255, 255, 255, 255, 255, 255, 255, 255,
];

const SECTION_GREATEST: [u8; 64] = [
    255, 255, 255, 255, 10, 3, 1, 1, 9, 0, 0, 0, 0, 0, 0, 0, 0, 0, 0, 0, 0, 0, 0, 0, 0, 0, 0, 0, 0,
    0, 0, 0, 1, 1, 3, 1, 4, 1, 4, 1, 2, 0, 0, 0, 0, 1, 1, 1, 1, 0, 0, 0, 255, 255, 255, 255, 255,
    255, 255, 255, 255, 255, 255, 255,
];

const PATH_GREATEST: [u8; 64] = [
    255, 255, 255, 255, 10, 3, 1, 1, 9, 0, 0, 0, 0, 0, 0, 0, 0, 0, 0, 0, 0, 0, 0, 0, 0, 0, 0, 0, 0,
    0, 0, 0, 1, 1, 3, 1, 4, 0, 0, 0, 0, 7, 3, 1, 7, 1, 1, 0, 0, 0, 0, 0, 255, 255, 255, 255, 255,
    255, 255, 255, 255, 255, 255, 255,
];

// Of the line's twelve words the greatest.
const COUNTS_GREATEST: [u32; 12] = [
    400000, 400000, 400000, 400000, 400000, 400000, 400000, 400000, 400000, 400000, 400000, 0,
];

// The line's numbers, and the twelve words of its second.
#[tactic(auto, unfolding(crate::specs::Sound::line_ranged))]
fn is_line(w: &[u8; 64], c: &[u32; 12]) -> bool
    ensures { result ≡ line_ranged w.now c.now }
{
    let small = is_below(&LINE_GREATEST, w);
    let total = word_of(w[52], w[53], w[54], w[55]);
    let good = word_of(w[56], w[57], w[58], w[59]);
    let lom = word_of(w[60], w[61], w[62], w[63]);
    let counts = words::in_range(&[0; 12], &COUNTS_GREATEST, c);
    small & ((1 <= w[0]) & ((total <= 989) & ((good <= 989) & ((lom <= 989) & counts))))
}

// A layer's numbers, by the greatest of each byte.
#[tactic(auto, unfolding(crate::specs::Sound::layer_ranged))]
fn is_layer(greatest: &[u8; 64], w: &[u8; 64]) -> bool
    ensures { result ≡ layer_ranged greatest.now w.now }
{
    let small = is_below(greatest, w);
    let thr = word_of(w[0], w[1], w[2], w[3]);
    let sum = word_of(w[52], w[53], w[54], w[55]);
    let near = word_of(w[56], w[57], w[58], w[59]);
    let far = word_of(w[60], w[61], w[62], w[63]);
    small
        & ((2 <= w[4])
            & ((1 <= thr)
                & ((thr <= 329492) & ((sum <= 3200000) & ((near <= 400000) & (far <= 400000))))))
}

// The line of lent bytes.
fn is_line_in(b: &[u8]) -> bool
    ensures { result ≡ line_ranged (bytes_in 64 0 b.now) (words_in 12 64 b.now) }
{
    is_line(&codec::array_in(b, 0), &words::words_in(b, 64))
}

// A layer's record. Fewer than 64 bytes hold no layer: they are read as zeros, and DEGM is no 0.
pub fn is_layer_in(b: &[u8], greatest: &[u8; 64]) -> bool
    ensures { result ≡ layer_ranged greatest.now (bytes_in 64 0 b.now) }
{
    is_layer(greatest, &codec::array_in(b, 0))
}

// Whether lent bytes are a supervisor's: their length, then the numbers of the line and of each layer.
#[tactic(auto, unfolding(crate::specs::Sound::sound))]
pub fn is_sound(b: &[u8]) -> bool
    ensures { result ≡ sound b.now }
{
    if b.len() != 688 {
        return false;
    }
    let line = is_line_in(b);
    let section = is_layer_in(&b[112..400], &SECTION_GREATEST);
    let path = is_layer_in(&b[400..688], &PATH_GREATEST);
    line & (section & path)
}
