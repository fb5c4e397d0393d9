// The pending second in 204 lent bytes: the test of refusal 17.
#![tactic(auto)]

ghost use Rattle.std.specs.Prelude.{◌≡◌, length};
ghost use Rattle.words.specs.Words.{words_of};
ghost use Rattle.slot.specs.Slot.{figures_ranged, slot_sound};

// Of each figure the greatest: frames and ten heads, then near-end and far-end blocks, near and far DS and the sum of section, path and levels.
const GREATEST: [u32; 51] = [
    400000, 400000, 400000, 400000, 400000, 400000, 400000, 400000, 400000, 400000, 400000, 400000,
    400000, 1, 1, 3200000, 400000, 400000, 1, 1, 3200000, 400000, 400000, 1, 1, 3200000, 400000,
    400000, 1, 1, 3200000, 400000, 400000, 1, 1, 3200000, 400000, 400000, 1, 1, 3200000, 400000,
    400000, 1, 1, 3200000, 400000, 400000, 1, 1, 3200000,
];

// Whether each figure is at most its greatest: one loop over the bytes as they are lent, without an early end, so that the test of 17 is the same work for all bytes (speed/flat).
#[tactic(auto, unfolding(ranges::specs::Sound::below))]
fn are_ranged(b: &[u8; 204]) -> bool
    ensures { result ≡ figures_ranged (words_of 51 b.now) }
{
    let (figures, _) = b.as_chunks();
    let mut good = true;
    for (most, figure) in GREATEST.iter().zip(figures) {
        good = good & (u32::from_le_bytes(*figure) <= *most);
    }
    good
}

// Whether lent bytes are a slot: their length, and each figure within its range.
#[tactic(auto, unfolding(crate::specs::Slot::slot_sound))]
pub fn is_slot(b: &[u8]) -> bool
    ensures { result ≡ slot_sound b.now }
{
    match b.as_array() {
        Some(slot) => are_ranged(slot),
        None => false,
    }
}
