// The places of a word, 0 the lowest. Words have 64 places, and no place asked for is beyond them.
pub fn bit(word: u64, place: u32) -> bool {
    (word >> (place % 64)) % 2 == 1
}

// A word with a bit put at a place that was clear.
pub fn with_bit(word: u64, place: u32, b: bool) -> u64 {
    if b {
        word | (1u64 << (place % 64))
    } else {
        word
    }
}

// The word of n places that a gate makes of two words, place by place.
pub fn at_each_place<F: Fn(bool, bool) -> bool>(n: u32, left: u64, right: u64, gate: F) -> u64
    requires { F.IsAlwaysCallable gate }
{
    let mut word = 0;
    for place in 0..n {
        word = with_bit(word, place, gate(bit(left, place), bit(right, place)));
    }
    word
}

// Whether a word has n bits: halved n times, nothing is left of it.
pub fn fits(word: u64, n: u32) -> bool {
    let mut rest = word;
    for _ in 0..n {
        rest /= 2;
    }
    rest == 0
}
