// The kinds of words, and words put together of a kind and a content.

// Kept: a type like that of `words`, since the second account stands on no crate that it is compared with.
#[derive(Clone, Copy, PartialEq, Eq)]
pub enum Kind {
    Header,
    Prices,
    Source,
    Target,
    Rule,
    Binding,
    Glue,
}

impl From<Kind> for u32 {
    fn from(kind: Kind) -> u32 {
        match kind {
            Kind::Header => 1,
            Kind::Prices => 2,
            Kind::Source => 3,
            Kind::Target => 4,
            Kind::Rule => 5,
            Kind::Binding => 6,
            Kind::Glue => 7,
        }
    }
}

impl Kind {
    // The word of this kind with a content.
    pub fn word(self, content: u32) -> u32 {
        (u32::from(self) << 28) | content
    }
}

// The kind of a word; 0 and 8 to 15 are of none.
pub fn kind_of(word: u32) -> Option<Kind> {
    match word / 0x1000_0000 {
        1 => Some(Kind::Header),
        2 => Some(Kind::Prices),
        3 => Some(Kind::Source),
        4 => Some(Kind::Target),
        5 => Some(Kind::Rule),
        6 => Some(Kind::Binding),
        7 => Some(Kind::Glue),
        _ => None,
    }
}
