// The terms of a job, by which rules and bindings are judged and priced.
use bits::Width;
use words::Prices;

// A job's width, its prices, and its source and target words.
#[derive(Clone, Copy)]
pub struct Terms<'a> {
    pub width: Width,
    pub prices: Prices,
    pub sources: &'a [u32],
    pub targets: &'a [u32],
}
