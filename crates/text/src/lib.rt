// What the programs print and save, put together in place.
#![tactic(auto)]

mod text;

pub use text::Text;

// Room for all that a program says at once.
pub type Said = Text<1024>;
