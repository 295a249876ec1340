// A word of any kind that the layout allows.
ghost use Rattle.std.specs.Prelude.{◌≡◌, ◌+◌, ◌≤◌, ◌++◌, length};
ghost use Rattle.text.specs.Text as P;
ghost use Rattle.describe.specs.Describe as D;
ghost use Rattle.describe.specs.Room as M;

use crate::recipes::put_recipe;
use text::Text;
use words::{Word, WordKind};

#[tactic(auto, using(crate::proofs::Described::fields), unfolding(crate::specs::Describe::header_text))]
fn put_header<const ROOM: usize>(word: u32, text: &mut Text<ROOM>)
    requires { length text.old + M.most_kind ≤ ROOM }
    ensures short { length text.new ≤ length text.old + M.most_kind }
    ensures text { text.new ≡ text.old ++ D.header_text word }
{
    text.put_labelled(b"header: width ", (word & 0x7f) as u64);
    if (word >> 7) & 1 == 1 {
        text.put(b", with the book");
    }
}

#[tactic(auto, using(crate::proofs::Described::fields), unfolding(crate::specs::Describe::prices_text))]
fn put_prices<const ROOM: usize>(word: u32, text: &mut Text<ROOM>)
    requires { length text.old + M.most_kind ≤ ROOM }
    ensures short { length text.new ≤ length text.old + M.most_kind }
    ensures text { text.new ≡ text.old ++ D.prices_text word }
{
    text.put_labelled(b"prices: inverter ", ((word >> 16) & 0xff) as u64);
    text.put_labelled(b", gate ", ((word >> 8) & 0xff) as u64);
    text.put_labelled(b", multiplexer ", (word & 0xff) as u64);
}

// A function's name behind what it is.
fn put_function<const ROOM: usize>(label: &[u8], function: u32, text: &mut Text<ROOM>)
    requires { length text.old + length label.now + 5 ≤ ROOM }
    ensures short { length text.new ≤ length text.old + length label.now + 5 }
    ensures text { text.new ≡ text.old ++ label.now ++ P.name_of function }
{
    text.put(label);
    text.put_name(function);
}

#[tactic(auto, unfolding(crate::specs::Describe::target_text))]
fn put_target<const ROOM: usize>(word: u32, text: &mut Text<ROOM>)
    requires { length text.old + M.most_kind ≤ ROOM }
    ensures short { length text.new ≤ length text.old + M.most_kind }
    ensures text { text.new ≡ text.old ++ D.target_text word }
{
    put_function(b"target ", words::target_function(word), text);
    if words::target_negated(word) {
        text.put(b", negated");
    }
}

// What a word is, by its kind.
#[tactic(auto, unfolding(crate::specs::Describe::word_text))]
pub fn put_kind<const ROOM: usize>(word: Word, text: &mut Text<ROOM>)
    requires { length text.old + M.most_kind ≤ ROOM }
    ensures short { length text.new ≤ length text.old + M.most_kind }
    ensures text { text.new ≡ text.old ++ D.word_text word.bits }
{
    let Word { bits, kind } = word;
    match kind {
        WordKind::Header => put_header(bits, text),
        WordKind::Prices => put_prices(bits, text),
        WordKind::Source => put_function(b"source ", words::source_function(bits), text),
        WordKind::Target => put_target(bits, text),
        WordKind::Rule => put_recipe(b"rule ", bits, text),
        WordKind::Binding => put_recipe(b"binding ", bits, text),
        WordKind::Glue => text.put_labelled(b"glue count ", words::content_of(bits) as u64),
    }
}
