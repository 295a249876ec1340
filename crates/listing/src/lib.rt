// What is printed of a mapping: a line for each binding, and the glue count, put behind what stands of a text.
#![tactic(auto)]

ghost use Rattle.std.specs.Prelude.{◌≡◌, ◌+◌, ◌*◌, ◌≤◌, ◌++◌, length};
ghost use Rattle.listing.specs.Listing as L;

use text::Text;

// A binding: its source, its target or LV, and its word.
#[tactic(auto, unfolding(crate::specs::Listing::binding_text, text::specs::Text::hexadecimal))]
pub fn put_binding<const ROOM: usize>(word: u32, text: &mut Text<ROOM>)
    requires { length text.old + L.most_binding_text ≤ ROOM }
    ensures short { length text.new ≤ length text.old + L.most_binding_text }
    ensures text { text.new ≡ text.old ++ L.binding_text word }
{
    text.put_name(recipe::source_of(word));
    text.put(b" ");
    text.put_name(recipe::target_of(word));
    text.put(b" ");
    text.put_digits(word as u64, 16, 8);
}

// A binding's line.
#[tactic(auto, unfolding(crate::specs::Listing::binding_line))]
pub fn binding_line<const ROOM: usize>(word: u32, text: &mut Text<ROOM>)
    requires { length text.old + L.most_binding_bytes ≤ ROOM }
    ensures short { length text.new ≤ length text.old + L.most_binding_bytes }
    ensures text { text.new ≡ text.old ++ L.binding_line word }
{
    put_binding(word, text);
    text.put(b"\n");
}

// The glue count.
#[tactic(auto, unfolding(crate::specs::Listing::glue_line))]
pub fn glue_line<const ROOM: usize>(count: u32, text: &mut Text<ROOM>)
    requires { length text.old + L.most_glue_bytes ≤ ROOM }
    ensures short { length text.new ≤ length text.old + L.most_glue_bytes }
    ensures text { text.new ≡ text.old ++ L.glue_line count }
{
    text.put_labelled(b"GLUE ", count as u64);
    text.put(b"\n");
}

// The bindings of a mapping's words, a line each, and the glue count.
#[tactic(auto, using(std::proofs::lemmas::List::append_assoc, crate::proofs::Mapped::mapped_next, crate::proofs::Mapped::mapped_last, crate::proofs::Mapped::nothing_put))]
pub fn put_mapping<const ROOM: usize>(words: &[u32], text: &mut Text<ROOM>)
    requires { length text.old + L.most_binding_bytes * length words.now + L.most_glue_bytes ≤ ROOM }
    ensures short { length text.new ≤ length text.old + L.most_binding_bytes * length words.now + L.most_glue_bytes }
    ensures text { text.new ≡ text.old ++ L.mapped_text words.now }
{
    if words.len() <= reader::BINDINGS_START {
        return;
    }
    let last = words.len() - 1;
    for binding in &words[reader::BINDINGS_START..last] {
        binding_line(*binding, text);
    }
    glue_line(words::content_of(words[last]), text);
}
