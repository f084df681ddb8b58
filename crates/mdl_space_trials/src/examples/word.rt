//! `mdl_word`: a word that counts readers.
use mdl_key::{Kind, Mode};
use mdl_word::Word;

#[test]
fn readers_are_counted(rt: HostRuntime) {
    // What one more reader adds to a table's word. A change is counted in none.
    assert!(rt; Word::increment(Kind::Object, Mode::SR) == Some(1 << 20));
    assert!(rt; Word::increment(Kind::Object, Mode::X).is_none());
    // Two readers stand in the way of a change, and of no writer.
    let word = Word(2 << 20);
    assert!(rt; word.counts() == [0, 2, 0]);
    assert!(rt; word.blocks(Kind::Object, Mode::X) && !word.blocks(Kind::Object, Mode::SW));
}
