use mw_fill::{Words, draw, shuffle};

/// Whether the first word of seed 0 is this, and what is drawn with it.
fn is_drawn() -> bool {
    let word = Words::new(0, 0).next();
    word == 0xade0_b876 && draw(word, 10) == 6
}

/// Whether four numbers are shuffled so with the words of seed 0.
fn is_shuffled() -> bool {
    let mut numbers = [0, 1, 2, 3];
    shuffle(&mut Words::new(0, 0), &mut numbers);
    numbers == [0, 3, 1, 2]
}

/// The first word of seed 0, and what is drawn and shuffled with it.
#[test]
fn chacha_words(rt: HostRuntime) {
    assert!(rt; is_drawn() && is_shuffled());
}
