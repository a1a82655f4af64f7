ghost use Rattle.std.specs.Prelude.{◌≡◌, ◌+◌, ◌-◌, ◌*◌, ◌/◌, ◌^◌, ◌<◌, ◌≤◌, length};
ghost use Rattle.mw_fill.specs.Draws.{start_of, words_of, at_place, drawn, shuffled, place_after};

use rand_chacha::ChaCha20Rng;
use rand_core::SeedableRng;
use rand_core::utils::NextWord;
use std::marker::Model;

/// The words of one stream of a seed, from a place on. After 2^68 words they begin anew.
#[derive(Drop)]
pub struct Words {
    generator: ChaCha20Rng,
}

impl Model for Words {
    ghost use Rattle.std.specs.Prelude.{◌<◌, ◌^◌};
    ghost use Rattle.rand_chacha.specs.ChaCha.{ChaCha};

    ghost Value = { ChaCha };

    ghost view = { λ w. w.generator };

    ghost invariant = { λ w. w.generator.word_pos < 2 ^ 68 };
}

impl Words {
    /// The words of ChaCha20 with the key that is the seed, least byte first, and 24 zero bytes;
    /// the first word is that at place 0 of the stream. It takes no memory.
    pub fn new(seed: u64, stream: u64) -> Words
        ensures { result ≡ start_of seed stream }
    {
        let mut key = [0; 32];
        key[0..8].copy_from_slice(&seed.to_le_bytes());
        let mut generator = ChaCha20Rng::from_seed(key);
        generator.set_stream(stream);
        Words { generator }
    }

    /// The next word.
    pub fn next(&mut self) -> u32
        ensures word { result ≡ words_of self.old self.old.word_pos }
        ensures place { self.new ≡ at_place self.old (self.old.word_pos + 1) }
    {
        self.generator.next_word()
    }
}

/// A number below `k` from a word: the product of both without its lowest 32 bits. `k` is at least
/// 1.
pub fn draw(word: u32, k: u32) -> u32
    requires { 1 ≤ k }
    ensures value { result ≡ drawn word k }
    ensures below { result < k }
{
    ((u64::from(word) * u64::from(k)) >> 32) as u32
}

/// Puts fewer than 2^32 entries into the order that the next words give. From the last entry down
/// to the second, each changes places with the one at a number drawn at or below its own. It takes
/// no memory.
pub(crate) fn shuffle_entries<T>(words: &mut Words, entries: &mut [T])
    requires { length entries.old < 2 ^ 32 }
    ensures entries { entries.new ≡ shuffled (words_of words.old) words.old.word_pos entries.old }
    ensures words { words.new ≡ at_place words.old (place_after words.old.word_pos entries.old) }
{
    // Reading the words makes known that their place is below 2^68.
    let _ = &words.generator;
    let mut i = entries.len();
    while 1 < i {
        i -= 1;
        let word = words.next();
        let j = draw(word, (i + 1) as u32);
        entries.swap(i, j as usize);
    }
}

/// Puts fewer than 2^32 numbers into the order that the next words give. From the last one down to
/// the second, each changes places with the one at a number drawn at or below its own. It takes no
/// memory.
pub fn shuffle(words: &mut Words, numbers: &mut [u32])
    requires { length numbers.old < 2 ^ 32 }
    ensures numbers { numbers.new ≡ shuffled (words_of words.old) words.old.word_pos numbers.old }
    ensures words { words.new ≡ at_place words.old (place_after words.old.word_pos numbers.old) }
{
    shuffle_entries(words, numbers);
}
