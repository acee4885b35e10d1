// The words of a reader's state, out of bytes and back.
ghost use Rattle.std.specs.Prelude.{◌+◌, ◌<◌, ◌≤◌, length, ◌≡◌};
ghost use Rattle.reader.specs.Layout.{state_size};
ghost use Rattle.triples.specs.Listing.{Laid};
ghost use Rattle.capture.specs.State.{bytes_of, word_at, state_bytes, lent_words, with_words};

use reader::layout;

// Eight bytes a word.
pub const BYTES: usize = 8 * layout::STATE;

pub fn words_in(bytes: &[u8]) -> [u64; layout::STATE]
    requires { state_bytes ≤ length bytes.now }
    ensures { result ≡ lent_words bytes.now }
{
    // By places and not by the pieces of `as_chunks`: the clause of `word_at` stays, which takes the word at a place, as `words_from` of specs/State does.
    std::array::from_fn(|i| word_at(bytes, 8 * i))
}

fn word_at(bytes: &[u8], place: usize) -> u64
    requires { place + 8 ≤ length bytes.now }
    ensures { result ≡ word_at bytes.now place }
{
    u64::from_le_bytes(bytes[place..].as_chunks().0[0])
}

pub fn put(bytes: &mut [u8], words: &[u64])
    requires { (state_bytes ≤ length bytes.old) × (length words.now ≡ state_size) }
    ensures { bytes.new ≡ with_words bytes.old words.now }
{
    // By places: the proof by `as_chunks_mut` doesn't close, since its contract says nothing of what the slice ends as.
    for (i, &word) in words.iter().enumerate() {
        put_word(bytes, 8 * i, word);
    }
}

fn put_word(bytes: &mut [u8], place: usize, word: u64)
    requires { place + 8 ≤ length bytes.old }
    ensures { Laid place (bytes_of 8 word) bytes.old bytes.new }
{
    bytes[place..place + 8].copy_from_slice(&word.to_le_bytes());
}
