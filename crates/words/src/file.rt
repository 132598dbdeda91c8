//! Words of 64 bits in a file of bytes, the lowest byte first: written from a place on and read at a place.
ghost use Rattle.std.specs.Prelude.{◌≡◌, ◌+◌, ◌*◌, ◌≤◌, length};
ghost use Rattle.words.specs.Lists.{patch};
ghost use Rattle.words.specs.File.{word_bytes, word_at, words_at};

/// Writes words into a file, the first as word number `at`.
pub fn put_words(words: &[u64], file: &mut [u8], at: usize)
    requires { 8 * (at + length words.now) ≤ length file.old }
    ensures { file.new ≡ patch (8 * at) (word_bytes words.now) file.old }
{
    for (i, word) in words.iter().enumerate() {
        let place = 8 * (at + i);
        file[place..place + 8].copy_from_slice(&word.to_le_bytes());
    }
}

/// Word number i of a file.
pub fn word_at(file: &[u8], i: usize) -> u64
    requires { 8 * (i + 1) ≤ length file.now }
    ensures { result ≡ word_at file.now i }
{
    let place = 8 * i;
    u64::from_le_bytes(*file[place..].first_chunk().unwrap())
}

/// Reads words from word number `at` on, as many as there is room for.
pub fn get_words(file: &[u8], at: usize, words: &mut [u64])
    requires { 8 * (at + length words.old) ≤ length file.now }
    ensures { words.new ≡ words_at file.now at (length words.old) }
{
    for i in 0..words.len() {
        words[i] = word_at(file, at + i);
    }
}
