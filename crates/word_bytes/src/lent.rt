// Words that are lent, as numbers or as bytes, and written one by one.

ghost use Rattle.std.specs.Prelude.{◌≡◌, ℕ, ◌+◌, ◌≤◌, ◌<◌, ◌^◌, List, length, slice_set};
ghost use Rattle.std.specs.Borrow.{GName};
ghost use Rattle.word_bytes.specs.Engine.{word_put};
ghost use Rattle.word_bytes.specs.Lent.{room_of_bytes, puts};

pub trait LentWords {
    // what is lent, in its own units
    ghost buffer: { Self → List ℕ };

    // how many words it holds
    ghost room: { List ℕ → ℕ };

    // the buffer with one word replaced
    ghost put: { List ℕ → ℕ → ℕ → List ℕ };

    // which loan it is
    ghost loan: { Self → GName };

    fn put(&mut self, index: usize, word: u32)
        requires { index < room (buffer self.old) }
        ensures written { buffer self.new ≡ put (buffer self.old) index word }
        ensures same_room { room (buffer self.new) ≡ room (buffer self.old) }
        ensures same_loan { loan self.new ≡ loan self.old };
}

// Words as numbers.
#[derive(Drop)]
pub struct Numbers<'a> {
    pub words: &'a mut [u32],
}

impl LentWords for Numbers<'_> {
    ghost buffer = { λ s. s.words.now };

    ghost room = { length };

    ghost put = { slice_set };

    ghost loan = { λ s. s.words.ghost_name };

    fn put(&mut self, index: usize, word: u32) {
        self.words[index] = word;
    }
}

// Words as bytes, the lowest of each first.
#[derive(Drop)]
pub struct LittleEndian<'a> {
    pub bytes: &'a mut [u8],
}

impl LentWords for LittleEndian<'_> {
    ghost buffer = { λ s. s.bytes.now };

    ghost room = { room_of_bytes };

    ghost put = { word_put };

    ghost loan = { λ s. s.bytes.ghost_name };

    fn put(&mut self, index: usize, word: u32) {
        crate::put_word(self.bytes, index, word);
    }
}

// Words from a place on.
pub fn put_words<W: LentWords>(out: &mut W, from: usize, words: &[u32])
    requires { (from + length words.now ≤ W.room (W.buffer out.old)) × (from + length words.now < 2 ^ 64) }
    ensures written { W.buffer out.new ≡ puts W.put (W.buffer out.old) from words.now }
    ensures same_room { W.room (W.buffer out.new) ≡ W.room (W.buffer out.old) }
    ensures same_loan { W.loan out.new ≡ W.loan out.old }
{
    for (i, word) in words.iter().enumerate() {
        out.put(from + i, *word);
    }
}
