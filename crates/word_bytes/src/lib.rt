// Words as bytes, the lowest byte of each first, and back.
#![tactic(auto)]

ghost use Rattle.std.specs.Prelude.{◌≡◌, ◌+◌, ◌*◌, ◌≤◌, ◌<◌, length};
ghost use Rattle.answer.specs.Lists.{filled};
ghost use Rattle.word_bytes.specs.Bytes.{byte_at, word_at};
ghost use Rattle.word_bytes.specs.Engine.{word_put};

mod lent;

pub use lent::{LentWords, LittleEndian, Numbers, put_words};

// Word i as bytes, the lowest first.
#[tactic(auto, unfolding(crate::specs::Engine::word_put))]
pub fn put_word(out: &mut [u8], i: usize, w: u32)
    requires { 4 * i + 4 ≤ length out.old }
    ensures { out.new ≡ word_put out.old i w }
{
    out[4 * i] = (w % 256) as u8;
    out[4 * i + 1] = (w / 256 % 256) as u8;
    out[4 * i + 2] = (w / 65536 % 256) as u8;
    out[4 * i + 3] = (w / 16777216 % 256) as u8;
}

// The first n words as bytes, the lowest byte of each first.
#[tactic(auto, using(crate::proofs::Fronts::taken_bytes))]
pub fn put_bytes(out: &mut [u8], words: &[u32], n: usize)
    requires { (n ≤ length words.now) × (n ≤ 154) × (4 * n ≤ length out.old) }
    ensures { out.new ≡ filled (byte_at words.now) (4 * n) out.old }
{
    put_words(&mut LittleEndian { bytes: out }, 0, &words[..n])
}

// Word i of the bytes.
#[tactic(auto, unfolding(crate::specs::Bytes::word_at))]
fn word_in(bytes: &[u8], i: usize) -> u32
    requires { 4 * i + 4 ≤ length bytes.now }
    ensures { result ≡ word_at bytes.now i }
{
    let at = 4 * i;
    u32::from(bytes[at])
        + 256
            * (u32::from(bytes[at + 1])
                + 256 * (u32::from(bytes[at + 2]) + 256 * u32::from(bytes[at + 3])))
}

// The first n words of the bytes.
pub fn get_words(local: &mut [u32], bytes: &[u8], n: usize)
    requires { (n ≤ length local.old) × (4 * n ≤ length bytes.now) }
    ensures { local.new ≡ filled (word_at bytes.now) n local.old }
{
    for i in 0..n {
        local[i] = word_in(bytes, i);
    }
}
