// The reader for C: the words of an accepted frame straight as bytes, of each the lowest first. `reader` has the table and the words.
#![tactic(auto)]

ghost use Rattle.std.specs.Prelude.{◌≡◌};
ghost use Rattle.byte_reader.specs.Bytes.{bytes_read_answer, read_bytes};

use answer::Answer;
use word_bytes::LittleEndian;

// Reads a frame: the answer, and on acceptance the words, as bytes, at the front of the lent ones. A refusal writes nothing.
#[tactic(auto, using(crate::proofs::Fronts::as_bytes))]
pub fn read(bandwidth: u32, cc1: &[u8], cc2: &[u8], words: &mut [u8]) -> Answer
    ensures value { result ≡ bytes_read_answer bandwidth cc1.now cc2.now words.old }
    ensures words_after { words.new ≡ read_bytes bandwidth cc1.now cc2.now words.old }
{
    let room = words.len() / 4;
    reader::read_to(
        bandwidth,
        cc1,
        cc2,
        &mut LittleEndian { bytes: words },
        room,
    )
}
