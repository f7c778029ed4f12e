// The entries: numbers and bytes. The crate brachymel_c exports each to C under the same name.
#![tactic(auto)]

ghost use Rattle.std.specs.Prelude.{◌≡◌, length};
ghost use Rattle.byte_reader.specs.Bytes.{bytes_read_answer, read_bytes};
ghost use Rattle.brachymel.specs.Bytes.{bytes_write_answer, write_channel};
ghost use Rattle.listed.specs.Listing.{list_answer, list_after};
ghost use Rattle.compared.specs.Text.{compare_answer, compare_after};
ghost use Rattle.trigger.specs.Reading.{entry_answer, record_read};
ghost use Rattle.trigger.specs.Writing.{record_answer, entry_written};
ghost use Rattle.overlaps.specs.Result.{overlaps_answer, pairs_after};
ghost use Rattle.stream_rows.specs.Result.{row_answer, row_after, number_answer};
ghost use Rattle.streams.specs.Result.{streams_answer, streams_after};

use answer::Answer;

pub fn brachymel_read(bandwidth: u32, cc1: &[u8], cc2: &[u8], words: &mut [u8]) -> Answer
    ensures value { result ≡ bytes_read_answer bandwidth cc1.now cc2.now words.old }
    ensures words_after { words.new ≡ read_bytes bandwidth cc1.now cc2.now words.old }
{
    byte_reader::read(bandwidth, cc1, cc2, words)
}

pub fn brachymel_write(bandwidth: u32, words: &[u8], cc1: &mut [u8], cc2: &mut [u8]) -> Answer
    ensures value { result ≡ bytes_write_answer bandwidth words.now (length cc1.old) (length cc2.old) }
    ensures cc1_after { cc1.new
        ≡ write_channel bandwidth words.now (length cc1.old) (length cc2.old) 1 cc1.old }
    ensures cc2_after { cc2.new
        ≡ write_channel bandwidth words.now (length cc1.old) (length cc2.old) 2 cc2.old }
{
    let n = words.len() / 4;
    let early = whole_words::refused_early(bandwidth, words.len(), n);
    if let Err(x) = early {
        return x.into();
    }
    writer::write_bytes(bandwidth, words, cc1, cc2)
}

pub fn brachymel_list(bandwidth: u32, cc1: &[u8], cc2: &[u8], text: &mut [u8]) -> Answer
    ensures value { result ≡ list_answer bandwidth cc1.now cc2.now (length text.old) }
    ensures text_after { text.new ≡ list_after bandwidth cc1.now cc2.now text.old }
{
    listing::list(bandwidth, cc1, cc2, text)
}

// ---- two frames compared (02, T-06)

pub fn brachymel_compare(
    bandwidth1: u32,
    cc1: &[u8],
    cc2: &[u8],
    bandwidth2: u32,
    other1: &[u8],
    other2: &[u8],
    text: &mut [u8],
) -> Answer
    ensures value { result ≡ compare_answer bandwidth1 cc1.now cc2.now bandwidth2 other1.now other2.now
        (length text.old) }
    ensures text_after { text.new
        ≡ compare_after bandwidth1 cc1.now cc2.now bandwidth2 other1.now other2.now text.old }
{
    compare::compare(bandwidth1, cc1, cc2, bandwidth2, other1, other2, text)
}

// ---- entries of a Trigger frame (02, T-02)

pub fn brachymel_trigger_read(bandwidth: u32, entry: &[u8], out: &mut [u8]) -> Answer
    ensures value { result ≡ entry_answer bandwidth entry.now (length out.old) }
    ensures out_after { out.new ≡ record_read bandwidth entry.now out.old }
{
    trigger::read(bandwidth, entry, out)
}

pub fn brachymel_trigger_write(bandwidth: u32, given: &[u8], entry: &mut [u8]) -> Answer
    ensures value { result ≡ record_answer bandwidth given.now (length entry.old) }
    ensures entry_after { entry.new ≡ entry_written bandwidth given.now entry.old }
{
    trigger::write(bandwidth, given, entry)
}

pub fn brachymel_trigger_overlaps(bandwidth: u32, entries: &[u8], pairs: &mut [u8]) -> Answer
    ensures value { result ≡ overlaps_answer bandwidth entries.now (length pairs.old) }
    ensures pairs_after { pairs.new ≡ pairs_after bandwidth entries.now pairs.old }
{
    overlaps::overlaps(bandwidth, entries, pairs)
}

// ---- spatial streams (02, T-11)

pub fn brachymel_streams_row(users: u32, number: u32, row: &mut [u8]) -> Answer
    ensures value { result ≡ row_answer users number (length row.old) }
    ensures row_after { row.new ≡ row_after users number row.old }
{
    stream_rows::put_row(users, number, row)
}

pub fn brachymel_streams_number(row: &[u8]) -> Answer
    ensures { result ≡ number_answer row.now }
{
    stream_rows::number_of(row)
}

pub fn brachymel_streams(bandwidth: u32, cc1: &[u8], cc2: &[u8], out: &mut [u8]) -> Answer
    ensures value { result ≡ streams_answer bandwidth cc1.now cc2.now (length out.old) }
    ensures out_after { out.new ≡ streams_after bandwidth cc1.now cc2.now out.old }
{
    streams::streams(bandwidth, cc1, cc2, out)
}
