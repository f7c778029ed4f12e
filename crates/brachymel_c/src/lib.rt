// The entries for C, each with the clauses of brachymel's of that name, which it calls. include/brachymel.h is what C sees of
// them.
#![tactic(auto)]

ghost use Rattle.std.specs.Prelude.{◌≡◌, length};
ghost use Rattle.byte_reader.specs.Bytes.{bytes_read_answer, read_bytes};
ghost use Rattle.brachymel.specs.Bytes.{bytes_write_answer, write_channel};
ghost use Rattle.listed.specs.Listing.{list_answer, list_after};
ghost use Rattle.compared.specs.Text.{compare_answer, compare_after};
ghost use Rattle.trigger.specs.Reading.{entry_answer, record_read};
ghost use Rattle.trigger.specs.Writing.{record_answer, entry_written};
ghost use Rattle.overlaps.specs.Result.{overlaps_answer, pairs_after};
ghost use Rattle.stream_rows.specs.Result.{row_answer, row_after, number_answer};
ghost use Rattle.streams.specs.Result.{streams_answer, streams_after};

use answer::Answer;

#[unsafe(no_mangle)]
pub extern "C" fn brachymel_read(bandwidth: u32, cc1: &[u8], cc2: &[u8], words: &mut [u8]) -> Answer
    ensures value { result ≡ bytes_read_answer bandwidth cc1.now cc2.now words.old }
    ensures words_after { words.new ≡ read_bytes bandwidth cc1.now cc2.now words.old }
{
    brachymel::brachymel_read(bandwidth, cc1, cc2, words)
}

#[unsafe(no_mangle)]
pub extern "C" fn brachymel_write(
    bandwidth: u32,
    words: &[u8],
    cc1: &mut [u8],
    cc2: &mut [u8],
) -> Answer
    ensures value { result ≡ bytes_write_answer bandwidth words.now (length cc1.old) (length cc2.old) }
    ensures cc1_after { cc1.new
        ≡ write_channel bandwidth words.now (length cc1.old) (length cc2.old) 1 cc1.old }
    ensures cc2_after { cc2.new
        ≡ write_channel bandwidth words.now (length cc1.old) (length cc2.old) 2 cc2.old }
{
    brachymel::brachymel_write(bandwidth, words, cc1, cc2)
}

#[unsafe(no_mangle)]
pub extern "C" fn brachymel_list(bandwidth: u32, cc1: &[u8], cc2: &[u8], text: &mut [u8]) -> Answer
    ensures value { result ≡ list_answer bandwidth cc1.now cc2.now (length text.old) }
    ensures text_after { text.new ≡ list_after bandwidth cc1.now cc2.now text.old }
{
    brachymel::brachymel_list(bandwidth, cc1, cc2, text)
}

// ---- two frames compared (02, T-06)

#[unsafe(no_mangle)]
pub extern "C" fn brachymel_compare(
    bandwidth1: u32,
    cc1: &[u8],
    cc2: &[u8],
    bandwidth2: u32,
    other1: &[u8],
    other2: &[u8],
    text: &mut [u8],
) -> Answer
    ensures value { result ≡ compare_answer bandwidth1 cc1.now cc2.now bandwidth2 other1.now other2.now
        (length text.old) }
    ensures text_after { text.new
        ≡ compare_after bandwidth1 cc1.now cc2.now bandwidth2 other1.now other2.now text.old }
{
    brachymel::brachymel_compare(bandwidth1, cc1, cc2, bandwidth2, other1, other2, text)
}

// ---- entries of a Trigger frame (02, T-02)

#[unsafe(no_mangle)]
pub extern "C" fn brachymel_trigger_read(bandwidth: u32, entry: &[u8], out: &mut [u8]) -> Answer
    ensures value { result ≡ entry_answer bandwidth entry.now (length out.old) }
    ensures out_after { out.new ≡ record_read bandwidth entry.now out.old }
{
    brachymel::brachymel_trigger_read(bandwidth, entry, out)
}

#[unsafe(no_mangle)]
pub extern "C" fn brachymel_trigger_write(bandwidth: u32, given: &[u8], entry: &mut [u8]) -> Answer
    ensures value { result ≡ record_answer bandwidth given.now (length entry.old) }
    ensures entry_after { entry.new ≡ entry_written bandwidth given.now entry.old }
{
    brachymel::brachymel_trigger_write(bandwidth, given, entry)
}

#[unsafe(no_mangle)]
pub extern "C" fn brachymel_trigger_overlaps(
    bandwidth: u32,
    entries: &[u8],
    pairs: &mut [u8],
) -> Answer
    ensures value { result ≡ overlaps_answer bandwidth entries.now (length pairs.old) }
    ensures pairs_after { pairs.new ≡ pairs_after bandwidth entries.now pairs.old }
{
    brachymel::brachymel_trigger_overlaps(bandwidth, entries, pairs)
}

// ---- spatial streams (02, T-11)

#[unsafe(no_mangle)]
pub extern "C" fn brachymel_streams_row(users: u32, number: u32, row: &mut [u8]) -> Answer
    ensures value { result ≡ row_answer users number (length row.old) }
    ensures row_after { row.new ≡ row_after users number row.old }
{
    brachymel::brachymel_streams_row(users, number, row)
}

#[unsafe(no_mangle)]
pub extern "C" fn brachymel_streams_number(row: &[u8]) -> Answer
    ensures { result ≡ number_answer row.now }
{
    brachymel::brachymel_streams_number(row)
}

#[unsafe(no_mangle)]
pub extern "C" fn brachymel_streams(
    bandwidth: u32,
    cc1: &[u8],
    cc2: &[u8],
    out: &mut [u8],
) -> Answer
    ensures value { result ≡ streams_answer bandwidth cc1.now cc2.now (length out.old) }
    ensures out_after { out.new ≡ streams_after bandwidth cc1.now cc2.now out.old }
{
    brachymel::brachymel_streams(bandwidth, cc1, cc2, out)
}
