// The lines of a channel's User fields, each with its station and the number of its owner, into a lent buffer; how many are a station's.
#![tactic(auto)]

ghost use Rattle.std.specs.Prelude.{◌≡◌, ◌+◌, ◌*◌, ◌≤◌, ◌<◌, length};
ghost use Rattle.answer.specs.Tally.{tally};
ghost use Rattle.answer.specs.Lists.{at as value};
ghost use Rattle.resource.specs.Values.{fields_of};
ghost use Rattle.stations.specs.Engine.{station_in};
ghost use Rattle.text.specs.Text.{Wrote, upto};
ghost use Rattle.plan.specs.Engine.{kinds_of};
ghost use Rattle.records.specs.Owns.{fields_before};
ghost use Rattle.records.specs.Engine.{numbers_of};
ghost use Rattle.lines.specs.Lines.{assigned};
ghost use Rattle.station_lines.specs.Engine.{given_line, owned_line};

use lines::{is_assigned, put_sta};

// The STA-ID of a field, its number's eleven lowest bits.
fn station_at(fields: &[u32], i: usize) -> u32
    requires { i < length fields.now }
    ensures { (result ≡ station_in fields.now i) × (result < 2048) }
{
    fields[i] % 2048
}

// A line for each of the f User fields that position p gives its channel, of which the i-th is the first, by the row's tables.
fn put_given(
    out: &mut [u8],
    at: usize,
    fields: &[u32],
    i: usize,
    row: &[u16],
    kinds: &[u16; 16],
    before: &[u16; 17],
    p: usize,
    f: usize,
) -> usize
    requires at_bound { (at ≤ 76000) × (i ≤ 144) × (i + f ≤ length fields.now) × (f ≡ fields_of (value row.now p)) }
    requires row_len_bound { (length row.now ≤ 16) × (p < length row.now) × (kinds.now ≡ kinds_of row.now) × (before.now ≡ numbers_of row.now) }
    ensures wrote { Wrote out.old at (upto (given_line fields.now i row.now p) f) out.new result }
    ensures bounded { result ≤ at + 55 * f }
{
    if f == 0 {
        return at;
    }
    let step = resource::is_divided(row[p]) as usize; // each field of a divided position is another piece's
    let mut number = records::first_owner(kinds, before, row, p) as usize + 1;
    let mut o = at;
    for k in 0..f {
        o = put_sta(out, o, station_at(fields, i + k), number);
        number += step;
    }
    o
}

// A line for each of the n User fields of channel 1 or 2, of which the i-th is the first, position by position, as far as it has fields.
pub fn put_channel(
    out: &mut [u8],
    at: usize,
    fields: &[u32],
    i: usize,
    row: &[u16],
    kinds: &[u16; 16],
    before: &[u16; 17],
    channel: usize,
    n: usize,
) -> usize
    requires at_bound { (at ≤ 72000) × (i ≤ 72) × (i + n ≤ length fields.now) × (1 ≤ channel) × (channel ≤ 2) }
    requires row_len_bound { (length row.now ≤ 16) × (n ≡ fields_before channel (value row.now) (length row.now)) × (kinds.now ≡ kinds_of row.now)
        × (before.now ≡ numbers_of row.now) }
    ensures wrote { Wrote out.old at (upto (owned_line fields.now i row.now channel) n) out.new result }
    ensures bounded { result ≤ at + 55 * n }
{
    let mut o = at;
    let mut j: usize = 0;
    for p in (channel - 1..row.len()).step_by(2) {
        if n <= j {
            return o;
        }
        let f = resource::fields_of(row[p]) as usize;
        o = put_given(out, o, fields, i + j, row, kinds, before, p, f);
        j += f;
    }
    o
}

// How many of the first n User fields are a station's.
pub fn stations_in(fields: &[u32], n: usize) -> usize
    requires { n ≤ length fields.now }
    ensures value { result ≡ tally (λ i. assigned (station_in fields.now i)) n }
    ensures bounded { result ≤ n }
{
    let mut stations: usize = 0;
    for i in 0..n {
        stations += usize::from(is_assigned(station_at(fields, i)));
    }
    stations
}
