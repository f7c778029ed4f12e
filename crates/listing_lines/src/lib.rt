// All lines of an accepted frame's listing (01, "Listing"), into a lent buffer.
#![tactic(auto)]

ghost use Rattle.std.specs.Prelude.{◌≡◌, ◌+◌, ◌*◌, ◌≤◌, length};
ghost use Rattle.text.specs.Text.{Wrote, upto};
ghost use Rattle.plan.specs.Engine.{kinds_of};
ghost use Rattle.records.specs.Engine.{numbers_of};
ghost use Rattle.position_lines.specs.Engine.{runs_lines};
ghost use Rattle.listing_lines.specs.Engine.{Counted, field_line, fields_listing};
ghost use Rattle.listed.specs.Listing.{resources};

use lines::put_head;
use position_lines::put_position;
use station_lines::{put_channel, stations_in};

// A line for each resource, by the row's table.
fn put_records(out: &mut [u8], at: usize, row: &[u16], kinds: &[u16; 16]) -> usize
    requires { (at ≤ 1000) × (length row.now ≤ 16) × (kinds.now ≡ kinds_of row.now) }
    ensures wrote { Wrote out.old at (runs_lines (length row.now) (resources row.now)) out.new result }
    ensures bounded { result ≤ at + 460 * length (resources row.now) }
{
    let mut o = at;
    for p in 0..row.len() {
        o = put_position(out, o, row, kinds[p], p);
    }
    o
}

// A line for each User field, of m in channel 1 and k in channel 2, by the row's tables.
fn put_stations(
    out: &mut [u8],
    at: usize,
    fields: &[u32],
    row: &[u16],
    kinds: &[u16; 16],
    before: &[u16; 17],
    m: usize,
    k: usize,
) -> usize
    requires at_bound { (at ≤ 68000) × (m + k ≤ length fields.now) × Counted row.now m k }
    requires row_len_bound { (length row.now ≤ 16) × (kinds.now ≡ kinds_of row.now) × (before.now ≡ numbers_of row.now) }
    ensures { Wrote out.old at (upto (field_line row.now fields.now m) (m + k)) out.new result }
{
    let o = put_channel(out, at, fields, 0, row, kinds, before, 1, m);
    if k == 0 {
        return o; // at 20 MHz always
    }
    put_channel(out, o, fields, m, row, kinds, before, 2, k)
}

// The listing of a frame whose row is given with its tables, with m fields in channel 1 and k in channel 2.
fn put_tabled(
    out: &mut [u8],
    bw: u32,
    fields: &[u32],
    row: &[u16],
    kinds: &[u16; 16],
    before: &[u16; 17],
    m: usize,
    k: usize,
) -> usize
    requires bw_bound { (bw ≤ 4) × (m + k ≤ length fields.now) × Counted row.now m k }
    requires row_len_bound { (length row.now ≤ 16) × (kinds.now ≡ kinds_of row.now) × (before.now ≡ numbers_of row.now) }
    ensures { Wrote out.old 0 (fields_listing bw row.now fields.now m k) out.new result }
{
    let resources = records::count_in(before, row) as usize;
    let stations = stations_in(fields, m + k);
    let o = put_head(out, bw, resources, m, k, stations);
    let p = put_records(out, o, row, kinds);
    put_stations(out, p, fields, row, kinds, before, m, k)
}

// The listing by a frame's row, the kinds of its plan, and the numbers of its User fields, m of channel 1 and k of channel 2.
pub fn put_listing(
    out: &mut [u8],
    bw: u32,
    fields: &[u32],
    row: &[u16],
    kinds: &[u16; 16],
    m: usize,
    k: usize,
) -> usize
    requires { (bw ≤ 4) × (m + k ≤ length fields.now) × Counted row.now m k × (length row.now ≤ 16) × (kinds.now ≡ kinds_of row.now) }
    ensures { Wrote out.old 0 (fields_listing bw row.now fields.now m k) out.new result }
{
    let mut before = [0u16; 17];
    records::enter_numbers(&mut before, kinds, row);
    put_tabled(out, bw, fields, row, kinds, &before, m, k)
}
