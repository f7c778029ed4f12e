// A frame's listing (01, "Listing") into a lent buffer: 1 to 11 as the reader, then 23.
#![tactic(auto)]

ghost use Rattle.std.specs.Prelude.{◌≡◌, ◌+◌, ◌≤◌, length};
ghost use Rattle.both_halves.specs.Engine.{Handed};
ghost use Rattle.listing_size.specs.Longest.{longest_at};
ghost use Rattle.listed.specs.Listing.{list_answer, list_after};

use answer::{Answer, Refusal};
use listing_lines::put_listing;

// The bytes of a bandwidth's longest listing.
fn longest_of(bw: u32) -> usize
    requires { bw ≤ 4 }
    ensures { result ≡ longest_at bw }
{
    match bw {
        0 => 649,
        1 => 1267,
        2 => 2513,
        3 => 4990,
        _ => 10131,
    }
}

// 9 to 11 of a frame that passes 1 to 8 and has m and k User fields, and its listing in the buffer lent, if that is long enough; else 23. The fields
// are kept in the room that is lent for them.
fn list_users(
    out: &mut [u8],
    bw: u32,
    a: &[u8],
    b: &[u8],
    row: &[u16],
    kinds: &[u16; 16],
    m: usize,
    k: usize,
    fields: &mut [u32],
) -> Answer
    requires { Handed bw a.now b.now row.now kinds.now m k × (m + k ≤ length fields.old) }
    ensures value { result ≡ list_answer bw a.now b.now (length out.old) }
    ensures out_after { out.new ≡ list_after bw a.now b.now out.old }
{
    let seen = second_half::check_users(fields, bw, a, b, m, k);
    if let Err(x) = seen {
        return x.into();
    }
    if longest_of(bw) <= out.len() {
        let place = put_listing(out, bw, fields, row, kinds, m, k);
        return Answer::accepted(place);
    }
    let need = put_listing(&mut out[..0], bw, fields, row, kinds, m, k);
    if out.len() < need {
        return Refusal::BufferTooShort { needed: need }.into();
    }
    let place = put_listing(out, bw, fields, row, kinds, m, k);
    Answer::accepted(place)
}

// The same with room for the fields: for a few no more is cleared than they need.
fn list_planned(
    out: &mut [u8],
    bw: u32,
    a: &[u8],
    b: &[u8],
    row: &[u16],
    kinds: &[u16; 16],
    m: usize,
    k: usize,
) -> Answer
    requires { Handed bw a.now b.now row.now kinds.now m k }
    ensures value { result ≡ list_answer bw a.now b.now (length out.old) }
    ensures out_after { out.new ≡ list_after bw a.now b.now out.old }
{
    if m + k <= 8 {
        let mut few = [0u32; 8];
        return list_users(out, bw, a, b, row, kinds, m, k, &mut few);
    }
    let mut fields = [0u32; 144];
    list_users(out, bw, a, b, row, kinds, m, k, &mut fields)
}

// Lists a frame: 1 to 11 as the reader, then 23. A refusal writes nothing.
pub fn list(bandwidth: u32, cc1: &[u8], cc2: &[u8], out: &mut [u8]) -> Answer
    ensures value { result ≡ list_answer bandwidth cc1.now cc2.now (length out.old) }
    ensures out_after { out.new ≡ list_after bandwidth cc1.now cc2.now out.old }
{
    let mut row = [0u16; 16];
    let mut kinds = [0u16; 16];
    let plan = first_half::plan_row(&mut row, &mut kinds, bandwidth, cc1, cc2);
    let planned = plan.outcome;
    if let Err(x) = planned {
        return x.into();
    }
    let n = channel::positions_of(bandwidth);
    list_planned(
        out,
        bandwidth,
        cc1,
        cc2,
        &row[..n],
        &kinds,
        plan.fields1,
        plan.fields2,
    )
}
