// Each User field of a frame as one number, its 22 bits and the resource that owns it: two fields differ where their numbers do
// (02, T-06: "User fields whose bits or resource differ").
#![tactic(auto)]

ghost use Rattle.std.specs.Prelude.{◌≡◌, ◌+◌, ◌≤◌, ◌<◌, length, replicate};
ghost use Rattle.answer.specs.Lists.{at, filled};
ghost use Rattle.resource.specs.Names.{number_of};
ghost use Rattle.plan.specs.Engine.{only_plan, kinds_of};
ghost use Rattle.records.specs.Records.{records_from};
ghost use Rattle.records.specs.Engine.{numbers_of};
ghost use Rattle.user_codes.specs.Engine.{resource_code, listed_code, resource_codes, code_in, field_code, owned_code};

use resource::Resource;

// The size, the index and the segment of a resource.
fn code_of(r: Resource, segment: u16) -> u32
    requires { (number_of r ≤ 255) × (segment ≤ 255) }
    ensures { result ≡ resource_code r segment }
{
    let size = resource::subcarriers_of(r);
    let index = u32::from(resource::number_of(r));
    size + 4096 * (index + 256 * u32::from(segment))
}

// Of the k-th resource whose lowest position is p, which is given to this kind.
fn code_at(kind: u16, row: &[u16], p: usize, k: u16) -> u32
    requires { (length row.now ≤ 16) × (p < length row.now) × (kind < 36) }
    ensures { result ≡ listed_code kind (at row.now) p k }
{
    if kind == 0 {
        let x = records::piece_record(row[p], p, resource::piece_at(row[p], k));
        let r = x.resource;
        return code_of(r, x.segment);
    }
    let x = records::larger_record(kind, row, p);
    let r = x.resource;
    code_of(r, x.segment)
}

// Enters those of the resources whose lowest position is p, from number i on; returns the number after them.
fn enter_codes(codes: &mut [u32; 144], row: &[u16], kind: u16, p: usize, i: usize) -> usize
    requires row_len_bound { (length row.now ≤ 16) × (p < length row.now) × (kind ≡ only_plan (at row.now) p) × (kind < 36) }
    requires i_value { (i ≡ length (records_from (only_plan (at row.now)) (at row.now) p))
        × (codes.old ≡ filled (resource_codes row.now) i (replicate 144 0)) }
    ensures value { result ≡ length (records_from (only_plan (at row.now)) (at row.now) (p + 1)) }
    ensures codes_after { codes.new ≡ filled (resource_codes row.now) result (replicate 144 0) }
{
    let here = records::listed_of(kind, p, row[p]) as usize;
    for k in 0..here {
        codes[i + k] = code_at(kind, row, p, k as u16);
    }
    i + here
}

// Of all resources of the row's plan, in the listing's order; 0 past them.
pub fn codes_of(kinds: &[u16; 16], row: &[u16]) -> [u32; 144]
    requires { (length row.now ≤ 16) × (kinds.now ≡ kinds_of row.now) }
    ensures { result
        ≡ filled (resource_codes row.now)
        (length (records_from (only_plan (at row.now)) (at row.now) (length row.now))) (replicate 144 0) }
{
    let mut codes = [0u32; 144];
    let mut i: usize = 0;
    for p in 0..row.len() {
        i = enter_codes(&mut codes, row, kinds[p], p, i);
    }
    codes
}

// The code of resource i; 0 past the last.
fn code_in(codes: &[u32; 144], i: u16) -> u32
    ensures { result ≡ code_in codes.now i }
{
    if i < 144 { codes[usize::from(i)] } else { 0 }
}

// The first n User fields of a channel, with the numbers of their owners and the codes of all resources.
fn fields_with(bw: u32, s: &[u8], owners: &[u16; 72], codes: &[u32; 144], n: usize) -> [u64; 72]
    requires { n ≤ 72 }
    ensures { result ≡ filled (field_code bw s.now owners.now codes.now) n (replicate 72 0) }
{
    let mut fields = [0u64; 72];
    for i in 0..n {
        let bits = u64::from(bits::field_at(s, channel::user_bit(bw, i), 22));
        fields[i] = bits + 4194304 * u64::from(code_in(codes, owners[i]));
    }
    fields
}

// The n User fields of channel 1 or 2, by the row's tables; 0 past them.
pub fn fields_of(
    bw: u32,
    s: &[u8],
    row: &[u16],
    kinds: &[u16; 16],
    before: &[u16; 17],
    codes: &[u32; 144],
    channel: usize,
    n: usize,
) -> [u64; 72]
    requires { (n ≤ 72) × (length row.now ≤ 16) × (kinds.now ≡ kinds_of row.now) × (before.now ≡ numbers_of row.now) }
    ensures { result ≡ filled (owned_code bw s.now row.now codes.now channel) n (replicate 72 0) }
{
    let owners = records::owners_of(kinds, before, row, channel);
    fields_with(bw, s, &owners, codes, n)
}
