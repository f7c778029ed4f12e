// A channel walked from its first bit to its padding: over plain bytes and a bit number, and through a reading position that carries
// its channel's bytes with it (01, "Bandwidth and channels").
#![tactic(auto)]

ghost use Rattle.std.specs.Prelude.{◌≡◌, ◌+◌, ◌*◌, ◌≤◌, ◌<◌, ◌^◌, length};
ghost use Rattle.bits.specs.Bits.{field};
ghost use Rattle.position.specs.Walk.{read_at, left_at, common_at, users_at, first_lacking, blocks_at, whole};
ghost use Rattle.position.specs.Engine.{past_check, past_user};

// Why reading n bits gives no value: so many of them lie past the end.
#[derive(Clone, Copy, PartialEq, Eq)]
pub struct Lacks {
    pub bits: usize,
}

// A common field: its overflow, its values, 0 past them, how many User fields these give, and the bit after its last tail.
#[derive(Clone, Copy)]
pub struct CommonField {
    pub overflow: u32,
    pub values: [u16; 8],
    pub count: usize,
    pub next: usize,
}

// All that a channel holds, in fixed memory: `users` has `count` fields, as `whole` in specs/ has it.
// `end` is the first bit of its padding; `lacking` is how many bits it lacks, 0 where it is whole.
#[derive(Clone, Copy)]
pub struct Channel {
    pub overflow: u32,
    pub values: [u16; 8],
    pub count: usize,
    pub users: [u32; 72],
    pub end: usize,
    pub lacking: usize,
}

// User fields, 0 past them, and the bit after the last block.
#[derive(Drop)]
struct Users {
    users: [u32; 72],
    next: usize,
}

// ---- over plain bytes and a bit number

// The n bits from `at`: their value and the bit after them.
#[tactic(auto, unfolding(crate::specs::Walk::read_at))]
pub fn read_at(s: &[u8], at: usize, n: usize) -> Result<(u32, usize), Lacks>
    requires { (n ≤ 25) × (at + n < 2 ^ 64) }
    ensures { result ≡ read_at s.now at n }
{
    let lacking = lengths::lacks_at(s, at, n);
    if lacking == 0 {
        Ok((bits::field_at(s, at, n), at + n))
    } else {
        Err(Lacks { bits: lacking })
    }
}

// How many bits there are from `at` on.
#[tactic(auto, unfolding(crate::specs::Walk::left_at))]
pub fn left_at(s: &[u8], at: usize) -> usize
    requires { 8 * length s.now < 2 ^ 64 }
    ensures { result ≡ left_at s.now at }
{
    let all = 8 * s.len();
    if at < all { all - at } else { 0 }
}

// The bit after the first check and tail where `next` stands at that check, `check`; else `next`.
#[tactic(auto, unfolding(crate::specs::Engine::past_check))]
fn past_check(next: usize, check: usize) -> usize
    requires { next ≤ 8192 }
    ensures { result ≡ past_check next check }
{
    if next == check { next + 10 } else { next }
}

// The value of an RU Allocation subfield.
fn value_from(s: &[u8], at: usize) -> u16
    ensures { result ≡ field s.now at 9 }
{
    bits::field_at(s, at, 9) as u16
}

// The common field that starts at `at`.
pub fn common_at(s: &[u8], at: usize, bw: u32) -> CommonField
    requires { at ≤ 4096 }
    ensures { result ≡ common_at s.now at bw }
{
    let overflow = bits::field_at(s, at, 17);
    let check = at + channel::first_bits(bw);
    let n = channel::subfields_of(bw, 1);
    let mut values = [0u16; 8];
    let mut count: usize = 0;
    let mut next = at + 17;
    for k in 0..n {
        next = past_check(next, check);
        let v = value_from(s, next);
        values[k] = v;
        count += resource::fields_of(v) as usize;
        next += 9;
    }
    CommonField {
        overflow,
        values,
        count,
        next: next + 10,
    }
}

// The bit after User field i of n, which starts at `next`; after its block's check and tail where it is the block's last.
#[tactic(auto, unfolding(crate::specs::Engine::past_user))]
fn past_user(next: usize, i: usize, n: usize) -> usize
    requires { (next ≤ 8192) × (i < 72) }
    ensures { result ≡ past_user next i n }
{
    if i % 2 == 1 {
        next + 32
    } else if i + 1 == n {
        next + 32
    } else {
        next + 22
    }
}

// The n User fields of the blocks that start at `at`.
fn users_at(s: &[u8], at: usize, n: usize) -> Users
    requires { (at ≤ 4096) × (n ≤ 72) }
    ensures { result ≡ users_at s.now at n }
{
    let mut users = [0u32; 72];
    let mut next = at;
    for i in 0..n {
        users[i] = bits::field_at(s, next, 22);
        next = past_user(next, i, n);
    }
    Users { users, next }
}

// The bits lacking: of the common field, or else of the User blocks.
#[tactic(auto, unfolding(crate::specs::Walk::first_lacking))]
fn first_lacking(common: usize, users: usize) -> usize
    ensures { result ≡ first_lacking common users }
{
    if 0 < common { common } else { users }
}

// The User blocks that start at `at`, after a common field: with it, all that the channel holds.
pub fn blocks_at(s: &[u8], at: usize, c: CommonField) -> Channel
    requires { (at ≤ 4096) × (c.count ≤ 72) }
    ensures { result ≡ blocks_at s.now at c }
{
    let u = users_at(s, at, c.count);
    let lacking = first_lacking(lengths::lacks_at(s, 0, at), lengths::lacks_at(s, 0, u.next));
    let values = c.values;
    let users = u.users;
    Channel {
        overflow: c.overflow,
        values,
        count: c.count,
        users,
        end: u.next,
        lacking,
    }
}

// A channel that the bandwidth has, from its first bit to its padding.
pub fn walk(bw: u32, s: &[u8]) -> Channel
    ensures { result ≡ whole bw s.now }
{
    let c = common_at(s, 0, bw);
    blocks_at(s, c.next, c)
}

// ---- through a position: free functions, not methods, since docs/CONTRACTS.md and docs/CLAIMS.md name each of them

// A place in a channel, with the channel's bytes.
#[derive(Clone, Copy)]
pub struct Position<'a> {
    pub channel: &'a [u8],
    pub bit: usize,
}

// A channel's first bit.
pub fn start<'a>(channel: &'a [u8]) -> Position<'a>
    ensures { (result.channel ≡ channel.entry) × (result.bit ≡ 0) }
{
    Position { channel, bit: 0 }
}

// The n bits from a position; the bit after them is where to move on to.
pub fn read<'a>(p: Position<'a>, n: usize) -> Result<(u32, usize), Lacks>
    requires { (n ≤ 25) × (p.bit + n < 2 ^ 64) }
    ensures { result ≡ read_at p.entry.channel.now p.entry.bit n }
{
    read_at(p.channel, p.bit, n)
}

// The same channel at another bit.
pub fn moved<'a>(p: Position<'a>, bit: usize) -> Position<'a>
    ensures { (result.channel ≡ p.entry.channel) × (result.bit ≡ bit) }
{
    Position {
        channel: p.channel,
        bit,
    }
}

// How many bits there are from a position on.
pub fn left<'a>(p: Position<'a>) -> usize
    requires { 8 * length p.channel.now < 2 ^ 64 }
    ensures { result ≡ left_at p.entry.channel.now p.entry.bit }
{
    left_at(p.channel, p.bit)
}

// The common field that starts at a position.
pub fn common<'a>(p: Position<'a>, bw: u32) -> CommonField
    requires { p.bit ≤ 4096 }
    ensures { result ≡ common_at p.entry.channel.now p.entry.bit bw }
{
    common_at(p.channel, p.bit, bw)
}

// The same channel at the bit after a common field.
pub fn after<'a>(p: Position<'a>, c: CommonField) -> Position<'a>
    ensures { (result.channel ≡ p.entry.channel) × (result.bit ≡ c.next) }
{
    Position {
        channel: p.channel,
        bit: c.next,
    }
}

// The User blocks that start at a position, after a common field.
pub fn blocks<'a>(p: Position<'a>, c: CommonField) -> Channel
    requires { (p.bit ≤ 4096) × (c.count ≤ 72) }
    ensures { result ≡ blocks_at p.entry.channel.now p.entry.bit c }
{
    blocks_at(p.channel, p.bit, c)
}

// The walk through one position, which stands at the common field, then at the User blocks.
pub fn walk_through(bw: u32, s: &[u8]) -> Channel
    ensures { result ≡ whole bw s.now }
{
    let p = start(s);
    let c = common(p, bw);
    blocks(after(p, c), c)
}
