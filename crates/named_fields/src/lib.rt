// The named fields of a channel in sending order: how many there are, and how wide each is.
#![tactic(auto)]

ghost use Rattle.std.specs.Prelude.{◌≡◌, ◌≤◌, ◌<◌, length};
ghost use Rattle.answer.specs.Lists.{at};
ghost use Rattle.channel.specs.Fields.{overflow_widths, checked_widths, second_widths, user_widths, widths};

// The width of the k-th of the overflow.
fn overflow_width(k: usize) -> usize
    requires { k < 7 }
    ensures { result ≡ at overflow_widths k }
{
    match k {
        0 => 4,
        1 => 2,
        2 => 3,
        3 => 1,
        4 => 2,
        5 => 1,
        _ => 4,
    }
}

// The same of n fields of w bits with their check and tail; 0 past the last.
fn checked_width(w: usize, n: usize, k: usize) -> usize
    requires { n ≤ 72 }
    ensures { result ≡ at (checked_widths w n) k }
{
    if k < n {
        return w;
    }
    if k == n {
        return 4;
    }
    if k == n + 1 { 6 } else { 0 }
}

// The same of the User blocks of n fields: each has four named fields, or three where it has one User field.
fn user_width(n: usize, k: usize) -> usize
    ensures { result ≡ at (user_widths n) k }
{
    let first = 2 * (k / 4);
    if n <= first {
        return 0;
    }
    if first + 1 < n {
        checked_width(22, 2, k % 4)
    } else {
        checked_width(22, 1, k % 4)
    }
}

// The same of the common field's second part, where the bandwidth has one.
fn second_width(bw: u32, k: usize) -> usize
    ensures { result ≡ at (second_widths bw) k }
{
    if channel::has_second(bw) {
        checked_width(9, channel::seconds_of(bw), k)
    } else {
        0
    }
}

// How many the second part has.
fn second_fields(bw: u32) -> usize
    ensures value { result ≡ length (second_widths bw) }
    ensures upper_bound { result ≤ 8 }
{
    if channel::has_second(bw) {
        channel::seconds_of(bw) + 2
    } else {
        0
    }
}

// How many a channel has that has n User fields.
pub fn named_fields(bw: u32, n: usize) -> usize
    requires { n ≤ 72 }
    ensures value { result ≡ length (widths bw n) }
    ensures upper_bound { result ≤ 163 }
{
    9 + channel::firsts_of(bw) + second_fields(bw) + 4 * (n / 2) + 3 * (n % 2)
}

// The width of the k-th of them; 0 past the last.
pub fn named_width(bw: u32, n: usize, k: usize) -> usize
    ensures value { result ≡ at (widths bw n) k }
    ensures upper_bound { result ≤ 22 }
{
    if k < 7 {
        return overflow_width(k);
    }
    let firsts = channel::firsts_of(bw);
    let second = firsts + 9;
    if k < second {
        return checked_width(9, firsts, k - 7);
    }
    let users = second + second_fields(bw);
    if k < users {
        second_width(bw, k - second)
    } else {
        user_width(n, k - users)
    }
}
