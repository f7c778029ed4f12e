// The fields of an entry of a Trigger frame, and the values of its RU Allocation with the resources that they name (02, T-02).
#![tactic(auto)]

ghost use Rattle.std.specs.Prelude.{◌≡◌};
ghost use Rattle.trigger_values.specs.UserInfo.{part};
ghost use Rattle.trigger_values.specs.Values.{resource_of, taken};
ghost use Rattle.trigger_values.specs.Engine.{code_from};

use resource::{Pairing, Resource, Size};

// Field k of the 40 bits x: 0 AID12, 1 B0, 2 B7-B1, 3 coding, 4 MCS, 5 reserved, 6 SS allocation, 7 target power, 8 PS160.
pub fn part_of(x: u64, k: u16) -> u16
    ensures { result ≡ part x k }
{
    match k {
        0 => (x % 4096) as u16,
        1 => (x / 4096 % 2) as u16,
        2 => (x / 8192 % 128) as u16,
        3 => (x / 1048576 % 2) as u16,
        4 => (x / 2097152 % 16) as u16,
        5 => (x / 33554432 % 2) as u16,
        6 => (x / 67108864 % 64) as u16,
        7 => (x / 4294967296 % 128) as u16,
        8 => (x / 549755813888 % 2) as u16,
        _ => 0,
    }
}

// ---- values of B7-B1

// The narrowest bandwidth code that takes the value, 3 where none does: 001's table, whose constants are one load.
fn code_from(v: u16) -> u32
    ensures { result ≡ code_from v }
{
    match v {
        0..=8 => 0,
        9..=17 => 1,
        18 => 3,
        19..=36 => 2,
        37..=40 => 0,
        41..=44 => 1,
        45..=52 => 2,
        53..=54 => 0,
        55..=56 => 1,
        57..=60 => 2,
        61 => 0,
        62 => 1,
        63..=64 => 2,
        65 => 1,
        66..=67 => 2,
        82..=83 => 0,
        84..=85 => 1,
        86 => 2,
        87..=88 => 3,
        89..=93 => 2,
        _ => 3,
    }
}

// The bandwidth takes the value.
pub fn is_taken(bandwidth: u32, v: u16) -> bool
    ensures { result ≡ taken bandwidth v }
{
    let b = code_from(v);
    (b < 3) & (b <= bandwidth)
}

// The resource that a value names.
pub fn resource_of(v: u16) -> Resource
    ensures { result ≡ resource_of v }
{
    match v {
        0..=36 => Resource::Single(Size::S26, v + 1),
        37..=52 => Resource::Single(Size::S52, v - 36),
        53..=60 => Resource::Single(Size::S106, v - 52),
        61..=64 => Resource::Single(Size::S242, v - 60),
        65..=66 => Resource::Single(Size::S484, v - 64),
        67 => Resource::Single(Size::S996, 1),
        68..=81 => Resource::Joined(Pairing::P106And26, 0),
        82..=89 => Resource::Joined(Pairing::P106And26, v - 81),
        _ => Resource::Joined(Pairing::P484And242, v - 89),
    }
}
