// The lines of a listing beside those of its resources, into a lent buffer.
#![tactic(auto)]

ghost use Rattle.std.specs.Prelude.{◌≡◌, ◌+◌, ◌≤◌, ◌<◌, length};
ghost use Rattle.text.specs.Text.{Wrote};
ghost use Rattle.lines.specs.Lines.{assigned, id_text, sta_line, refusal_text, head_text};
ghost use Rattle.lines.specs.Engine.{id_word, Ended, Tailed, counts_text};

// Whether a STA-ID is a station's: 2046 marks a resource that nobody has.
pub fn is_assigned(id: u32) -> bool
    ensures { result ≡ assigned id }
{
    id != 2046
}

// A STA-ID as its line has it: a station's number, or none.
pub fn put_id(out: &mut [u8], at: usize, id: u32) -> usize
    requires { at ≤ 800000 }
    ensures wrote { Wrote out.old at (id_text id) out.new result }
    ensures bounded { result ≤ at + 20 }
{
    if is_assigned(id) {
        return text::put_dec(out, at, id as u64);
    }
    text::put_all(out, at, b"none")
}

// A count up to 144 with the end of its line after it, the first byte lowest, and from bit 32 on how many bytes that are: one load from a
// fixed table.
fn ended_word(n: usize) -> u64
    requires { n ≤ 144 }
    ensures { Ended n result }
{
    match n {
        0 => 0x2_00000a30,
        1 => 0x2_00000a31,
        2 => 0x2_00000a32,
        3 => 0x2_00000a33,
        4 => 0x2_00000a34,
        5 => 0x2_00000a35,
        6 => 0x2_00000a36,
        7 => 0x2_00000a37,
        8 => 0x2_00000a38,
        9 => 0x2_00000a39,
        10 => 0x3_000a3031,
        11 => 0x3_000a3131,
        12 => 0x3_000a3231,
        13 => 0x3_000a3331,
        14 => 0x3_000a3431,
        15 => 0x3_000a3531,
        16 => 0x3_000a3631,
        17 => 0x3_000a3731,
        18 => 0x3_000a3831,
        19 => 0x3_000a3931,
        20 => 0x3_000a3032,
        21 => 0x3_000a3132,
        22 => 0x3_000a3232,
        23 => 0x3_000a3332,
        24 => 0x3_000a3432,
        25 => 0x3_000a3532,
        26 => 0x3_000a3632,
        27 => 0x3_000a3732,
        28 => 0x3_000a3832,
        29 => 0x3_000a3932,
        30 => 0x3_000a3033,
        31 => 0x3_000a3133,
        32 => 0x3_000a3233,
        33 => 0x3_000a3333,
        34 => 0x3_000a3433,
        35 => 0x3_000a3533,
        36 => 0x3_000a3633,
        37 => 0x3_000a3733,
        38 => 0x3_000a3833,
        39 => 0x3_000a3933,
        40 => 0x3_000a3034,
        41 => 0x3_000a3134,
        42 => 0x3_000a3234,
        43 => 0x3_000a3334,
        44 => 0x3_000a3434,
        45 => 0x3_000a3534,
        46 => 0x3_000a3634,
        47 => 0x3_000a3734,
        48 => 0x3_000a3834,
        49 => 0x3_000a3934,
        50 => 0x3_000a3035,
        51 => 0x3_000a3135,
        52 => 0x3_000a3235,
        53 => 0x3_000a3335,
        54 => 0x3_000a3435,
        55 => 0x3_000a3535,
        56 => 0x3_000a3635,
        57 => 0x3_000a3735,
        58 => 0x3_000a3835,
        59 => 0x3_000a3935,
        60 => 0x3_000a3036,
        61 => 0x3_000a3136,
        62 => 0x3_000a3236,
        63 => 0x3_000a3336,
        64 => 0x3_000a3436,
        65 => 0x3_000a3536,
        66 => 0x3_000a3636,
        67 => 0x3_000a3736,
        68 => 0x3_000a3836,
        69 => 0x3_000a3936,
        70 => 0x3_000a3037,
        71 => 0x3_000a3137,
        72 => 0x3_000a3237,
        73 => 0x3_000a3337,
        74 => 0x3_000a3437,
        75 => 0x3_000a3537,
        76 => 0x3_000a3637,
        77 => 0x3_000a3737,
        78 => 0x3_000a3837,
        79 => 0x3_000a3937,
        80 => 0x3_000a3038,
        81 => 0x3_000a3138,
        82 => 0x3_000a3238,
        83 => 0x3_000a3338,
        84 => 0x3_000a3438,
        85 => 0x3_000a3538,
        86 => 0x3_000a3638,
        87 => 0x3_000a3738,
        88 => 0x3_000a3838,
        89 => 0x3_000a3938,
        90 => 0x3_000a3039,
        91 => 0x3_000a3139,
        92 => 0x3_000a3239,
        93 => 0x3_000a3339,
        94 => 0x3_000a3439,
        95 => 0x3_000a3539,
        96 => 0x3_000a3639,
        97 => 0x3_000a3739,
        98 => 0x3_000a3839,
        99 => 0x3_000a3939,
        100 => 0x4_0a303031,
        101 => 0x4_0a313031,
        102 => 0x4_0a323031,
        103 => 0x4_0a333031,
        104 => 0x4_0a343031,
        105 => 0x4_0a353031,
        106 => 0x4_0a363031,
        107 => 0x4_0a373031,
        108 => 0x4_0a383031,
        109 => 0x4_0a393031,
        110 => 0x4_0a303131,
        111 => 0x4_0a313131,
        112 => 0x4_0a323131,
        113 => 0x4_0a333131,
        114 => 0x4_0a343131,
        115 => 0x4_0a353131,
        116 => 0x4_0a363131,
        117 => 0x4_0a373131,
        118 => 0x4_0a383131,
        119 => 0x4_0a393131,
        120 => 0x4_0a303231,
        121 => 0x4_0a313231,
        122 => 0x4_0a323231,
        123 => 0x4_0a333231,
        124 => 0x4_0a343231,
        125 => 0x4_0a353231,
        126 => 0x4_0a363231,
        127 => 0x4_0a373231,
        128 => 0x4_0a383231,
        129 => 0x4_0a393231,
        130 => 0x4_0a303331,
        131 => 0x4_0a313331,
        132 => 0x4_0a323331,
        133 => 0x4_0a333331,
        134 => 0x4_0a343331,
        135 => 0x4_0a353331,
        136 => 0x4_0a363331,
        137 => 0x4_0a373331,
        138 => 0x4_0a383331,
        139 => 0x4_0a393331,
        140 => 0x4_0a303431,
        141 => 0x4_0a313431,
        142 => 0x4_0a323431,
        143 => 0x4_0a333431,
        144 => 0x4_0a343431,
        _ => 0,
    }
}

// A STA-ID as its line has it, in one number.
fn id_word(id: u32) -> u64
    requires { id < 10000 }
    ensures { (result ≡ id_word id) × (result < 4294967296) }
{
    if is_assigned(id) {
        return stores::digits_of(id);
    }
    0x656E6F6E // none
}

// The last seven bytes of a resource's number after its key, and from bit 56 on how many digits it has.
fn tail_word(n: usize) -> u64
    requires { n ≤ 144 }
    ensures { Tailed n result }
{
    match n {
        0 => 0x01303d656372756f,
        1 => 0x01313d656372756f,
        2 => 0x01323d656372756f,
        3 => 0x01333d656372756f,
        4 => 0x01343d656372756f,
        5 => 0x01353d656372756f,
        6 => 0x01363d656372756f,
        7 => 0x01373d656372756f,
        8 => 0x01383d656372756f,
        9 => 0x01393d656372756f,
        10 => 0x0230313d65637275,
        11 => 0x0231313d65637275,
        12 => 0x0232313d65637275,
        13 => 0x0233313d65637275,
        14 => 0x0234313d65637275,
        15 => 0x0235313d65637275,
        16 => 0x0236313d65637275,
        17 => 0x0237313d65637275,
        18 => 0x0238313d65637275,
        19 => 0x0239313d65637275,
        20 => 0x0230323d65637275,
        21 => 0x0231323d65637275,
        22 => 0x0232323d65637275,
        23 => 0x0233323d65637275,
        24 => 0x0234323d65637275,
        25 => 0x0235323d65637275,
        26 => 0x0236323d65637275,
        27 => 0x0237323d65637275,
        28 => 0x0238323d65637275,
        29 => 0x0239323d65637275,
        30 => 0x0230333d65637275,
        31 => 0x0231333d65637275,
        32 => 0x0232333d65637275,
        33 => 0x0233333d65637275,
        34 => 0x0234333d65637275,
        35 => 0x0235333d65637275,
        36 => 0x0236333d65637275,
        37 => 0x0237333d65637275,
        38 => 0x0238333d65637275,
        39 => 0x0239333d65637275,
        40 => 0x0230343d65637275,
        41 => 0x0231343d65637275,
        42 => 0x0232343d65637275,
        43 => 0x0233343d65637275,
        44 => 0x0234343d65637275,
        45 => 0x0235343d65637275,
        46 => 0x0236343d65637275,
        47 => 0x0237343d65637275,
        48 => 0x0238343d65637275,
        49 => 0x0239343d65637275,
        50 => 0x0230353d65637275,
        51 => 0x0231353d65637275,
        52 => 0x0232353d65637275,
        53 => 0x0233353d65637275,
        54 => 0x0234353d65637275,
        55 => 0x0235353d65637275,
        56 => 0x0236353d65637275,
        57 => 0x0237353d65637275,
        58 => 0x0238353d65637275,
        59 => 0x0239353d65637275,
        60 => 0x0230363d65637275,
        61 => 0x0231363d65637275,
        62 => 0x0232363d65637275,
        63 => 0x0233363d65637275,
        64 => 0x0234363d65637275,
        65 => 0x0235363d65637275,
        66 => 0x0236363d65637275,
        67 => 0x0237363d65637275,
        68 => 0x0238363d65637275,
        69 => 0x0239363d65637275,
        70 => 0x0230373d65637275,
        71 => 0x0231373d65637275,
        72 => 0x0232373d65637275,
        73 => 0x0233373d65637275,
        74 => 0x0234373d65637275,
        75 => 0x0235373d65637275,
        76 => 0x0236373d65637275,
        77 => 0x0237373d65637275,
        78 => 0x0238373d65637275,
        79 => 0x0239373d65637275,
        80 => 0x0230383d65637275,
        81 => 0x0231383d65637275,
        82 => 0x0232383d65637275,
        83 => 0x0233383d65637275,
        84 => 0x0234383d65637275,
        85 => 0x0235383d65637275,
        86 => 0x0236383d65637275,
        87 => 0x0237383d65637275,
        88 => 0x0238383d65637275,
        89 => 0x0239383d65637275,
        90 => 0x0230393d65637275,
        91 => 0x0231393d65637275,
        92 => 0x0232393d65637275,
        93 => 0x0233393d65637275,
        94 => 0x0234393d65637275,
        95 => 0x0235393d65637275,
        96 => 0x0236393d65637275,
        97 => 0x0237393d65637275,
        98 => 0x0238393d65637275,
        99 => 0x0239393d65637275,
        100 => 0x033030313d656372,
        101 => 0x033130313d656372,
        102 => 0x033230313d656372,
        103 => 0x033330313d656372,
        104 => 0x033430313d656372,
        105 => 0x033530313d656372,
        106 => 0x033630313d656372,
        107 => 0x033730313d656372,
        108 => 0x033830313d656372,
        109 => 0x033930313d656372,
        110 => 0x033031313d656372,
        111 => 0x033131313d656372,
        112 => 0x033231313d656372,
        113 => 0x033331313d656372,
        114 => 0x033431313d656372,
        115 => 0x033531313d656372,
        116 => 0x033631313d656372,
        117 => 0x033731313d656372,
        118 => 0x033831313d656372,
        119 => 0x033931313d656372,
        120 => 0x033032313d656372,
        121 => 0x033132313d656372,
        122 => 0x033232313d656372,
        123 => 0x033332313d656372,
        124 => 0x033432313d656372,
        125 => 0x033532313d656372,
        126 => 0x033632313d656372,
        127 => 0x033732313d656372,
        128 => 0x033832313d656372,
        129 => 0x033932313d656372,
        130 => 0x033033313d656372,
        131 => 0x033133313d656372,
        132 => 0x033233313d656372,
        133 => 0x033333313d656372,
        134 => 0x033433313d656372,
        135 => 0x033533313d656372,
        136 => 0x033633313d656372,
        137 => 0x033733313d656372,
        138 => 0x033833313d656372,
        139 => 0x033933313d656372,
        140 => 0x033034313d656372,
        141 => 0x033134313d656372,
        142 => 0x033234313d656372,
        143 => 0x033334313d656372,
        144 => 0x033434313d656372,
        _ => 0,
    }
}

// The line of a User field by whole stores. What each stores past its text is written over by the next, and the number ends where its line
// feed stands.
fn put_sta_whole(out: &mut [u8], at: usize, id: u32, resource: usize) -> usize
    requires { (at ≤ 80000) × (id < 10000) × (resource ≤ 144) × (at + 22 ≤ length out.old) }
    ensures wrote { Wrote out.old at (sta_line id resource) out.new result }
    ensures bounded { result ≤ at + 22 }
{
    let name = 0x3D617473 + 4294967296 * id_word(id); // sta=
    stores::put_eight(out, at, name);
    let a = at + (8 - stores::lead_of(id));
    stores::put_eight(out, a, 0x6372756F73657220); // " resourc"
    let tail = tail_word(resource);
    let b = a + (3 + (tail >> 56) as usize);
    stores::put_eight(out, b, tail);
    out[b + 7] = b'\n';
    b + 8
}

// The same into whatever room there is: where it may be too little, the line stands in room of its own first.
pub fn put_sta(out: &mut [u8], at: usize, id: u32, resource: usize) -> usize
    requires { (at ≤ 80000) × (id < 10000) × (resource ≤ 144) }
    ensures wrote { Wrote out.old at (sta_line id resource) out.new result }
    ensures bounded { result ≤ at + 55 }
{
    if at + 22 <= out.len() {
        return put_sta_whole(out, at, id, resource);
    }
    let mut own = [0u8; 22];
    let end = put_sta_whole(&mut own, 0, id, resource);
    text::put_all(out, at, &own[..end])
}

// The three lines of a refusal.
pub fn put_refusal(out: &mut [u8], number: u32, channel: u32, place: usize) -> usize
    ensures wrote { Wrote out.old 0 (refusal_text number channel place) out.new result }
    ensures bounded { result ≤ 100 }
{
    let a = text::put_line(out, 0, b"answer=", number as u64);
    let b = text::put_line(out, a, b"channel=", channel as u64);
    text::put_line(out, b, b"place=", place as u64)
}

// The last three of the lines before the resources. What is stored past a count is written over by the next key.
fn put_counts(out: &mut [u8], at: usize, fields1: usize, fields2: usize, stations: usize) -> usize
    requires { (fields1 ≤ 144) × (fields2 ≤ 144) × (stations ≤ 144) × (at ≤ 100) × (at + 40 ≤ length out.old) }
    ensures wrote { Wrote out.old at (counts_text fields1 fields2 stations) out.new result }
    ensures bounded { result ≤ at + 40 }
{
    let a = stores::put_eight(out, at, 0x3D3173646C656966); // fields1=
    let first = ended_word(fields1);
    stores::put_eight(out, a, first);
    let b = stores::put_eight(out, a + (first >> 32) as usize, 0x3D3273646C656966); // fields2=
    let second = ended_word(fields2);
    stores::put_eight(out, b, second);
    let c = b + (second >> 32) as usize;
    stores::put_eight(out, c, 0x736E6F6974617473); // stations
    let last = ended_word(stations);
    stores::put_by_fours(out, c + 7, 0x3D73 + 65536 * last, (last >> 32) as usize - 2) // s=
}

// The lines before the resources, by whole stores.
fn put_head_whole(
    out: &mut [u8],
    bw: u32,
    resources: usize,
    fields1: usize,
    fields2: usize,
    stations: usize,
) -> usize
    requires { (bw < 10) × (resources ≤ 144) × (fields1 ≤ 144) × (fields2 ≤ 144) × (stations ≤ 144) × (80 ≤ length out.old) }
    ensures wrote { Wrote out.old 0 (head_text bw resources fields1 fields2 stations) out.new result }
    ensures bounded { result ≤ 80 }
{
    let a = stores::put_eight(out, 0, 0x303D726577736E61); // answer=0
    let b = stores::put_eight(out, a, 0x65720A303D77620A + 4294967296 * bw as u64); // a line feed, bw=0, a line feed, re
    let c = stores::put_eight(out, b, 0x3D73656372756F73); // sources=
    let count = ended_word(resources);
    stores::put_eight(out, c, count);
    put_counts(out, c + (count >> 32) as usize, fields1, fields2, stations)
}

// The same into whatever room there is.
pub fn put_head(
    out: &mut [u8],
    bw: u32,
    resources: usize,
    fields1: usize,
    fields2: usize,
    stations: usize,
) -> usize
    requires { (bw < 10) × (resources ≤ 144) × (fields1 ≤ 144) × (fields2 ≤ 144) × (stations ≤ 144) }
    ensures wrote { Wrote out.old 0 (head_text bw resources fields1 fields2 stations) out.new result }
    ensures bounded { result ≤ 200 }
{
    if 80 <= out.len() {
        return put_head_whole(out, bw, resources, fields1, fields2, stations);
    }
    let mut own = [0u8; 80];
    let end = put_head_whole(&mut own, bw, resources, fields1, fields2, stations);
    text::put_all(out, 0, &own[..end])
}
