// Which of its resource's User fields each is, and of how many (01, "What a plan is": "A resource's fields are those of all its places,
// channel 1's first"), for all fields of a row in the order of their words.
#![tactic(auto)]

ghost use Rattle.std.specs.Prelude.{◌≡◌, ◌+◌, ◌*◌, ◌≤◌, ◌<◌, length, replicate};
ghost use Rattle.answer.specs.Lists.{at, build, filled};
ghost use Rattle.kinds.specs.Signals.{Signals};
ghost use Rattle.plan.specs.Engine.{only_plan, kinds_of};
ghost use Rattle.turns.specs.Turns.{fields_in};
ghost use Rattle.turns.specs.Engine.{among, having, Numbered, Few, turn_code};

// The owner of field x, by the owners of channel 1's m fields and of channel 2's.
#[tactic(auto, unfolding(crate::specs::Engine::among))]
fn owner_in(first: &[u16; 72], second: &[u16; 72], m: usize, x: usize) -> usize
    requires { (m ≤ 72) × (x < m + 72) }
    ensures { result ≡ among first.now second.now m x }
{
    usize::from(if x < m { first[x] } else { second[x - m] })
}

// Enters which of its resource's fields each of the first n is: as many of these were met before. Then `met` has how many each resource has.
fn enter_turns(
    turns: &mut [u16; 144],
    met: &mut [u16; 144],
    first: &[u16; 72],
    second: &[u16; 72],
    m: usize,
    n: usize,
)
    requires m_bound { (m ≤ 72) × (n ≤ m + 72) × (met.old ≡ replicate 144 0) × Numbered (among first.now second.now m) n }
    requires turns_len { length turns.old ≡ 144 }
    ensures turns_after { turns.new
        ≡ filled (λ x. having (among first.now second.now m) (among first.now second.now m x) x) n
        turns.old }
    ensures met_after { met.new ≡ build (λ i. having (among first.now second.now m) i n) 144 }
{
    for x in 0..n {
        let i = owner_in(first, second, m, x);
        turns[x] = met[i];
        met[i] += 1;
    }
}

// Adds of how many.
fn add_users(
    turns: &mut [u16; 144],
    met: &[u16; 144],
    first: &[u16; 72],
    second: &[u16; 72],
    m: usize,
    n: usize,
)
    requires m_bound { (m ≤ 72) × (n ≤ m + 72) × Numbered (among first.now second.now m) n }
    requires turns_len { (length turns.old ≡ 144) × Few n turns.old × Few 144 met.now }
    ensures { turns.new
        ≡ filled (λ x. at turns.old x + 256 * at met.now (among first.now second.now m x)) n
        turns.old }
{
    for x in 0..n {
        let i = owner_in(first, second, m, x);
        turns[x] += 256 * met[i];
    }
}

// For each of the row's n fields, m of which are channel 1's, which of its resource's it is, and 256 times of how many.
pub fn turns_of(row: &[u16], kinds: &[u16; 16], m: usize, n: usize) -> [u16; 144]
    requires row_len_bound { (length row.now ≤ 16) × (kinds.now ≡ kinds_of row.now) × Signals (only_plan (at row.now)) (at row.now) 0 (length row.now) }
    requires m_value { (m ≡ fields_in 1 row.now) × (n ≡ m + fields_in 2 row.now) }
    ensures { result ≡ filled (turn_code row.now) n (replicate 144 0) }
{
    let before = records::numbers_before(kinds, row);
    let first = records::owners_of(kinds, &before, row, 1);
    let second = records::owners_of(kinds, &before, row, 2);
    let mut turns = [0u16; 144];
    let mut met = [0u16; 144];
    enter_turns(&mut turns, &mut met, &first, &second, m, n);
    add_users(&mut turns, &met, &first, &second, m, n);
    turns
}
