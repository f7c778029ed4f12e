// The plan of a row of RU Allocation values (01, "What a plan is"; 02, T-07), made once: to what each position is given, whose User
// fields share a resource, how many each channel has, and the answers 7 and 8. A kind of resource is its line in the table of crate
// `kinds`: line 0 is the position itself, and 36 is none.
#![tactic(auto)]

ghost use Rattle.std.specs.Prelude.{◌≡◌, ◌⊎◌, Ok, Err, IfOk, IfErr, IfSome, IfNone, false, cond, eqb, leb};
ghost use Rattle.std.specs.Prelude.{ℕ, ◌+◌, ◌-◌, ◌*◌, ◌/◌, ◌%◌, ◌^◌, ◌≤◌, ◌<◌, min, length, replicate};
ghost use Rattle.answer.specs.Lists.{at};
ghost use Rattle.resource.specs.Values.{fields_of};
ghost use Rattle.kinds.specs.Fields.{together, fields_to};
ghost use Rattle.segments.specs.Engine.{segment_kinds, Entered};
ghost use Rattle.roles.specs.Engine.{no_role, kind_in};
ghost use Rattle.plan.specs.Answers.{segments, Size, Laid};
ghost use Rattle.plan.specs.Engine.{wider, any_wider, only_plan, given, place_given, entirely, is_right, Before};
ghost use Rattle.plan.specs.Engine.{GivenTo, part_right, held_by, first_unheld};
ghost use Rattle.plan.specs.Engine.{first_over, shared_to, kinds_of, plan_of, with_kinds, plan_from, Tells, Cast, Low};
ghost use Rattle.plan.specs.Engine.{glance_of, lone_of, over_in, plan_outcome};

use answer::Refusal;

// The plan of a row.
#[derive(Clone, Copy)]
pub struct Plan {
    pub outcome: Result<(), Refusal>,
    // to what each position is given: its kind
    pub kinds: [u16; 16],
    // bit p: the User fields of position p share their resource
    pub shared: u32,
    // the User fields of each channel
    pub fields1: usize,
    pub fields2: usize,
}

// The rest of the plan of a row, beside its kinds, which lie in room that is lent. The counts stand apart, so that no load takes both at once
// and waits for the two stores that made them.
#[derive(Clone, Copy)]
pub struct Rest {
    pub fields1: usize,
    pub outcome: Result<(), Refusal>,
    pub fields2: usize,
    pub shared: u32,
}

// ---- resources wider than a segment

// No resource of a segment has the value.
fn is_wider(v: u16) -> bool
    ensures { result ≡ wider v }
{
    (resource::family_of(v) == 11) | (128 <= v)
}

// The row has such a value.
fn has_wider(row: &[u16]) -> bool
    ensures { result ≡ any_wider row.now }
{
    row.iter().any(|&v| is_wider(v))
}

// ---- whether a plan signals a part of the row: the positions from a up to e

// Position q is one of them, and given to this kind.
#[tactic(auto, unfolding(crate::specs::Engine::given))]
fn is_given(kinds: &[u16; 16], a: usize, e: usize, kind: u16, q: usize) -> bool
    requires { e ≤ 16 }
    ensures { result ≡ given (at kinds.now) a e kind q }
{
    a <= q && q < e && kinds[q] == kind
}

// Place j of the resource of this kind at position p is not its own, or given to it.
fn place_given(kinds: &[u16; 16], a: usize, e: usize, kind: u16, p: usize, j: usize) -> bool
    requires { (e ≤ 16) × (kind < 36) × (p < 16) × (j < 16) }
    ensures { result ≡ place_given (at kinds.now) a e kind p j }
{
    !kinds::takes_place(kind, j) || is_given(kinds, a, e, kind, kinds::start_of(kind, p) + j)
}

// Every place of the resource of this kind at position p is given to it.
fn is_entire(kinds: &[u16; 16], a: usize, e: usize, kind: u16, p: usize) -> bool
    requires { (e ≤ 16) × (kind < 36) × (p < 16) }
    ensures { result ≡ entirely (at kinds.now) a e kind p }
{
    for j in 0..kinds::span_of(kind) {
        if !place_given(kinds, a, e, kind, p, j) {
            return false;
        }
    }
    true
}

// What position p is given to is right. To `before` the position before is given, which is right: often it is the same resource, whose places
// need not be asked for again. At the first position `before` is none.
fn is_right(before: u16, kinds: &[u16; 16], row: &[u16], a: usize, e: usize, p: usize) -> bool
    requires { (e ≤ 16) × (p < 16) × (at kinds.now p < 36) × Before before (at kinds.now) (at row.now) a e p }
    ensures { result ≡ is_right (at kinds.now) (at row.now) a e p }
{
    let kind = kinds[p];
    if !segments::fits(kind, p, kinds::value_at(row, p)) {
        return false;
    }
    if (kind == before) & (kinds::start_of(kind, p) < p) {
        true
    } else {
        is_entire(kinds, a, e, kind, p)
    }
}

// ---- the User fields

// The fields of a position that is given to itself, and leaves it whole.
fn own_fields(v: u16) -> u16
    ensures { result ≡ cond (eqb (v / 8) 8) (fields_of v) 0 }
{
    if resource::family_of(v) == 8 {
        resource::fields_of(v)
    } else {
        0
    }
}

// The fields of the resource of this kind at position p, from t, those of the resource at the position before: often it is the same one.
// A position that is given to itself is alone.
fn total_from(t: u16, before: u16, kind: u16, row: &[u16], p: usize) -> u16
    requires { (kind < 36) × (p < 4096) × (0 < p → t ≡ together before (at row.now) (p - 1)) }
    ensures { result ≡ together kind (at row.now) p }
{
    if kind == 0 {
        return own_fields(kinds::value_at(row, p));
    }
    if (kind == before) & (kinds::start_of(kind, p) < p) {
        t
    } else {
        kinds::total_of(kind, row, p)
    }
}

// The bit of position p, if its fields are two or more.
fn shared_bit(t: u16, p: usize) -> u32
    requires { p < 16 }
    ensures { result ≡ cond (leb 2 t) (2 ^ p) 0 }
{
    if 2 <= t { 1 << p } else { 0 }
}

// Which positions have fields that share their resource, or the lowest position of a resource over eight.
fn sharing(kinds: &[u16; 16], row: &[u16]) -> Result<u32, usize>
    requires { (length row.now ≤ 16) × (kinds.now ≡ kinds_of row.now) }
    ensures shared { IfOk result (λ s. (length row.now ≡ first_over row.now) × (s ≡ shared_to row.now (length row.now))) }
    ensures over { IfErr result (λ p. (p < length row.now) × (p ≡ first_over row.now)) }
{
    let mut shared: u32 = 0;
    let mut before: u16 = 36;
    let mut t: u16 = 0;
    for p in 0..row.len() {
        let kind = kinds[p];
        t = total_from(t, before, kind, row, p);
        if 8 < t {
            return Err(p);
        }
        shared += shared_bit(t, p);
        before = kind;
    }
    Ok(shared)
}

// How many User fields the channel (1 or 2) has.
pub fn channel_fields(row: &[u16], channel: usize) -> usize
    requires { (length row.now ≤ 16) × (0 < channel) × (channel < 3) }
    ensures { result ≡ fields_to channel (at row.now) (length row.now) }
{
    let mut sum: usize = 0;
    for p in (channel - 1..row.len()).step_by(2) {
        sum += usize::from(resource::fields_of(row[p]));
    }
    sum
}

// ---- the parts of a row

// What the positions of the k-th part of n are given to is right, all of it.
fn part_right(kinds: &[u16; 16], row: &[u16], n: usize, k: usize) -> bool
    requires { (length row.now ≤ 16) × Size n × (n * k < length row.now) × GivenTo kinds.now row.now n k }
    ensures { result ≡ part_right row.now n k }
{
    let a = n * k;
    let e = (a + n).min(row.len());
    let mut before: u16 = 36;
    for p in a..e {
        if !is_right(before, kinds, row, a, e, p) {
            return false;
        }
        before = kinds[p];
    }
    true
}

// The k-th part of n positions has a plan.
fn has_plan(row: &[u16], n: usize, k: usize) -> bool
    requires { (length row.now ≤ 16) × Size n × (n * k < length row.now) }
    ensures { result ≡ part_right row.now n k }
{
    let mut kinds = [0u16; 16];
    spans::enter_span(&mut kinds, row, n * k, n);
    part_right(&kinds, row, n, k)
}

// Segment s lies in a part with a plan.
#[tactic(auto, unfolding(crate::specs::Engine::held_by))]
fn is_held(row: &[u16], s: usize) -> bool
    requires { (length row.now ≤ 16) × (4 * s < length row.now) }
    ensures { result ≡ held_by row.now s }
{
    has_plan(row, 16, s / 4) || has_plan(row, 8, s / 2) || has_plan(row, 4, s)
}

// The lowest segment that lies in none, from what each position of the whole row is given to.
fn first_unheld(kinds: &[u16; 16], row: &[u16]) -> Option<usize>
    requires { (length row.now ≤ 16) × (0 < length row.now) × (kinds.now ≡ kinds_of row.now) }
    ensures found { IfSome result (λ s. (s < segments row.now) × (s ≡ first_unheld row.now)) }
    ensures none { IfNone result (segments row.now ≡ first_unheld row.now) }
{
    if part_right(kinds, row, 16, 0) {
        return None;
    }
    for s in 0..(row.len() + 3) / 4 {
        if !is_held(row, s) {
            return Some(s);
        }
    }
    None
}

// ---- the plan of a row

// To what each position is given, where resources may be wider than a segment.
fn wide_kinds(row: &[u16]) -> [u16; 16]
    requires { (length row.now ≤ 16) × (0 < length row.now) }
    ensures { result ≡ kinds_of row.now }
{
    let mut kinds = [0u16; 16];
    spans::enter_span(&mut kinds, row, 0, 16);
    kinds
}

// The lowest segment with a wrong position, where no resource is wider than a segment.
fn segment_wrong(kinds: &[u16; 16], row: &[u16]) -> Option<usize>
    requires { (length row.now ≤ 16) × (kinds.now ≡ segment_kinds row.now) × (any_wider row.now ≡ false) }
    ensures found { IfSome result (λ s. (s < segments row.now) × (s ≡ first_unheld row.now)) }
    ensures none { IfNone result (segments row.now ≡ first_unheld row.now) }
{
    let p = segments::first_wrong(kinds, row);
    if p < row.len() { Some(p / 4) } else { None }
}

// To what each position is given.
fn kinds_of(row: &[u16], wide: bool) -> [u16; 16]
    requires { (length row.now ≤ 16) × (wide ≡ any_wider row.now) }
    ensures { (result ≡ kinds_of row.now) × (wide ≡ false → result ≡ segment_kinds row.now) }
{
    if wide {
        wide_kinds(row)
    } else {
        segments::kinds_of(row)
    }
}

// The same, for what asks for nothing else of a plan.
pub fn kinds_in(row: &[u16]) -> [u16; 16]
    requires { length row.now ≤ 16 }
    ensures { result ≡ kinds_of row.now }
{
    kinds_of(row, has_wider(row))
}

// The lowest segment that lies in no part with a plan.
fn unheld_in(kinds: &[u16; 16], row: &[u16], wide: bool) -> Option<usize>
    requires { (length row.now ≤ 16) × (wide ≡ any_wider row.now) × (kinds.now ≡ kinds_of row.now)
        × (wide ≡ false → kinds.now ≡ segment_kinds row.now) }
    ensures found { IfSome result (λ s. (s < segments row.now) × (s ≡ first_unheld row.now)) }
    ensures none { IfNone result (segments row.now ≡ first_unheld row.now) }
{
    if wide {
        first_unheld(kinds, row)
    } else {
        segment_wrong(kinds, row)
    }
}

// Of a row that is refused, the refusal alone is told.
fn refused(refusal: Refusal) -> Rest
    ensures { result.outcome ≡ Err refusal }
{
    Rest {
        outcome: Err(refusal),
        shared: 0,
        fields1: 0,
        fields2: 0,
    }
}

// 8, and the rest of the plan of a row that passes it, from what each position is given to; 7 has passed.
fn counted(kinds: &[u16; 16], row: &[u16]) -> Rest
    requires { (length row.now ≤ 16) × (kinds.now ≡ kinds_of row.now) × (segments row.now ≤ first_unheld row.now) }
    ensures { Tells row.now result kinds.now }
{
    match sharing(kinds, row) {
        Err(over) => refused(Refusal::OverEightFields { segment: over / 4 }),
        Ok(shared) => Rest {
            outcome: Ok(()),
            shared,
            fields1: channel_fields(row, 1),
            fields2: channel_fields(row, 2),
        },
    }
}

// The lowest whole segment that is wrong, seen without a place, where no resource is wider than one.
fn plainly_wrong(row: &[u16], wide: bool) -> Option<usize>
    requires { (length row.now ≤ 16) × (wide ≡ any_wider row.now) }
    ensures { IfSome result (λ s. (s < length row.now / 4) × (s ≡ first_unheld row.now)) }
{
    if wide {
        return None;
    }
    let s = segments::first_four_wrong(row);
    if s < row.len() / 4 { Some(s) } else { None }
}

// The plan, sought.
pub fn seek(kinds: &mut [u16; 16], row: &[u16]) -> Rest
    requires { length row.now ≤ 16 }
    ensures { Tells row.now result kinds.new }
{
    let wide = has_wider(row);
    if let Some(s) = plainly_wrong(row, wide) {
        return refused(Refusal::NoPlan { segment: s });
    }
    let found = kinds_of(row, wide);
    if let Some(s) = unheld_in(&found, row, wide) {
        return refused(Refusal::NoPlan { segment: s });
    }
    *kinds = found;
    counted(kinds, row)
}

// ---- at one glance, by the roles of the values

// Enters the roles of the row's values.
fn enter_roles(roles: &mut [u64; 16], row: &[u16])
    requires { (length row.now ≤ 16) × (length roles.old ≡ 16) }
    ensures { Cast row.now (length row.now) roles.old roles.new }
{
    for p in 0..row.len() {
        roles[p] = roles::role_of(row[p]);
    }
}

// Enters the kinds of the four places from b on, which are 0 before.
fn enter_kinds(kinds: &mut [u16; 16], b: usize, k: u16)
    requires { (length kinds.old ≡ 16) × (b + 4 ≤ 16) × ((p : ℕ) → b ≤ p → at kinds.old p ≡ 0) }
    ensures { Entered (λ p. kind_in k (p - b)) b (b + 4) kinds.old kinds.new }
{
    if k != 0 {
        kinds[b] = k % 16;
        kinds[b + 1] = k / 16 % 16;
        kinds[b + 2] = k / 256 % 16;
        kinds[b + 3] = k / 4096;
    }
}

// What the roles of a row of n values tell. The counts are the lowest digits of sums of roles; marks from 65536 on say that a segment's do not
// tell.
fn glance(kinds: &mut [u16; 16], n: usize, roles: &[u64; 16]) -> Rest
    requires { (n ≤ 16) × Low roles.now × (kinds.old ≡ replicate 16 0) }
    ensures { with_kinds result kinds.new ≡ glance_of n roles.now }
{
    let mut shared: u32 = 0;
    let mut fields1: u64 = 0;
    let mut fields2: u64 = 0;
    for s in 0..(n + 3) / 4 {
        let b = 4 * s;
        let r0 = roles[b];
        let r1 = roles[b + 1];
        let r2 = roles[b + 2];
        let r3 = roles[b + 3];
        fields1 += r0 + r2;
        fields2 += r1 + r3;
        let x = roles::settle(r0, r1, r2, r3);
        enter_kinds(kinds, b, x.kinds);
        shared += x.marks << b;
    }
    Rest {
        outcome: Ok(()),
        shared,
        fields1: (fields1 % 256) as usize,
        fields2: (fields2 % 256) as usize,
    }
}

// What the role of a row's only value tells, where it may stand alone.
fn lone(r: u64) -> Rest
    ensures { with_kinds result (replicate 16 0) ≡ lone_of r }
{
    Rest {
        outcome: Ok(()),
        shared: (r / 256 % 2) as u32,
        fields1: (r % 256) as usize,
        fields2: 0,
    }
}

// The same as `glance`, of roles that are none past the row: the smallest row takes a shorter way.
fn tell_from(kinds: &mut [u16; 16], n: usize, roles: &[u64; 16]) -> Rest
    requires { (n ≤ 16) × Low roles.now × ((p : ℕ) → n ≤ p → p < 16 → at roles.now p ≡ no_role) × (kinds.old ≡ replicate 16 0) }
    ensures { with_kinds result kinds.new ≡ glance_of n roles.now }
{
    if n == 1 {
        if roles[0] / 65536 % 2 == 1 {
            return lone(roles[0]);
        }
    }
    glance(kinds, n, roles)
}

// What the roles of a row's values tell: its plan, unless the marks are from 65536 on; these may tell 8.
pub fn tell(kinds: &mut [u16; 16], row: &[u16]) -> Rest
    requires { (length row.now ≤ 16) × (kinds.old ≡ replicate 16 0) }
    ensures { (result.outcome ≡ Ok tt) × (result.shared < 65536 → Tells row.now result kinds.new)
        × (over_in result.shared < 4 → plan_outcome row.now ≡ Err (Refusal.OverEightFields (over_in result.shared))) }
{
    let mut roles = [roles::no_role(); 16];
    enter_roles(&mut roles, row);
    tell_from(kinds, row.len(), &roles)
}

// The lowest of four segments with a resource over eight, by the marks that `tell` gives; 4 where there is none, or where a segment's roles do not tell.
pub fn over_in(marks: u32) -> usize
    ensures { result ≡ over_in marks }
{
    let h = marks / 65536;
    if (h % 2 == 1) | (h / 16 % 2 == 1) | (h / 256 % 2 == 1) | (h / 4096 % 2 == 1) {
        return 4;
    }
    if h % 16 != 0 {
        return 0;
    }
    if h / 16 % 16 != 0 {
        return 1;
    }
    if h / 256 % 16 != 0 {
        return 2;
    }
    if h / 4096 % 16 != 0 { 3 } else { 4 }
}

// What is told of a plan, and its kinds, as one value: a refused row has none.
fn plan_with(told: Rest, kinds: [u16; 16]) -> Plan
    ensures { result ≡ plan_from told.outcome told kinds }
{
    let outcome = told.outcome;
    if let Err(x) = outcome {
        return Plan {
            outcome: Err(x),
            kinds: [0u16; 16],
            shared: 0,
            fields1: 0,
            fields2: 0,
        };
    }
    Plan {
        outcome,
        kinds,
        shared: told.shared,
        fields1: told.fields1,
        fields2: told.fields2,
    }
}

// The plan of a row: what the roles of its values tell or, where they do not, what is found by the search.
pub fn plan_of(row: &[u16]) -> Plan
    requires { length row.now ≤ 16 }
    ensures value { result ≡ plan_of row.now }
    ensures laid { Laid row.now result.outcome }
{
    let mut kinds = [0u16; 16];
    let told = tell(&mut kinds, row);
    if told.shared < 65536 {
        return plan_with(told, kinds);
    }
    let sought = seek(&mut kinds, row);
    plan_with(sought, kinds)
}
