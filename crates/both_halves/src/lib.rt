// Both halves of a reading: 1 to 11, and the plan of a frame that passes them.
#![tactic(auto)]

ghost use Rattle.std.specs.Prelude.{◌≡◌};
ghost use Rattle.both_halves.specs.Engine.{accepted_plan};

use halves::Planned;

// 1 to 11, and the plan of a frame that passes 1 to 8: nothing of it is worked out again.
pub fn plan_accepted(bw: u32, a: &[u8], b: &[u8]) -> Planned
    ensures { result ≡ accepted_plan bw a.now b.now }
{
    let plan = first_half::plan_frame(bw, a, b);
    let planned = plan.outcome;
    if let Err(_) = planned {
        return plan;
    }
    let m = plan.fields1;
    let k = plan.fields2;
    let mut fields = [0u32; 144];
    let outcome = second_half::check_users(&mut fields, bw, a, b, m, k);
    let row = plan.row;
    let kinds = plan.kinds;
    Planned {
        outcome,
        row,
        kinds,
        shared: plan.shared,
        fields1: m,
        fields2: k,
    }
}
