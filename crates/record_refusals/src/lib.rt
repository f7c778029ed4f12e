// What is refused of a record of a Trigger's entry, by its numbers (02, T-02).
#![tactic(auto)]

ghost use Rattle.std.specs.Prelude.{◌≡◌, length};
ghost use Rattle.record_refusals.specs.Engine.{value_named, fit, numbers_outcome};

use answer::Refusal;
use trigger_values::is_taken;

// Each of a record's numbers but the resource's fits its field.
fn all_fit(numbers: &[u32]) -> bool
    requires { length numbers.now ≡ 8 }
    ensures { result ≡ fit numbers.now }
{
    (numbers[0] < 4096)
        & ((numbers[3] < 2)
            & ((numbers[4] < 16) & ((numbers[5] < 2) & ((numbers[6] < 64) & (numbers[7] < 128)))))
}

// All refusals of a write, in their order: of a record of n bytes with these numbers, into room bytes.
#[tactic(auto, unfolding(crate::specs::Engine::numbers_outcome, crate::specs::Engine::read_back))]
pub fn judge_write(
    bandwidth: u32,
    n: usize,
    numbers: &[u32],
    v: u16,
    room: usize,
) -> Result<(), Refusal>
    requires { (length numbers.now ≡ 8) × (v ≡ value_named numbers.now) }
    ensures { result ≡ numbers_outcome bandwidth n numbers.now room }
{
    answer::refuse_if(2 < bandwidth, Refusal::UnknownBandwidth)?;
    answer::refuse_if(numbers[0] == 2007, Refusal::OtherLayout { entry: 0 })?;
    let named = (n == 32) & (all_fit(numbers) & is_taken(bandwidth, v));
    answer::refuse_if(!named, Refusal::NotNamed { entry: 0 })?;
    answer::refuse_if(room < 5, Refusal::BufferTooShort { needed: 5 })
}
