// The radiotap words of User fields that have one format, in the place of the fields.
#![tactic(auto)]

ghost use Rattle.std.specs.Prelude.{◌≡◌, ◌≤◌, length};
ghost use Rattle.answer.specs.Lists.{filled};
ghost use Rattle.user_words.specs.Engine.{run_word};

// The first m fields, which are held as numbers and have one format, made their words.
pub fn turn_run(fields: &mut [u32], m: usize, shared: bool)
    requires { m ≤ length fields.old }
    ensures { fields.new ≡ filled (run_word fields.old shared) m fields.old }
{
    for i in 0..m {
        fields[i] = words::user_word(shared, fields[i]);
    }
}
