// The cases of one channel: walked through a reading position.
ghost use Rattle.std.specs.Prelude.{◌≡◌, ◌≤◌, length};

use crate::frames::bandwidth;
use crate::line_words::{STRING, string};
use crate::print::{next, no_case, number as print_number, text};
use position::Channel;
use std::io;
use std::io::Write;

// The eight values.
fn print_values(out: &mut impl Write, values: [u16; 8]) -> io::Result<()> {
    for v in values {
        next(out, u64::from(v))?;
    }
    Ok(())
}

// The first n User fields.
fn print_users(out: &mut impl Write, users: [u32; 72], n: usize) -> io::Result<()>
    requires { n ≤ 72 }
{
    for user in &users[..n] {
        next(out, u64::from(*user))?;
    }
    Ok(())
}

fn print_channel(out: &mut impl Write, c: Channel) -> io::Result<()>
    requires { (c.count ≤ 72) × (length c.values ≡ 8) × (length c.users ≡ 72) }
{
    let values = c.values;
    let users = c.users;
    print_number(out, u64::from(c.overflow))?;
    next(out, c.count as u64)?;
    next(out, c.end as u64)?;
    next(out, c.lacking as u64)?;
    print_values(out, values)?;
    text(out, b" ;")?;
    print_users(out, users, c.count)
}

// w bw S: what walking S, a channel of bandwidth code bw, comes to.
pub(crate) fn walk(out: &mut impl Write, line: &[u8]) -> io::Result<()> {
    let mut space = [0; STRING];
    let bw = bandwidth(line);
    if 4 < bw {
        return no_case(out);
    }
    let n = string(line, 2, &mut space);
    print_channel(out, position::walk_through(bw, &space[..n]))
}
