// The program: standard input's two captures to the differences of their frames, or to a refusal's three lines (02, T-06).
#![tactic(auto)]

ghost use Rattle.std.specs.Prelude.{◌≤◌, length};

use arrayvec::ArrayVec;
use std::io;
use std::io::Read;

// Standard input. One byte more than both captures may have is enough to tell that they are too long.
fn read_text(rt: &HostRuntime) -> io::Result<ArrayVec<u8, 16385>> {
    let mut text = ArrayVec::new();
    io::copy(&mut rt.reader().take(16385), &mut text)?;
    Ok(text)
}

fn run(rt: &HostRuntime, text: &[u8], out: &mut [u8]) -> io::Result<()>
    requires { 29466 ≤ length out.old }
{
    let n = comparing::respond(text, out);
    rt.write_all(&out[..n])
}

// No comparison has more than 29,466 bytes.
fn main(rt: HostRuntime) -> io::Result<()> {
    let text = read_text(&rt)?;
    let mut out = [0; 29466];
    run(&rt, &text, &mut out)
}
