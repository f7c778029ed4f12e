// The program: standard input's three lines to a listing, or to a refusal's three lines (01, "Listing").
#![tactic(auto)]

ghost use Rattle.std.specs.Prelude.{◌≤◌, length};

use arrayvec::ArrayVec;
use std::io;
use std::io::Read;

// Standard input. One byte more than a text may have is enough to tell that it is too long.
fn read_text(rt: &HostRuntime) -> io::Result<ArrayVec<u8, 8193>> {
    let mut text = ArrayVec::new();
    io::copy(&mut rt.reader().take(8193), &mut text)?;
    Ok(text)
}

fn run(rt: &HostRuntime, text: &[u8], out: &mut [u8]) -> io::Result<()>
    requires { 10131 ≤ length out.old }
{
    let n = responding::respond(text, out);
    rt.write_all(&out[..n])
}

// The longest text that the program writes, a listing, has 10,131 bytes.
fn main(rt: HostRuntime) -> io::Result<()> {
    let text = read_text(&rt)?;
    let mut out = [0; 10131];
    run(&rt, &text, &mut out)
}
