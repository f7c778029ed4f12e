// Known by the bandwidth, and the LTF size and GI of a GI+LTF.
#![tactic(auto)]

ghost use Rattle.std.specs.Prelude.{◌≡◌, ◌<◌};
ghost use Rattle.header_values.specs.Header.{known, ltf_size_of, gi_of};

#[tactic(auto, unfolding(crate::specs::Header::known))]
pub fn known_word(bw: u32) -> u32
    ensures { result ≡ known bw }
{
    if bw < 3 { 0x61F6 } else { 0x1E1F6 }
}

pub fn size_of(g: u32) -> u32
    requires { g < 4 }
    ensures { (result < 4) × (result ≡ ltf_size_of g) }
{
    2 + g / 2
}

pub fn gi_of(g: u32) -> u32
    requires { g < 4 }
    ensures { (result < 4) × (result ≡ gi_of g) }
{
    g % 2 + g / 3
}
