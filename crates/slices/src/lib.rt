// What is done with words whatever they mean, and rooms to work in.
#![tactic(auto, unfolding(crate::specs::Zeros::zeros))]

ghost use Rattle.std.specs.Prelude.{◌≡◌, length};
ghost use Rattle.slices.specs.Zeros.{zeros};

// Words of the longest list that a call makes: a target's, one more than the most rows (RULES 4).
pub const ROOM: usize = 257;

// Room for N words. It is made by a call so that proofs see a list and not its words, and so that its maker can lend a part of it.
pub fn room_of<const N: usize>() -> [u32; N]
    ensures { result ≡ zeros N }
{
    [0; N]
}

// Room for one list: the size that callers ask for without a type.
pub fn room() -> [u32; ROOM]
    ensures { result ≡ zeros 257 }
{
    room_of()
}

// All words 0. The library's, under the name that CONTRACTS lists.
pub fn clear(out: &mut [u32])
    ensures { out.new ≡ zeros (length out.old) }
{
    out.fill(0);
}

// The words of src into as many words. The library's, under the name that CONTRACTS lists.
pub fn copy(src: &[u32], dst: &mut [u32])
    requires { length dst.old ≡ length src.now }
    ensures { dst.new ≡ src.now }
{
    dst.copy_from_slice(src);
}
