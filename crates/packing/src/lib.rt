// Words packed into bytes: each is 4 bytes, least significant first (RULES 2). And room for the words of a job.
#![tactic(auto)]

ghost use Rattle.std.specs.Prelude.{◌≡◌, ◌+◌, ◌*◌, ◌≤◌, length};
ghost use Rattle.slices.specs.Zeros.{zeros};
ghost use Rattle.packing.specs.Packing.{word_at, unpacked, packed, job_words};

// Words of the longest job file, of 37,944 bytes (RULES 7).
pub const JOB_WORDS: usize = 9486;

// Room for the words of a job. It is made by a call so that its maker can lend a part of it.
pub fn words_room() -> [u32; JOB_WORDS]
    ensures { result ≡ zeros job_words }
{
    slices::room_of()
}

// The word of the four bytes from `at` on.
pub fn word_at(bytes: &[u8], at: usize) -> u32
    requires { at + 4 ≤ length bytes.now }
    ensures { result ≡ word_at bytes.now at }
{
    u32::from_le_bytes([bytes[at], bytes[at + 1], bytes[at + 2], bytes[at + 3]])
}

// The words that the bytes hold.
pub fn unpack(bytes: &[u8], words: &mut [u32])
    requires { length bytes.now ≡ 4 * length words.old }
    ensures { words.new ≡ unpacked bytes.now }
{
    for (i, word) in words.iter_mut().enumerate() {
        *word = word_at(bytes, 4 * i);
    }
}

// The bytes that hold the words.
pub fn pack(words: &[u32], bytes: &mut [u8])
    requires { length bytes.old ≡ 4 * length words.now }
    ensures { bytes.new ≡ packed words.now }
{
    for (i, word) in words.iter().enumerate() {
        bytes[4 * i..4 * i + 4].copy_from_slice(&word.to_le_bytes());
    }
}
