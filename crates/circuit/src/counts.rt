// The counts m, q, n of a circuit, for code that knows nothing of where they stand. RULES 2.
// Three functions and no index handed over: code and contracts speak of rows, public columns and columns by name.
// A word becomes a length by `as`: there is no From between u32 and usize.
ghost use Rattle.std.specs.Prelude.{◌≡◌, ◌≤◌, length};
ghost use Rattle.circuit.specs.Circuit.{rows, publics, columns};

pub fn rows_of(words: &[u32]) -> usize
    requires { 3 ≤ length words.now }
    ensures { result ≡ rows words.now }
{
    words[0] as usize
}

pub fn publics_of(words: &[u32]) -> usize
    requires { 3 ≤ length words.now }
    ensures { result ≡ publics words.now }
{
    words[1] as usize
}

pub fn columns_of(words: &[u32]) -> usize
    requires { 3 ≤ length words.now }
    ensures { result ≡ columns words.now }
{
    words[2] as usize
}
