// One entry of a section. RULES 2.
ghost use Rattle.std.specs.Prelude.{◌≡◌, ◌+◌, ◌≤◌, length};
ghost use Rattle.circuit.specs.Circuit.{entry_at, row_of, column_of, value_of};

// Its three words, in the order in which they stand.
#[derive(Clone, Copy, Debug, PartialEq, Eq)]
pub struct Entry {
    pub row: u32,
    pub column: u32,
    pub value: u32,
}

// Entry e, counted from 0, of the section whose count stands at `start`.
pub fn entry_of(words: &[u32], start: usize, e: usize) -> Entry
    requires { entry_at start e + 3 ≤ length words.now }
    ensures row { result.row ≡ row_of words.now start e }
    ensures column { result.column ≡ column_of words.now start e }
    ensures value { result.value ≡ value_of words.now start e }
{
    let at = start + 1 + 3 * e;
    Entry {
        row: words[at],
        column: words[at + 1],
        value: words[at + 2],
    }
}
