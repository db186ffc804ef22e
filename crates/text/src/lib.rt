// Numbers as lines of text: RULES 7. The text goes into lent bytes, from `at` on; a call gives the
// index behind what it wrote, where the next call goes on.
#![tactic(auto)]

ghost use Rattle.std.specs.Prelude.{◌≡◌, [], ◌∷◌, ◌++◌, ◌+◌, ◌<◌, ◌≤◌, length};
ghost use Rattle.text.specs.Text.{decimal, line, number_room, line_room, two_room, Appended};

// Lent bytes, written up to `end`: a cursor and no String, for the product allocates nothing.
#[derive(Drop)]
struct Text<'a> {
    bytes: &'a mut [u8],
    end: usize,
}

impl<'a> Text<'a> {
    // One byte behind the text.
    fn put(&mut self, byte: u8)
        requires { self.old.end < length self.old.bytes.now }
        ensures same { self.new.bytes.ghost_name ≡ self.old.bytes.ghost_name }
        ensures long { length self.new.bytes.now ≡ length self.old.bytes.now }
        ensures text { Appended self.old.bytes.now self.old.end (byte ∷ []) 1 self.new.bytes.now self.new.end }
    {
        self.bytes[self.end] = byte;
        self.end += 1;
    }

    // The digits of n, highest first; a digit fits a byte, so it goes there by `as`. By hand: what the library prints without a heap, by `write!` or as an `InlineText`, may fail
    // or be cut, and no contract says that it is neither where there is room, as `put_line` and `put_two` ensure.
    #[tactic(auto, using(crate::proofs::TextLaws::sizes))]
    fn put_decimal(&mut self, n: usize)
        requires { self.old.end + length (decimal n) ≤ length self.old.bytes.now }
        ensures same { self.new.bytes.ghost_name ≡ self.old.bytes.ghost_name }
        ensures long { length self.new.bytes.now ≡ length self.old.bytes.now }
        ensures text { Appended self.old.bytes.now self.old.end (decimal n) (length (decimal n)) self.new.bytes.now self.new.end }
    {
        if n >= 10 {
            self.put_decimal(n / 10);
        }
        self.put(b'0' + (n % 10) as u8);
    }

    // A number and the byte behind it.
    #[tactic(auto, using(crate::proofs::TextLaws::digits_64))]
    fn put_number(&mut self, n: usize, mark: u8)
        requires { self.old.end + number_room ≤ length self.old.bytes.now }
        ensures same { self.new.bytes.ghost_name ≡ self.old.bytes.ghost_name }
        ensures long { length self.new.bytes.now ≡ length self.old.bytes.now }
        ensures text { Appended self.old.bytes.now self.old.end (decimal n ++ (mark ∷ [])) number_room self.new.bytes.now self.new.end }
    {
        self.put_decimal(n);
        self.put(mark);
    }
}

pub fn put_line(words: &[u32], text: &mut [u8], at: usize) -> usize
    requires { at + line_room (length words.now) ≤ length text.old }
    ensures { Appended text.old at (line words.now) (line_room (length words.now)) text.new result }
{
    let mut text = Text {
        bytes: text,
        end: at,
    };
    let [front @ .., last] = words else {
        text.put(b'\n');
        return text.end;
    };
    for &word in front {
        text.put_number(word as usize, b' ');
    }
    text.put_number(*last as usize, b'\n');
    text.end
}

// The line of two numbers: a number and a place.
pub fn put_two(a: usize, b: usize, text: &mut [u8], at: usize) -> usize
    requires { at + two_room ≤ length text.old }
    ensures { Appended text.old at (line (a ∷ b ∷ [])) two_room text.new result }
{
    let mut text = Text {
        bytes: text,
        end: at,
    };
    text.put_number(a, b' ');
    text.put_number(b, b'\n');
    text.end
}
