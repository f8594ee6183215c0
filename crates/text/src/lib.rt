// Text in fixed memory, for the programs that print.
// Internal: callers meet each `requires`.
// Words and numbers are put by calls that cannot fail. `write!` of a `Display` can: std says what a writer holds after it where it is Ok, and never that it
// is, so that no program could promise what it prints.
#![tactic(auto)]

ghost use Rattle.std.specs.Prelude.{◌≡◌, [], ◌++◌, ◌+◌, ◌≤◌, length};
ghost use Rattle.text.specs.Lines.{newline, refused_line};
ghost use Rattle.text.specs.Numbers.{decimal, hex16, signed};

use refusals::Refusal;
use std::marker::Model;

// A text of at most N bytes. A contract sees the text alone.
#[derive(Drop)]
pub struct Text<const N: usize> {
    bytes: [u8; N],
    length: usize,
}

impl<const N: usize> Model for Text<N> {
    ghost use Rattle.std.specs.Prelude.{ℕ, ◌≤◌, List, take};

    ghost Value = { List ℕ };

    ghost view = { λ t. take t.length t.bytes };

    ghost invariant = { λ t. t.length ≤ N };
}

impl<const N: usize> Text<N> {
    // No text.
    pub fn new() -> Self
        ensures { result ≡ [] }
    {
        Text {
            bytes: [0; N],
            length: 0,
        }
    }

    // The bytes of the text.
    pub fn as_bytes(&self) -> &[u8]
        ensures text { result.now ≡ self.now }
        ensures most { length result.now ≤ N }
    {
        &self.bytes[..self.length]
    }

    // Bytes as they stand, whatever they are.
    pub fn put_bytes(&mut self, bytes: &[u8])
        requires { length self.old + length bytes.now ≤ N }
        ensures { self.new ≡ self.old ++ bytes.now }
    {
        let all = &mut self.bytes[..];
        let end = self.length + bytes.len();
        all[self.length..end].copy_from_slice(bytes);
        self.length = end;
    }

    // A text as it stands.
    pub fn put(&mut self, text: &str)
        requires { length self.old + length text.now ≤ N }
        ensures { self.new ≡ self.old ++ text.now }
    {
        self.put_bytes(text.as_bytes());
    }

    // A number in base 10.
    pub fn put_decimal(&mut self, n: u64)
        requires { length self.old + 20 ≤ N }
        ensures text { self.new ≡ self.old ++ decimal n }
        ensures most { length (decimal n) ≤ 20 }
    {
        let mut digits = [0; 20];
        let k = io::decimal(n, &mut digits);
        self.put_bytes(&digits[..k]);
    }

    // 64 bits as 16 hex digits.
    pub fn put_hex(&mut self, v: u64)
        requires { length self.old + 16 ≤ N }
        ensures text { self.new ≡ self.old ++ hex16 v }
        ensures most { length (hex16 v) ≤ 16 }
    {
        let mut digits = [0; 16];
        let k = io::hex(v, 16, &mut digits);
        self.put_bytes(&digits[..k]);
    }

    // A signed number in base 10.
    pub fn put_signed(&mut self, z: i64)
        requires { length self.old + 21 ≤ N }
        ensures text { self.new ≡ self.old ++ signed z }
        ensures most { length (signed z) ≤ 21 }
    {
        if z < 0 {
            self.put("-");
        }
        self.put_decimal(z.unsigned_abs());
    }

    // A word and a number in base 10.
    pub fn put_numbered(&mut self, word: &[u8], n: u64)
        requires { length self.old + (length word.now + 20) ≤ N }
        ensures text { self.new ≡ self.old ++ (word.now ++ decimal n) }
        ensures most { length (word.now ++ decimal n) ≤ length word.now + 20 }
    {
        self.put_bytes(word);
        self.put_decimal(n);
    }

    // A line of a word and a number in base 10.
    pub fn put_line(&mut self, word: &[u8], n: u64)
        requires { length self.old + (length word.now + 21) ≤ N }
        ensures text { self.new ≡ self.old ++ (word.now ++ (decimal n ++ newline)) }
        ensures most { length (word.now ++ (decimal n ++ newline)) ≤ length word.now + 21 }
    {
        self.put_numbered(word, n);
        self.put("\n");
    }

    // The line of a refusal.
    #[tactic(auto, unfolding(crate::specs::Lines::refused_line))]
    pub fn put_refused(&mut self, refusal: Refusal)
        requires { length self.old + 53 ≤ N }
        ensures text { self.new ≡ self.old ++ refused_line refusal.number refusal.place }
        ensures most { length (refused_line refusal.number refusal.place) ≤ 53 }
    {
        self.put_numbered(b"refused ", u64::from(refusal.number));
        self.put_line(b" at ", u64::from(refusal.place));
    }
}
