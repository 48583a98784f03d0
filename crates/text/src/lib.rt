// Short texts.
#![tactic(auto)]

ghost use Rattle.std.specs.Prelude.{◌≡◌, false, ◌+◌, ◌≤◌, ◌<◌, length};
ghost use Rattle.text.specs.Text.{max_text, text_of, is_text, word_length, text_length, is_false};
ghost use Rattle.text.specs.Listed.{is_char, text_value_size, is_listed_text};
ghost use Rattle.text.specs.Decimal.{is_digits, is_negated, decimal, is_decimal, IsPlain};

// How many bytes a text has at most.
const MAX_LENGTH: usize = 16;

// The bytes that a text may have: space to tilde.
const FIRST_CHAR: u8 = 32;

const LAST_CHAR: u8 = 126;

const MINUS_SIGN: u64 = 45;

const ZERO_DIGIT: u64 = 48;

// `false` as a word.
const FALSE: u64 = 0x65_73_6C_61_66;

// The place of a word's highest byte.
const TOP: u64 = 0x0100_0000_0000_0000;

// A text: 16 bytes in two words, low byte first. It ends with its last byte that isn't 0.
#[derive(Clone, Copy, PartialEq, Eq)]
pub struct Text {
    pub low: u64,
    pub high: u64,
}

impl Text {
    // Whether two texts are the same, byte for byte. `==` compares their words.
    pub fn equals(self, other: Text) -> bool
        ensures { result ≡ is_text self.low self.high (text_of other.low other.high) }
    {
        self == other
    }

    // Whether the text is empty, `0` or `false`.
    pub fn is_false(self) -> bool
        ensures { result ≡ is_false self.low self.high }
    {
        matches!(self.low, 0 | ZERO_DIGIT | FALSE) & (self.high == 0)
    }

    // Whether the text is the plain decimal form of an Int.
    pub fn is_decimal(self, n: i64) -> bool
        ensures equal { result ≡ is_decimal self.low self.high n }
        ensures plain { IsPlain n (decimal n) }
        ensures long { max_text < length (decimal n) → result ≡ false }
    {
        let size = n.unsigned_abs();
        if n < 0 {
            return self.is_negated(size);
        }
        if size == 0 {
            return self
                == Text {
                    low: ZERO_DIGIT,
                    high: 0,
                };
        }
        self.is_digits(size)
    }

    // The length of a text.
    pub fn length_of(self) -> u8
        ensures { result ≡ text_length self.low self.high }
    {
        if self.high == 0 {
            return word_length(self.low);
        }
        8 + word_length(self.high)
    }

    // Whether the text is the digits of a number, the first of them not 0; of 0 there are none.
    fn is_digits(self, n: u64) -> bool
        ensures { result ≡ is_digits self.low self.high n }
    {
        let mut rest = n;
        let mut digits = Text { low: 0, high: 0 };
        while rest != 0 {
            if TOP <= digits.high {
                return false;
            }
            digits = Text {
                low: digits.low % TOP * 256 + (ZERO_DIGIT + rest % 10),
                high: digits.high * 256 + digits.low / TOP,
            };
            rest /= 10;
        }
        digits == self
    }

    // Whether the text is a minus sign and the digits of a number.
    fn is_negated(self, n: u64) -> bool
        ensures { result ≡ is_negated self.low self.high n }
    {
        if self.low % 256 != MINUS_SIGN {
            return false;
        }
        let digits = Text {
            low: self.low / 256 + self.high % 256 * TOP,
            high: self.high / 256,
        };
        digits.is_digits(n)
    }
}

// How many bytes of a word there are up to the last that isn't 0.
fn word_length(x: u64) -> u8
    ensures { (result ≡ word_length x) × (result ≤ 8) }
{
    ((u64::BITS - x.leading_zeros() + 7) / 8) as u8
}

// Whether a byte may stand at a place of a text of some length.
fn is_char(length: usize, place: usize, x: u8) -> bool
    ensures { result ≡ is_char length place x }
{
    if place < length {
        (FIRST_CHAR <= x) & (x <= LAST_CHAR)
    } else {
        x == 0
    }
}

// Whether a length and bytes that a text may have stand at an offset.
pub fn is_listed(s: &[u8], at: usize) -> bool
    requires { at + text_value_size ≤ length s.now }
    ensures { result ≡ is_listed_text s.now at }
{
    let length = usize::from(s[at]);
    if MAX_LENGTH < length {
        return false;
    }
    for i in 0..MAX_LENGTH {
        if !is_char(length, i, s[at + 1 + i]) {
            return false;
        }
    }
    true
}
