// Text in lent bytes: a piece, a word by its number, or a number in decimal digits, put at a place,
// where what there is no room for is left out; and a number read from its digits. Nothing here is of
// DVB.
//
// The bytes are defined in specs/Text.antt, what digits say in specs/Digits.antt.
#![tactic(auto)]

ghost use Rattle.std.specs.Prelude.{◌≡◌, ◌∷◌, [], ◌≤◌, length, set, drop};
ghost use Rattle.std.proofs.lemmas.List.Edits.{sets};
ghost use Rattle.text.specs.Text.{reached, word_at, decimal};
ghost use Rattle.text.specs.Digits.{said_by};

// Puts a piece of text at a place, and answers the place after it.
pub fn put(out: &mut [u8], at: usize, piece: &[u8]) -> usize
    ensures { (out.new ≡ sets out.old at piece.now)
        × (result ≡ reached at (length piece.now) (length out.old)) }
{
    let mut end = at;
    for &byte in piece {
        end = put_byte(out, end, byte);
    }
    end
}

// Puts word k of a text whose words stand apart by single spaces, nothing where it has fewer, and
// answers the place after it.
pub fn put_word(out: &mut [u8], at: usize, words: &[u8], k: usize) -> usize
    ensures { (out.new ≡ sets out.old at (word_at k words.now))
        × (result ≡ reached at (length (word_at k words.now)) (length out.old)) }
{
    let mut end = at;
    for &letter in &words[word_start(words, k)..] {
        if letter == b' ' {
            return end;
        }
        end = put_byte(out, end, letter);
    }
    end
}

// Puts a number's decimal digits at a place, and answers the place after them.
pub fn put_decimal(out: &mut [u8], at: usize, n: u64) -> usize
    ensures { (out.new ≡ sets out.old at (decimal n)) × (result ≡ reached at (length (decimal n)) (length out.old)) }
{
    if n < 10 {
        return put_byte(out, at, 48 + n as u8);
    }
    let next = put_decimal(out, at, n / 10);
    put_byte(out, next, 48 + (n % 10) as u8)
}

// The number that one or more decimal digits say, if it is at most `most`. Leading zeros are taken.
pub fn read_decimal(digits: &[u8], most: u32) -> Option<u32>
    ensures { result ≡ said_by most digits.now }
{
    if digits.is_empty() {
        return None;
    }
    let mut n: u64 = 0;
    for &d in digits {
        if !d.is_ascii_digit() {
            return None;
        }
        n = n * 10 + (d - b'0') as u64;
        if (most as u64) < n {
            return None;
        }
    }
    Some(n as u32)
}

// Where word k begins.
fn word_start(words: &[u8], k: usize) -> usize
    ensures { (result ≤ length words.now) × (word_at 0 (drop result words.now) ≡ word_at k words.now) }
{
    let mut left = k;
    for (i, &byte) in words.iter().enumerate() {
        if left == 0 {
            return i;
        }
        if byte == b' ' {
            left -= 1;
        }
    }
    words.len()
}

fn put_byte(out: &mut [u8], at: usize, byte: u8) -> usize
    ensures { (out.new ≡ set out.old at byte) × (result ≡ reached at 1 (length out.old)) }
{
    if at < out.len() {
        out[at] = byte;
        return at + 1;
    }
    at
}
