// The text of one line of the script.
ghost use Rattle.std.specs.Prelude.{◌≡◌, ◌+◌, ◌≤◌, ◌++◌, ◌∷◌, [], codes, length};
ghost use Rattle.hex.specs.Hex.{encode_lower};
ghost use Rattle.node_gen.specs.Script.{nth_digest, digest_line, put_line, equal_bytes};

use arrayvec::ArrayString;

// The bytes of the longest line, its LF counted.
const ROOM: usize = 2050;

/// A line, with room for its LF.
pub type Line = ArrayString<ROOM>;

// What a record's number is multiplied with, so that digests spread over all partitions.
const SPREAD: u64 = 0x9E37_79B9_7F4A_7C15;

fn digest_of(number: u32) -> [u8; 20]
    ensures { result ≡ nth_digest number }
{
    let mut digest = [0; 20];
    digest[..8].copy_from_slice(&u64::from(number).wrapping_mul(SPREAD).to_le_bytes());
    digest[8..12].copy_from_slice(&number.to_le_bytes());
    digest
}

// The hex digits of 20 bytes behind the text, in lower case.
fn push_digest(line: &mut Line, digest: &[u8; 20])
    requires { length line.old.bytes ≤ 5 }
    ensures bytes { line.new.bytes ≡ line.old.bytes ++ encode_lower digest.now }
    ensures len { length line.new.bytes ≡ length line.old.bytes + 40 }
{
    let mut digits = [0; 40];
    let Ok(()) = hex::encode_to_slice(digest, &mut digits) else {
        unreachable!()
    };
    let Ok(digits) = str::from_utf8(&digits) else {
        unreachable!()
    };
    line.push_str(digits);
}

// The hex digits of 1,000 bytes of this number modulo 256 behind the text, in lower case.
fn push_bytes(line: &mut Line, byte: u64)
    requires { length line.old.bytes ≤ 49 }
    ensures bytes { line.new.bytes ≡ line.old.bytes ++ equal_bytes byte }
    ensures len { length line.new.bytes ≡ length line.old.bytes + 2000 }
{
    let mut digits = [0; 2000];
    let Ok(()) = hex::encode_to_slice(&[(byte % 256) as u8; 1000], &mut digits) else {
        unreachable!()
    };
    let Ok(digits) = str::from_utf8(&digits) else {
        unreachable!()
    };
    line.push_str(digits);
}

/// A word and the digest of a record.
pub fn of_digest(word: &str, number: u32) -> Line
    requires { length word.now ≤ 4 }
    ensures bytes { result.bytes ≡ digest_line word.now number }
    ensures len { length result.bytes ≡ length word.now + 41 }
{
    let mut line = Line::new();
    line.push_str(word);
    line.push_str(" ");
    push_digest(&mut line, &digest_of(number));
    line
}

/// A put of a record, with 1,000 bytes of a number modulo 256.
pub fn of_put(number: u32, byte: u64) -> Line
    ensures bytes { result.bytes ≡ put_line number byte }
    ensures short { length result.bytes ≤ 2049 }
{
    let mut line = of_digest("put", number);
    line.push_str(" 0 * ");
    push_bytes(&mut line, byte);
    line
}

/// A line of one word.
pub fn of_word(word: &str) -> Line
    requires { length word.now ≤ 5 }
    ensures bytes { result.bytes ≡ word.now }
    ensures short { length result.bytes ≤ 5 }
{
    let mut line = Line::new();
    line.push_str(word);
    line
}
