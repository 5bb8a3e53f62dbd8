//! Lower-case hexadecimal digits, two for each byte.

ghost use Rattle.std.specs.Prelude.{◌≡◌, ◌≢◌, ◌<◌, ◌≤◌, ◌*◌, ℕ, List, length, slice_index, IsTrue, IsFalse};
ghost use Rattle.hex.specs.Hex.{encode_lower, lower_digits};
ghost use Rattle.script_text.specs.Lines.{AreBytes};

/// For each byte the value of the digit that it is, and 16 where it is no lower-case digit.
const VALUES: [u8; 256] = [
    16, 16, 16, 16, 16, 16, 16, 16, 16, 16, 16, 16, 16, 16, 16, 16, 16, 16, 16, 16, 16, 16, 16, 16,
    16, 16, 16, 16, 16, 16, 16, 16, 16, 16, 16, 16, 16, 16, 16, 16, 16, 16, 16, 16, 16, 16, 16, 16,
    0, 1, 2, 3, 4, 5, 6, 7, 8, 9, 16, 16, 16, 16, 16, 16, 16, 16, 16, 16, 16, 16, 16, 16, 16, 16,
    16, 16, 16, 16, 16, 16, 16, 16, 16, 16, 16, 16, 16, 16, 16, 16, 16, 16, 16, 16, 16, 16, 16, 10,
    11, 12, 13, 14, 15, 16, 16, 16, 16, 16, 16, 16, 16, 16, 16, 16, 16, 16, 16, 16, 16, 16, 16, 16,
    16, 16, 16, 16, 16, 16, 16, 16, 16, 16, 16, 16, 16, 16, 16, 16, 16, 16, 16, 16, 16, 16, 16, 16,
    16, 16, 16, 16, 16, 16, 16, 16, 16, 16, 16, 16, 16, 16, 16, 16, 16, 16, 16, 16, 16, 16, 16, 16,
    16, 16, 16, 16, 16, 16, 16, 16, 16, 16, 16, 16, 16, 16, 16, 16, 16, 16, 16, 16, 16, 16, 16, 16,
    16, 16, 16, 16, 16, 16, 16, 16, 16, 16, 16, 16, 16, 16, 16, 16, 16, 16, 16, 16, 16, 16, 16, 16,
    16, 16, 16, 16, 16, 16, 16, 16, 16, 16, 16, 16, 16, 16, 16, 16, 16, 16, 16, 16, 16, 16, 16, 16,
    16, 16, 16, 16, 16, 16, 16, 16, 16, 16, 16, 16, 16, 16,
];

// The entry of a table for a byte.
#[inline(always)]
fn entry(table: &[u8; 256], byte: u8) -> u8
    ensures { result ≡ slice_index table.now byte }
{
    table[byte as usize]
}

// The value of a digit, and 16 for every other byte.
#[inline(always)]
fn value_of(byte: u8) -> u8
    ensures digit { result < 16 → slice_index lower_digits result ≡ byte }
    ensures none { 16 ≤ result → (value : ℕ) → value < 16 → slice_index lower_digits value ≢ byte }
{
    entry(&VALUES, byte)
}

/// Whether a field is of lower-case digits. Where it is, the bytes that it writes stand in `bytes`.
pub fn read_digits(field: &[u8], bytes: &mut [u8]) -> bool
    requires { length field.now ≡ 2 * length bytes.old }
    ensures size { length bytes.new ≡ length bytes.old }
    ensures read { IsTrue result → field.now ≡ encode_lower bytes.new }
    ensures are_bytes { IsTrue result → AreBytes bytes.new }
    ensures none { IsFalse result → (others : List ℕ) → AreBytes others → field.now ≢ encode_lower others }
{
    for i in 0..bytes.len() {
        let high = value_of(field[2 * i]);
        if high > 15 {
            return false;
        }
        let low = value_of(field[2 * i + 1]);
        if low > 15 {
            return false;
        }
        bytes[i] = high * 16 + low;
    }
    true
}
