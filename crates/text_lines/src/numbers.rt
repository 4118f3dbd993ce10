ghost use Rattle.std.specs.Prelude.{◌≡◌, ◌≢◌, ◌<◌, ◌^◌, ℕ, IfSome, None};
ghost use Rattle.std.specs.Fmt.{decimal};

use itoa::Buffer;

/// The number that the bytes write in decimal digits, without leading zeros and without a sign. None exactly where they
/// write none of 64 bits. It takes no memory.
pub fn read_number(bytes: &[u8]) -> Option<u64>
    ensures value { IfSome result (λ n. bytes.now ≡ decimal n) }
    ensures none { result ≡ None → (n : ℕ) → n < 2 ^ 64 → bytes.now ≢ decimal n }
{
    let Ok(text) = str::from_utf8(bytes) else {
        return None;
    };
    let Ok(number) = text.parse::<u64>() else {
        return None;
    };
    let mut digits = Buffer::new();
    if digits.format(number).as_bytes() == bytes {
        Some(number)
    } else {
        None
    }
}
