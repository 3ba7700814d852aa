ghost use Rattle.std.specs.Prelude.{◌≡◌, ◌<◌, ◌≤◌, ◌∷◌, [], string_bytes, IfSome};
ghost use Rattle.std.specs.Option.{is_some};
ghost use Rattle.command_steps.specs.Workers.{is_workers};

/// The number of workers that the word is: 1 to 64 in decimal digits, without a leading zero.
pub fn workers_in(word: &String) -> Option<u8>
    ensures some { is_some result ≡ is_workers (string_bytes word.now) }
    ensures range { IfSome result (λ n. (0 < n) × (n ≤ 64)) }
{
    match word.as_bytes() {
        [ones] => one_digit(*ones),
        [tens, ones] => two_digits(*tens, *ones),
        _ => None,
    }
}

fn one_digit(ones: u8) -> Option<u8>
    ensures some { is_some result ≡ is_workers (ones ∷ []) }
    ensures range { IfSome result (λ n. (0 < n) × (n ≤ 64)) }
{
    if b'1' <= ones && ones <= b'9' {
        return Some(ones - b'0');
    }
    None
}

fn two_digits(tens: u8, ones: u8) -> Option<u8>
    ensures some { is_some result ≡ is_workers (tens ∷ ones ∷ []) }
    ensures range { IfSome result (λ n. (0 < n) × (n ≤ 64)) }
{
    if !tens.is_ascii_digit() || !ones.is_ascii_digit() {
        return None;
    }
    let number = 10 * (tens - b'0') + (ones - b'0');
    if 10 <= number && number <= 64 {
        return Some(number);
    }
    None
}
