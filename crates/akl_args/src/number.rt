//! The numbers of options.

ghost use Rattle.std.specs.Prelude.{◌≡◌, ◌≤◌, IfSome};
ghost use Rattle.std.specs.Char.{is_ascii_digit};
ghost use Rattle.std.specs.List.{list_all};
ghost use Rattle.akl_args.specs.Numbers.{is_numeral, value_of, number_in};

// Whether a text has digits alone.
fn has_digits_alone(text: &str) -> bool
    ensures { result ≡ list_all is_ascii_digit text.now }
{
    text.bytes().all(|b| b.is_ascii_digit())
}

// Whether a text is 1 to 10 digits.
fn is_numeral(text: &str) -> bool
    ensures { result ≡ is_numeral text.now }
{
    !text.is_empty() && text.len() <= 10 && has_digits_alone(text)
}

// The number that a text of 1 to 10 digits writes.
fn value_of(text: &str) -> Option<u64>
    ensures { result ≡ value_of text.now }
{
    if !is_numeral(text) {
        return None;
    }
    text.parse::<u64>().ok()
}

/// The number that a text of 1 to 10 digits writes, where it is in the range.
pub fn number_in(low: u64, high: u64, text: &str) -> Option<u64>
    ensures number { result ≡ number_in low high text.now }
    ensures range { IfSome result (λ n. n ≤ high) }
{
    let number = value_of(text)?;
    if low <= number && number <= high {
        Some(number)
    } else {
        None
    }
}
