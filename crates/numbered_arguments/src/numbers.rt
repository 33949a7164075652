//! Digits at the front of a text, and the numbers that they spell.
ghost use Rattle.std.specs.Prelude.{◌≡◌, true};
ghost use Rattle.std.specs.List.{list_all, prefix_len};
ghost use Rattle.std.specs.Char.{is_ascii_digit};
ghost use Rattle.format_arguments.specs.Bytes.{behind, run};
ghost use Rattle.numbered_arguments.specs.NumberedArguments as spec;

fn digits_len(text: &[u8]) -> usize
    ensures { result ≡ prefix_len is_ascii_digit text.now }
{
    text.iter().take_while(|byte| byte.is_ascii_digit()).count()
}

/// Splits off the digits at the front.
pub fn split_digits(text: &[u8]) -> (&[u8], &[u8])
    ensures front { result.0.now ≡ run is_ascii_digit text.now }
    ensures back { result.1.now ≡ behind is_ascii_digit text.now }
{
    text.split_at(digits_len(text))
}

/// Skips the digits at the front.
pub fn skip_digits(text: &[u8]) -> &[u8]
    ensures { result.now ≡ behind is_ascii_digit text.now }
{
    let (_, rest) = split_digits(text);
    rest
}

/// The argument number that digits spell; numbers count modulo 2^32, as in GNU gettext.
pub fn number_of(digits: &[u8]) -> u32
    requires { list_all is_ascii_digit digits.now ≡ true }
    ensures { result ≡ spec.number_of digits.now }
{
    let mut number: u32 = 0;
    'digits: for digit in digits {
        number = number
            .wrapping_mul(10)
            .wrapping_add(u32::from(*digit - b'0'));
    }
    number
}
