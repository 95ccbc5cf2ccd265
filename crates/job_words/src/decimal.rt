// Numbers in decimal digits.
ghost use Rattle.std.specs.Prelude.{◌≡◌, ◌^◌, ◌<◌, ◌≤◌, IfSome};
ghost use Rattle.std.specs.Char.{is_ascii_digit};
ghost use Rattle.std.specs.List.{list_all};
ghost use Rattle.graph_model.specs.EdgeText.{number};
ghost use Rattle.job_words.specs.Commands.{number_between};

fn is_decimal(text: &str) -> bool
    ensures { result ≡ list_all is_ascii_digit text.now }
{
    text.as_bytes().iter().all(|byte| byte.is_ascii_digit())
}

/// The number of a text of decimal digits alone, where it has 64 bits at most.
fn decimal(text: &str) -> Option<u64>
    ensures { result ≡ number (2 ^ 64) text.now }
{
    if !is_decimal(text) {
        return None;
    }
    text.parse().ok()
}

/// The number of a text of decimal digits alone, where it is below the bound.
pub(crate) fn number_below(text: &str, bound: u64) -> Option<u64>
    ensures value { result ≡ number bound text.now }
    ensures below { IfSome result (λ number. number < bound) }
{
    let number = decimal(text)?;
    if number < bound { Some(number) } else { None }
}

/// The number of a text of decimal digits alone, where it is in the range.
pub(crate) fn number_between(text: &str, least: u64, greatest: u64) -> Option<u64>
    ensures value { result ≡ number_between least greatest text.now }
    ensures within { IfSome result (λ number. (least ≤ number) × (number ≤ greatest)) }
{
    let number = decimal(text)?;
    if least <= number && number <= greatest {
        Some(number)
    } else {
        None
    }
}
