// The decimal numbers of a text. Whatever is no digit stands between them.
ghost use Rattle.std.specs.Prelude.{◌≡◌, ◌≤◌, ◌<◌, [], length, take, drop, IfSome};
ghost use Rattle.io.specs.Counts.{IsPrefixLen};
ghost use Rattle.replay.specs.Text.{digit_of, skipped, spelled, number_at, stored, stored_from, count_of};
ghost use Rattle.std.specs.Result.{is_ok};

// A number of a text, and the place after its last digit.
#[derive(Clone, Copy)]
pub struct Spelled {
    pub value: u32,
    pub end: usize,
}

// A number over 2^32 - 1.
#[derive(Clone, Copy)]
pub struct TooLarge;

// A text whose next number is too large, or finds no room. The numbers before it are stored.
#[derive(Clone, Copy)]
pub struct Cut {
    pub count: usize,
}

// The value of a digit.
fn digit(b: u8) -> Option<u32>
    ensures { result ≡ digit_of b }
{
    char::from(b).to_digit(10)
}

// The place of the first digit from here on.
fn skip(text: &[u8], from: usize) -> Option<usize>
    ensures value { result ≡ skipped from (drop from text.now) }
    ensures within { IfSome result (λ start. start < length text.now) }
{
    (from..text.len()).find(|i| digit(text[*i]).is_some())
}

// The number that the digits from here on spell.
fn spell(text: &[u8], from: usize) -> Result<Spelled, TooLarge>
    requires { from ≤ length text.now }
    ensures { result ≡ spelled 0 from (drop from text.now) }
{
    let mut value = 0u32;
    for end in from..text.len() {
        let Some(digit) = digit(text[end]) else {
            return Ok(Spelled { value, end });
        };
        value = value
            .checked_mul(10)
            .and_then(|tens| tens.checked_add(digit))
            .ok_or(TooLarge)?;
    }
    Ok(Spelled {
        value,
        end: text.len(),
    })
}

// The first number from here on.
fn number_at(text: &[u8], from: usize) -> Option<Result<Spelled, TooLarge>>
    ensures { result ≡ number_at text.now from }
{
    let start = skip(text, from)?;
    Some(spell(text, start))
}

// Stores the numbers of a text, up to the first that is too large, or that finds no room. Says how many there are.
pub fn read_numbers(text: &[u8], numbers: &mut [u32]) -> Result<usize, Cut>
    ensures prefix_len { IsPrefixLen (count_of result) numbers.new }
    ensures whole_after { stored (take (count_of result) numbers.new) (is_ok result)
        ≡ stored_from [] (length numbers.old) text.now 0 }
{
    let mut at: usize = 0;
    for (count, stored) in numbers.iter_mut().enumerate() {
        match number_at(text, at) {
            Some(Ok(number)) => {
                *stored = number.value;
                at = number.end;
            }
            Some(Err(TooLarge)) => return Err(Cut { count }),
            None => return Ok(count),
        }
    }
    Err(Cut {
        count: numbers.len(),
    })
}
