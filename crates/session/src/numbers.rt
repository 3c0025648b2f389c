// The numbers of a form.
ghost use Rattle.session.specs.Hex.{HexWord};
ghost use Rattle.std.specs.Option.{SomeIff};
ghost use Rattle.std.specs.Str.Parse.{digits_value};

// The number that 1 to 16 hexadecimal digits of either case write. Leading zeros count among the 16.
pub fn number(word: &[u8]) -> Option<u64>
    ensures { SomeIff result (HexWord word.now) (digits_value 16 word.now) }
{
    if !(1..=16).contains(&word.len()) {
        return None;
    }
    let mut n: u64 = 0;
    for b in word {
        let digit = char::from(*b).to_digit(16)?;
        n = n * 16 + u64::from(digit);
    }
    Some(n)
}
