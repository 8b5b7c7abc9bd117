// One field of a line: a letter, a number, or bytes that are neither.
ghost use Rattle.std.specs.Prelude.{ℕ, ◌≤◌, List, length};
ghost use Rattle.line.specs.Numbers.{digits, unsigned, signed, lone_capital, code};
ghost use Rattle.line.specs.Kinds.{fits, signed_number};
ghost use Rattle.line.specs.Cursors.{Valued, Reads, Gives};

// That bad bytes are borrowed from the line is a form that docs/DECISIONS.md asks for; nothing reads them yet.
#[derive(Clone, Copy)]
pub(crate) enum Field<'a> {
    Letter(char),
    Number(i32),
    Bad(&'a [u8]),
}

// The value of up to nine digits, or nothing where a byte is no digit. In a fold's closure nothing would bound the number, so that each step would need checked arithmetic; std's parse takes a plus too.
fn all_digits(bytes: &[u8]) -> Option<u32>
    requires { length bytes.now ≤ 9 }
    ensures { Valued digits bytes.now result }
{
    let mut n: u32 = 0;
    for b in bytes {
        if !b.is_ascii_digit() {
            return None;
        }
        n = n * 10 + u32::from(*b - b'0');
    }
    Some(n)
}

// The value of a number without sign: up to nine digits, and no leading zero but for 0 itself.
fn magnitude(bytes: &[u8]) -> Option<u32>
    ensures { Valued unsigned bytes.now result }
{
    let (first, rest) = bytes.split_first()?;
    if rest.len() > 8 || (*first == b'0' && !rest.is_empty()) {
        return None;
    }
    all_digits(bytes)
}

impl<'a> From<&'a [u8]> for Field<'a> {
    ghost from_gives = { λ bytes field. Reads bytes.now field };

    fn from(bytes: &'a [u8]) -> Field<'a> {
        let Some((first, rest)) = bytes.split_first() else {
            return Field::Bad(bytes);
        };
        if *first == b'-' {
            return match magnitude(rest) {
                Some(n) if n != 0 => Field::Number(-(n as i32)),
                _ => Field::Bad(bytes),
            };
        }
        if first.is_ascii_uppercase() && rest.is_empty() {
            return Field::Letter(char::from(*first));
        }
        match magnitude(bytes) {
            Some(n) => Field::Number(n as i32),
            None => Field::Bad(bytes),
        }
    }
}

impl<'a> Field<'a> {
    pub(crate) fn letter(self) -> Option<char>
        ensures { (bs : List ℕ) → Reads bs self.entry → Gives lone_capital code bs result }
    {
        match self {
            Field::Letter(letter) => Some(letter),
            _ => None,
        }
    }

    pub(crate) fn signed(self) -> Option<i32>
        ensures { (bs : List ℕ) → Reads bs self.entry → Gives (fits signed_number) signed bs result }
    {
        match self {
            Field::Number(n) => Some(n),
            _ => None,
        }
    }
}
