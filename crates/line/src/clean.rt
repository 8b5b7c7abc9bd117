// The bytes that a line may have.
ghost use Rattle.std.specs.Prelude.{◌≡◌, ◌≤◌};
ghost use Rattle.line.specs.Bytes.{allowed, longest, clean};

fn is_allowed(b: u8) -> bool
    ensures { result ≡ allowed b }
{
    matches!(b, b'0'..=b'9' | b'A'..=b'Z' | b'-' | b' ')
}

// How many bytes from the start are allowed, of the first 1,200.
pub(crate) fn clean_len(line: &[u8]) -> usize
    ensures within { result ≤ longest }
    ensures value { result ≡ clean line.now }
{
    line.iter()
        .take(1200)
        .take_while(|b| is_allowed(**b))
        .count()
}
