// A line cut to what its verdict needs.
ghost use Rattle.std.specs.Prelude.{◌≡◌, take};
ghost use Rattle.line.specs.Verdicts.{line_call, build_line};

// The first 1,201 bytes of a line, which get its verdict.
pub fn clip(line: &[u8]) -> &[u8]
    ensures bytes { result.now ≡ take 1201 line.now }
    ensures call { line_call result.now ≡ line_call line.now }
    ensures build { build_line result.now ≡ build_line line.now }
{
    &line[..line.len().min(1201)]
}
