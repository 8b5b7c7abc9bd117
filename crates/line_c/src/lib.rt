// The check of a line, exported to programs in C: a crate of its own, since it is linked as a static library.
#![tactic(auto)]

ghost use Rattle.std.specs.Prelude.{◌≡◌, is_ok, ◌==◌};
ghost use Rattle.line.specs.CallLines.{call_form};
ghost use Rattle.line.specs.Verdicts.{line_call, check_code, Read};

// 0 for a call, and else the refusal's number times 10,000 and its place: one number, since programs in C call it.
#[unsafe(no_mangle)]
pub extern "C" fn line_check(line: &[u8]) -> u32
    ensures value { result ≡ check_code (line_call line.now) }
    ensures read { Read call_form line.now (line_call line.now) }
    ensures accepts { (result == 0) ≡ is_ok (line_call line.now) }
{
    line::line_check(line)
}
