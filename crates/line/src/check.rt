// The check of a line: it keeps no state.
ghost use Rattle.std.specs.Prelude.{◌≡◌, is_ok, ◌==◌};
ghost use Rattle.line.specs.CallLines.{call_form};
ghost use Rattle.line.specs.Verdicts.{line_call, check_code, Read};

use crate::reader::read_call;
use market::refusal::RefusalCode;

// 0 for a call, and else the refusal's number times 10,000 and its place: one number, since programs in C call it.
pub fn line_check(line: &[u8]) -> u32
    ensures value { result ≡ check_code (line_call line.now) }
    ensures read { Read call_form line.now (line_call line.now) }
    ensures accepts { (result == 0) ≡ is_ok (line_call line.now) }
{
    match read_call(line) {
        Ok(_) => 0,
        Err(refusal) => {
            let code = RefusalCode::from(refusal);
            code.number * 10_000 + code.place
        }
    }
}
