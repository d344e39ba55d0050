// One line of a script: the call that it says, if it is one.
ghost use Rattle.std.specs.Prelude.{◌≡◌, ◌+◌, ◌≤◌, length};
ghost use Rattle.script.specs.Script.{number_said, line_in};

use crate::Call;
use crate::letters::is_letter;
use digits::hex_value;

// The number that stands at a place of a line: a space and eight digits. (The hint to inline: its four calls have fixed
// places, and a script of fields takes a fourteenth less.)
#[inline(always)]
fn number_at(line: &[u8], at: usize) -> Option<u32>
    requires { at + 9 ≤ length line.now }
    ensures { result ≡ number_said line.now at }
{
    if line[at] != b' ' {
        return None;
    }
    let mut number: u32 = 0;
    for digit in &line[at + 1..at + 9] {
        number = number * 16 + u32::from(hex_value(*digit)?);
    }
    Some(number)
}

// The call that a line with its line feed says.
#[tactic(auto, unfolding(crate::specs::Script::is_call, crate::specs::Script::shaped, crate::specs::Script::call_in))]
pub fn read_line(line: &[u8]) -> Option<Call>
    ensures { result ≡ line_in line.now }
{
    if line.len() != 38 || !is_letter(line[0]) || line[37] != b'\n' {
        return None;
    }
    Some(Call {
        letter: line[0],
        a: number_at(line, 1)?,
        b: number_at(line, 10)?,
        c: number_at(line, 19)?,
        d: number_at(line, 28)?,
    })
}
