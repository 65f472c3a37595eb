//! The line of a scenario text that is refused.
ghost use Rattle.std.specs.Prelude.{◌≡◌, ◌≤◌, length};
ghost use Rattle.xe_run.specs.Text.{IsReason};
ghost use Rattle.xe_run.specs.Text as spec;

use crate::line::Line;

/// The text of a reason for which a scenario text is refused.
fn reason_text(reason: u8) -> &'static [u8]
    requires { IsReason reason }
    ensures text { result.now ≡ spec.reason_text reason }
    ensures short { length result.now ≤ 24 }
{
    match reason {
        1 => b"header",
        2 => b"bad byte",
        3 => b"long line",
        4 => b"spacing",
        5 => b"unknown command",
        6 => b"wrong number of words",
        7 => b"unknown name",
        8 => b"bad number",
        9 => b"bad bytes",
        10 => b"bad region",
        11 => b"too much ram",
        12 => b"late ram",
        13 => b"too many",
        14 => b"too long",
        _ => unreachable!(),
    }
}

/// The line of a scenario text that is refused.
#[tactic(auto, unfolding(crate::specs::Text::refusal_text))]
pub(crate) fn refusal_line(number: u32, reason: u8) -> Line
    requires { IsReason reason }
    ensures { result ≡ spec.refusal_text number reason }
{
    let mut line = Line::new();
    line.push(b"refused line ");
    line.push_decimal(u64::from(number));
    line.push(b" reason ");
    line.push_decimal(u64::from(reason));
    line.push(b" ");
    line.push(reason_text(reason));
    line.push(b"\n");
    line
}
