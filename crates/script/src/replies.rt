// The text of what a run replies. Each function adds one line to a text.
ghost use Rattle.std.specs.Prelude.{◌≡◌, ◌++◌, string_bytes, OnOk};
ghost use Rattle.script.specs.Replies.{level_text, standing_text, reply_text};

use machine::word::Reply;
use std::alloc::{AllocError, Global};
use units::unit::Standing;

// `level` LEVEL
pub fn add_level(text: &mut String, level: u32) -> Result<(), AllocError>
    ensures { OnOk result (string_bytes text.new ≡ string_bytes text.old ++ level_text level) }
{
    writeln!(text, "level {level}")
}

// ASKED LAG REST
pub fn add_standing(text: &mut String, standing: Standing) -> Result<(), AllocError>
    ensures { OnOk result (string_bytes text.new ≡ string_bytes text.old ++ standing_text standing) }
{
    writeln!(text, "{standing}")
}

// The line of a reply: of a tick, of where the run stands, or of a refusal.
pub fn add_reply(_heap: Global, text: &mut String, reply: Reply) -> Result<(), AllocError>
    ensures { OnOk result (string_bytes text.new ≡ string_bytes text.old ++ reply_text reply) }
{
    writeln!(text, "{reply}")
}
