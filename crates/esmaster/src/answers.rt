ghost use Rattle.std.specs.Prelude.{◌≡◌, IfOk};
ghost use Rattle.script_form.specs.Reading.{script_of};
ghost use Rattle.esmaster.specs.Answers.{IsReportedInOrder, answer_of, refusal_line};

use master_run::SerialCore;
use plain_data::{OutOfMemory, Text};
use script_form::{ScriptRefusal, read_script};
use session_law::report_text;
use std::alloc::Global;

/// What a replay is to write.
#[derive(Drop)]
pub(crate) struct Answer {
    /// Whether the script was refused.
    pub(crate) refused: bool,
    pub(crate) text: Text,
}

/// What a replay writes for a script: its report, or the line that refuses it.
#[tactic(auto, unfolding(crate::specs::Answers::answer_of))]
pub(crate) fn answer_to(alloc: Global, bytes: &[u8]) -> Result<Answer, OutOfMemory>
    ensures answer { IfOk result (λ made. made ≡ answer_of (script_of bytes.now)) }
    ensures in_order { IfOk result (λ made. IsReportedInOrder (script_of bytes.now)) }
{
    match read_script(alloc, bytes) {
        Ok(script) => {
            let session = SerialCore::run(alloc, &script)?;
            Ok(Answer {
                refused: false,
                text: report_text(alloc, &session)?,
            })
        }
        Err(ScriptRefusal::OutOfMemory) => Err(OutOfMemory),
        Err(refusal) => Ok(Answer {
            refused: true,
            text: line_of(alloc, &refusal)?,
        }),
    }
}

/// The line that refuses a script.
fn line_of(alloc: Global, refusal: &ScriptRefusal) -> Result<Text, OutOfMemory>
    ensures { IfOk result (λ made. made ≡ refusal_line refusal.now) }
{
    let line = format!(in alloc; "refused {refusal}\n")?;
    Ok(Text::from_string(line))
}
