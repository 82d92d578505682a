//! The texts that tell why bytes are no request.
ghost use Rattle.std.specs.Prelude.{◌≡◌, IfOk, string_bytes};
ghost use Rattle.tb_request.specs.Promise.Reasons.{bad_request_text, reason_word};

use crate::request::Reason;
use std::alloc::Global;
use tb_value::OutOfMemory;

impl Reason {
    /// Its word.
    pub fn word(self) -> &'static str
        ensures { result.now ≡ reason_word self }
    {
        match self {
            Reason::Json => "Json",
            Reason::Shape => "Shape",
            Reason::Value => "Value",
            Reason::Rows => "Rows",
            Reason::Exec => "Exec",
            Reason::Heights => "Heights",
            Reason::Name => "Name",
            Reason::Flag => "Flag",
        }
    }
}

/// The text that tells the reason, with a newline.
///
/// # Errors
///
/// `OutOfMemory`.
pub fn bad_request_text(alloc: Global, reason: Reason) -> Result<String, OutOfMemory>
    ensures { IfOk result (λ t. string_bytes t ≡ bad_request_text reason) }
{
    let mut text = String::from_str(alloc, "{\"error\":\"BadRequest\",\"reason\":\"")?;
    text.push_str(reason.word())?;
    text.push_str("\"}\n")?;
    Ok(text)
}
