//! Strings as JSON has them.
#![tactic(auto)]

ghost use Rattle.std.specs.Prelude.{◌≡◌, ◌++◌, OnOk, Some};
ghost use Rattle.json_text.specs.JsonString.{json_string};
ghost use Rattle.serde_json.specs.Data.{string as Text};
ghost use Rattle.serde_json.specs.Read.{read};

use serde_json::Value;
use std::alloc::{AllocError, Global};

/// Appends the string as JSON has it: within quotes, and with escapes for quotes, backslashes and control characters. So a reader of JSON
/// gets the string again.
///
/// # Errors
///
/// `AllocError` if memory runs out.
pub fn push_json_string(alloc: Global, text: &mut Vec<u8>, string: &str) -> Result<(), AllocError>
    ensures appended { OnOk result (text.new.items ≡ text.old.items ++ json_string string.now) }
    ensures reads_back { OnOk result (read (json_string string.now) ≡ Some (Text string.now)) }
{
    let shown = Value::try_from_str(alloc, string)?.to_string(alloc)?;
    text.extend_from_slice(shown.as_bytes())
}

#[cfg(test)]
mod tests {
    use super::push_json_string;
    use std::alloc::Global;

    /// The string behind a byte.
    fn pushed(alloc: Global, string: &str) -> Option<Vec<u8>> {
        let mut text = Vec::new(alloc);
        text.push(b':').ok()?;
        push_json_string(alloc, &mut text, string).ok()?;
        Some(text)
    }

    #[test]
    fn escapes(rt: HostRuntime) {
        let Some(text) = pushed(rt.alloc(), "a \"b\"\\c\n\té") else {
            return;
        };
        assert!(rt; text.as_slice() == ":\"a \\\"b\\\"\\\\c\\n\\té\"".as_bytes());
    }
}
