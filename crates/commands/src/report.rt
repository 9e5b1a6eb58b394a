//! The text with a call's messages and how the call ended.
ghost use Rattle.std.specs.Prelude.{◌≡◌, ◌++◌, OnOk};
ghost use Rattle.hex.specs.Hex.{encode_lower};
ghost use Rattle.commands.specs.Report.{ending_line, hex_column, message_line};

use lpm::LpmFault;
use std::alloc::AllocError;
use std::io::Write;

// The bytes in hexadecimal.
fn push_hex(text: &mut Vec<u8>, bytes: &[u8]) -> Result<(), AllocError>
    ensures { OnOk result (text.new.items ≡ text.old.items ++ encode_lower bytes.now) }
{
    let start = text.len();
    let Some(digits) = bytes.len().checked_mul(2) else {
        return Err(AllocError);
    };
    let Some(end) = start.checked_add(digits) else {
        return Err(AllocError);
    };
    text.resize(end, 0)?;
    hex::encode_to_slice(bytes, &mut text[start..]).unwrap();
    Ok(())
}

// The bytes in hexadecimal after a blank, and nothing where there are none.
fn push_hex_column(text: &mut Vec<u8>, bytes: &[u8]) -> Result<(), AllocError>
    ensures { OnOk result (text.new.items ≡ text.old.items ++ hex_column bytes.now) }
{
    if bytes.is_empty() {
        return Ok(());
    }
    text.push(b' ')?;
    push_hex(text, bytes)
}

/// Appends the line of a message to the report.
pub fn push_message(text: &mut Vec<u8>, number: usize, message: &[u8]) -> Result<(), AllocError>
    ensures { OnOk result (text.new.items ≡ text.old.items ++ message_line number message.now) }
{
    let length = message.len();
    write!(text, "message {number} {length}").map_err(|_| AllocError)?;
    push_hex_column(text, message)?;
    text.push(b'\n')?;
    Ok(())
}

/// Appends the last line: the end, or the fault.
pub fn push_ending(text: &mut Vec<u8>, fault: Option<LpmFault>) -> Result<(), AllocError>
    ensures { OnOk result (text.new.items ≡ text.old.items ++ ending_line fault) }
{
    match fault {
        None => text.extend_from_slice(b"end\n"),
        Some(fault) => {
            let code = fault.code();
            writeln!(text, "fault {code}").map_err(|_| AllocError)
        }
    }
}
