ghost use Rattle.std.specs.Prelude.{◌≡◌, ◌++◌, OnOk, OnErr};
ghost use Rattle.std.specs.Io.{StartsWith};

use itoa::{Buffer, Integer};
use tect_ids::{Name, NoMemory};

/// Adds a word.
pub fn push_word(text: &mut Vec<u8>, word: &str) -> Result<(), NoMemory>
    ensures ok { OnOk result (text.new.items ≡ text.old.items ++ word.now) }
    ensures err { OnErr result (StartsWith text.new.items text.old.items) }
{
    text.extend_from_slice(word.as_bytes())?;
    Ok(())
}

/// Adds a word and a name.
pub fn push_name(text: &mut Vec<u8>, word: &str, name: &Name) -> Result<(), NoMemory>
    ensures ok { OnOk result (text.new.items ≡ text.old.items ++ word.now ++ name.now) }
    ensures err { OnErr result (StartsWith text.new.items text.old.items) }
{
    push_word(text, word)?;
    text.extend_from_slice(name.bytes())?;
    Ok(())
}

/// Adds a word and the digits of a number.
pub fn push_number<N: Integer>(text: &mut Vec<u8>, word: &str, number: N) -> Result<(), NoMemory>
    ensures ok { OnOk result (text.new.items ≡ text.old.items ++ word.now ++ N.text number) }
    ensures err { OnErr result (StartsWith text.new.items text.old.items) }
{
    let mut digits = Buffer::new();
    push_word(text, word)?;
    text.extend_from_slice(digits.format(number).as_bytes())?;
    Ok(())
}
