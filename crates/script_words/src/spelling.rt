ghost use Rattle.std.specs.Prelude.{◌≡◌, ◌<◌, ◌++◌, OnOk, OnErr};
ghost use Rattle.std.specs.Io.{StartsWith};
ghost use Rattle.script_words.specs.WordText.{hex_digit, hex_text, layer_word as layer_text, path_text};

use tect_ids::{Layer, NoMemory, Path};

fn hex_digit(value: u8) -> u8
    requires { value < 16 }
    ensures { result ≡ hex_digit value }
{
    if value < 10 {
        value + b'0'
    } else {
        value - 10 + b'a'
    }
}

/// Adds two lower-case digits for each byte. For want of memory the text stays as it was.
pub fn push_hex(text: &mut Vec<u8>, bytes: &[u8]) -> Result<(), NoMemory>
    ensures ok { OnOk result (text.new.items ≡ text.old.items ++ hex_text bytes.now) }
    ensures err { OnErr result (text.new.items ≡ text.old.items) }
{
    let length = text.len();
    if add_hex(text, bytes).is_err() {
        text.truncate(length);
        return Err(NoMemory);
    }
    Ok(())
}

/// Adds the digits, or for want of memory some of them.
fn add_hex(text: &mut Vec<u8>, bytes: &[u8]) -> Result<(), NoMemory>
    ensures ok { OnOk result (text.new.items ≡ text.old.items ++ hex_text bytes.now) }
    ensures err { OnErr result (StartsWith text.new.items text.old.items) }
{
    for byte in bytes {
        text.push(hex_digit(*byte / 16))?;
        text.push(hex_digit(*byte % 16))?;
    }
    Ok(())
}

/// Adds a slash before each name of the path, and one slash for the root. For want of memory the text stays as it was.
pub fn push_path(text: &mut Vec<u8>, path: &Path) -> Result<(), NoMemory>
    ensures ok { OnOk result (text.new.items ≡ text.old.items ++ path_text path.now) }
    ensures err { OnErr result (text.new.items ≡ text.old.items) }
{
    let length = text.len();
    if add_path(text, path).is_err() {
        text.truncate(length);
        return Err(NoMemory);
    }
    Ok(())
}

/// Adds the names, or for want of memory some of them.
fn add_path(text: &mut Vec<u8>, path: &Path) -> Result<(), NoMemory>
    ensures ok { OnOk result (text.new.items ≡ text.old.items ++ path_text path.now) }
    ensures err { OnErr result (StartsWith text.new.items text.old.items) }
{
    let names = path.as_slice();
    if names.is_empty() {
        text.push(b'/')?;
    }
    for name in names {
        text.push(b'/')?;
        text.extend_from_slice(name.bytes())?;
    }
    Ok(())
}

/// The word of a layer.
pub fn layer_word(layer: Layer) -> &'static str
    ensures { result.now ≡ layer_text layer }
{
    match layer {
        Layer::Names => "name",
        Layer::Files => "file",
        Layer::Blocks => "block",
        Layer::Disks => "disk",
    }
}
