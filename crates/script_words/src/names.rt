ghost use Rattle.std.specs.Prelude.{◌≡◌, ◌&&◌, ◌||◌, ◌<◌, ◌^◌, length};
ghost use Rattle.std.specs.List.{list_all};
ghost use Rattle.script_words.specs.WordForm.{is_letter, is_digit, is_name_byte, is_name_form, is_world_word, is_client_name, layer_of};

use tect_ids::Layer;

fn is_letter(byte: u8) -> bool
    ensures { result ≡ is_letter byte }
{
    byte >= b'a' && byte <= b'z'
}

fn is_client_byte(byte: u8) -> bool
    ensures { result ≡ (is_letter byte || is_digit byte) }
{
    is_letter(byte) || byte >= b'0' && byte <= b'9'
}

fn are_client_bytes(word: &[u8]) -> bool
    ensures { result ≡ list_all (λ b. is_letter b || is_digit b) word.now }
{
    word.iter().all(|byte| is_client_byte(*byte))
}

/// Whether the word begins a store line or a world line.
pub fn is_world_word(word: &[u8]) -> bool
    ensures { result ≡ is_world_word word.now }
{
    matches!(word, b"store" | b"sweep" | b"lose" | b"dump")
}

/// Whether the word is the name of a client.
pub fn is_client_name(word: &[u8]) -> bool
    ensures { result ≡ is_client_name word.now }
{
    !word.is_empty()
        && word.len() <= 16
        && is_letter(word[0])
        && are_client_bytes(word)
        && !is_world_word(word)
}

fn is_name_byte(byte: u8) -> bool
    ensures { result ≡ is_name_byte byte }
{
    byte >= 0x21 && byte <= 0x7e && byte != b'/'
}

fn are_name_bytes(name: &[u8]) -> bool
    ensures { result ≡ list_all is_name_byte name.now }
{
    name.iter().all(|byte| is_name_byte(*byte))
}

/// Whether these are the bytes of a name, of any length.
pub fn is_name_form(name: &[u8]) -> bool
    ensures { result ≡ is_name_form name.now }
{
    !name.is_empty() && are_name_bytes(name)
}

/// The layer that the word names.
pub fn layer_of(word: &[u8]) -> Option<Layer>
    ensures { result ≡ layer_of word.now }
{
    match word {
        b"name" => Some(Layer::Names),
        b"file" => Some(Layer::Files),
        b"block" => Some(Layer::Blocks),
        b"disk" => Some(Layer::Disks),
        _ => None,
    }
}
