ghost use Rattle.std.specs.Prelude.{◌≡◌};
ghost use Rattle.std.specs.List.{position};
ghost use Rattle.script_words.specs.Splitting.{splits, IsFirstPart};

fn place_of(bytes: &[u8], separator: u8) -> Option<usize>
    ensures { result ≡ position (splits separator) bytes.now }
{
    bytes.iter().position(|byte| *byte == separator)
}

/// The bytes up to the first separator, and those behind it.
pub fn first_part(bytes: &[u8], separator: u8) -> (&[u8], Option<&[u8]>)
    ensures { IsFirstPart separator bytes.now result.0.now result.1 }
{
    match place_of(bytes, separator) {
        None => (bytes, None),
        Some(end) => (&bytes[..end], Some(&bytes[end + 1..])),
    }
}
