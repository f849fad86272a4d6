ghost use Rattle.std.specs.Prelude.{◌≡◌, ◌∷◌, [], IfOk};
ghost use Rattle.script_words.specs.WordForm.{path_fit, sibling_fit, hex_fit, number_fit, count_fit, layer_of as layer};
ghost use Rattle.script_words.specs.WordList.{words_left, spaced_length};
ghost use Rattle.script_reader.specs.Taken.{TakesWord, TakesChoice, TakesEnd, IsJudged};
ghost use Rattle.script_forms.specs.Verbs.{served_verb as verb, act_word_of as act_word};
ghost use Rattle.script_forms.specs.Grammar.{text_fit};

use crate::faults::LineFault;
use script_forms::{ActWord, Verb, act_word_of, is_text, served_verb};
use script_words::{
    Fit, Limit, Words, count_fit, hex_fit, layer_of, number_fit, path_fit, sibling_fit,
};
use tect_ids::Layer;

/// The word, if it fits. `left` bytes of the line are left from it on.
pub fn judged<'a>(left: usize, word: &'a [u8], fit: Fit) -> Result<&'a [u8], LineFault>
    ensures { IsJudged left word.entry fit result }
{
    match fit {
        Fit::Fits => Ok(word),
        Fit::Over(limit) => Err(LineFault::Large(limit)),
        Fit::Unfit => Err(LineFault::Wrong { left }),
    }
}

/// The next word, a path.
pub fn take_path<'a>(words: &mut Words<'a>) -> Result<&'a [u8], LineFault>
    ensures { TakesWord path_fit result (words_left words.old) (words_left words.new) }
{
    let left = words.left();
    match words.next() {
        None => Err(LineFault::Wrong { left }),
        Some(word) => judged(left, word, path_fit(word)),
    }
}

/// The next word, a path beside another one.
pub fn take_sibling<'a>(words: &mut Words<'a>, other: &[u8]) -> Result<&'a [u8], LineFault>
    ensures { TakesWord (sibling_fit other.now) result (words_left words.old) (words_left words.new) }
{
    let left = words.left();
    match words.next() {
        None => Err(LineFault::Wrong { left }),
        Some(word) => judged(left, word, sibling_fit(other, word)),
    }
}

/// The next word, bytes in hexadecimal.
pub fn take_hex<'a>(words: &mut Words<'a>) -> Result<&'a [u8], LineFault>
    ensures { TakesWord hex_fit result (words_left words.old) (words_left words.new) }
{
    let left = words.left();
    match words.next() {
        None => Err(LineFault::Wrong { left }),
        Some(word) => judged(left, word, hex_fit(word)),
    }
}

/// The next word, a number from `low` up to `high`.
pub fn take_number<'a>(words: &mut Words<'a>, low: u32, high: u32) -> Result<&'a [u8], LineFault>
    ensures { TakesWord (number_fit low high) result (words_left words.old) (words_left words.new) }
{
    let left = words.left();
    match words.next() {
        None => Err(LineFault::Wrong { left }),
        Some(word) => judged(left, word, number_fit(low, high, word)),
    }
}

/// The next word, a number from 1 up to `most`, which is that limit.
pub fn take_count<'a>(words: &mut Words<'a>, limit: Limit, most: u32) -> Result<&'a [u8], LineFault>
    ensures { TakesWord (count_fit limit most) result (words_left words.old) (words_left words.new) }
{
    let left = words.left();
    match words.next() {
        None => Err(LineFault::Wrong { left }),
        Some(word) => judged(left, word, count_fit(limit, most, word)),
    }
}

/// The next word, a layer.
pub fn take_layer(words: &mut Words) -> Result<Layer, LineFault>
    ensures { TakesChoice layer result (words_left words.old) (words_left words.new) }
{
    let left = words.left();
    match words.next() {
        None => Err(LineFault::Wrong { left }),
        Some(word) => match layer_of(word) {
            Some(layer) => Ok(layer),
            None => Err(LineFault::Wrong { left }),
        },
    }
}

/// The next word, which begins a command.
pub fn take_verb(words: &mut Words) -> Result<Verb, LineFault>
    ensures { TakesChoice verb result (words_left words.old) (words_left words.new) }
{
    let left = words.left();
    match words.next() {
        None => Err(LineFault::Wrong { left }),
        Some(word) => match served_verb(word) {
            Some(verb) => Ok(verb),
            None => Err(LineFault::Wrong { left }),
        },
    }
}

/// The next word, which begins what a client does.
pub fn take_act_word(words: &mut Words) -> Result<ActWord, LineFault>
    ensures { TakesChoice act_word result (words_left words.old) (words_left words.new) }
{
    let left = words.left();
    match words.next() {
        None => Err(LineFault::Wrong { left }),
        Some(word) => match act_word_of(word) {
            Some(act) => Ok(act),
            None => Err(LineFault::Wrong { left }),
        },
    }
}

/// The next word, which is that text.
pub fn take_text<'a>(words: &mut Words<'a>, text: &str) -> Result<&'a [u8], LineFault>
    ensures { TakesWord (text_fit text.now) result (words_left words.old) (words_left words.new) }
{
    let left = words.left();
    match words.next() {
        None => Err(LineFault::Wrong { left }),
        Some(word) => {
            if is_text(word, text) {
                Ok(word)
            } else {
                Err(LineFault::Wrong { left })
            }
        }
    }
}

/// The line's end.
pub fn take_end(words: &mut Words) -> Result<(), LineFault>
    ensures { TakesEnd result (words_left words.old) }
{
    let left = words.left();
    match words.next() {
        None => Ok(()),
        Some(_) => Err(LineFault::Wrong { left }),
    }
}
