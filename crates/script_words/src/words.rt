ghost use Rattle.std.specs.Prelude.{◌≡◌, ◌∷◌, [], MatchOption, length};
ghost use Rattle.script_words.specs.Splitting.{parts};

use crate::splitting::first_part;

/// The words of a line that are still to be read. One space stands between each two, so a word may be empty.
#[derive(Clone, Copy, Debug)]
pub struct Words<'a> {
    rest: Option<&'a [u8]>,
}

impl<'a> Words<'a> {
    ghost use Rattle.script_words.specs.WordList.{words_left, spaced_length};

    /// All words of the line.
    pub fn new(line: &'a [u8]) -> Words<'a>
        ensures { words_left result ≡ parts 32 line.now }
    {
        Words { rest: Some(line) }
    }

    /// The next word, which is taken.
    pub fn next(&mut self) -> Option<&'a [u8]>
        ensures { MatchOption result ((words_left self.old ≡ []) × (words_left self.new ≡ []))
            (λ word. words_left self.old ≡ word.now ∷ words_left self.new) }
    {
        match self.rest {
            None => None,
            Some(rest) => {
                let (word, more) = first_part(rest, b' ');
                self.rest = more;
                Some(word)
            }
        }
    }

    /// How many bytes of the line are left, from the next word on.
    pub fn left(&self) -> usize
        ensures { result ≡ spaced_length (words_left self.now) }
    {
        match self.rest {
            None => 0,
            Some(rest) => rest.len(),
        }
    }
}
