ghost use Rattle.std.specs.Prelude.{◌≡◌, ◌<◌, ◌^◌, [], IfOk, length, true};
ghost use Rattle.script_words.specs.Splitting.{parts};
ghost use Rattle.script_words.specs.WordForm.{are_name_forms, is_path_form, path_names, names_fit, path_fit, folder_text, sibling_fit};

use crate::limits::{Fit, Limit};
use crate::names::is_name_form;
use crate::splitting::first_part;
use std::alloc::Global;
use tect_ids::{Items, Name, NoMemory, Path};

/// Whether each part between slashes has the bytes of a name.
fn are_name_forms(names: &[u8]) -> bool
    ensures { result ≡ are_name_forms (parts 47 names.now) }
{
    let mut rest = names;
    'names: loop {
        let (name, more) = first_part(rest, b'/');
        if !is_name_form(name) {
            return false;
        }
        match more {
            None => return true,
            Some(more) => rest = more,
        }
    }
}

fn is_path_form(word: &[u8]) -> bool
    ensures { result ≡ is_path_form word.now }
{
    match word {
        [b'/'] => true,
        [b'/', names @ ..] => are_name_forms(names),
        _ => false,
    }
}

/// The first limit that the names pass, from the left.
fn names_fit(names: &[u8]) -> Fit
    ensures { result ≡ names_fit 0 (parts 47 names.now) }
{
    let mut before: usize = 0;
    let mut rest = names;
    'names: loop {
        let (name, more) = first_part(rest, b'/');
        if before >= 256 {
            return Fit::Over(Limit::Depth);
        }
        if name.len() > 255 {
            return Fit::Over(Limit::Name);
        }
        match more {
            None => return Fit::Fits,
            Some(more) => rest = more,
        }
        before += 1;
    }
}

/// Whether the word is a path: a slash alone, or names each behind a slash.
pub fn path_fit(word: &[u8]) -> Fit
    ensures { result ≡ path_fit word.now }
{
    if !is_path_form(word) {
        return Fit::Unfit;
    }
    match word {
        [_, names @ ..] if !names.is_empty() => names_fit(names),
        _ => Fit::Fits,
    }
}

fn folder_text(word: &[u8]) -> &[u8]
    ensures { result.now ≡ folder_text word.now }
{
    let mut end = 0;
    for (at, byte) in word.iter().enumerate() {
        if *byte == b'/' {
            end = at + 1;
        }
    }
    &word[..end]
}

/// Whether the word is a path that has the same text before its last name as another one.
pub fn sibling_fit(other: &[u8], word: &[u8]) -> Fit
    ensures { result ≡ sibling_fit other.now word.now }
{
    if folder_text(word) == folder_text(other) {
        path_fit(word)
    } else {
        Fit::Unfit
    }
}

fn read_names(alloc: Global, names: &[u8]) -> Result<Path, NoMemory>
    ensures { IfOk result (λ path. path ≡ parts 47 names.now) }
{
    let mut path = Vec::new(alloc);
    let mut rest = names;
    'names: loop {
        let (name, more) = first_part(rest, b'/');
        match Name::new(alloc, name) {
            Ok(name) => path.push(name)?,
            Err(_) => return Err(NoMemory),
        }
        match more {
            None => return Items::from_vec(path),
            Some(more) => rest = more,
        }
    }
}

/// The path that the word writes.
pub fn read_path(alloc: Global, word: &[u8]) -> Result<Path, NoMemory>
    requires { path_fit word.now ≡ Fit.Fits }
    ensures { IfOk result (λ path. path ≡ path_names word.now) }
{
    match word {
        [_, names @ ..] if !names.is_empty() => read_names(alloc, names),
        _ => Ok(Items::new()),
    }
}
