// Line 1, read.
ghost use Rattle.std.specs.Prelude.{◌≡◌, ◌≤◌, length};
ghost use Rattle.level_theory.specs.Words.{words_of, take_words};
ghost use Rattle.level_theory.specs.Reading.{setting_wants, read_header};
ghost use Rattle.words.specs.Tokens.{shown};
ghost use Rattle.words.specs.Cursors.{words_left};
ghost use Rattle.lines.specs.Headers.{kind_named, settings_read, header_read, header_told};

use crate::fault::{ReadFault, at_line};
use crate::header::{Header, Kind};
use crate::settings::check_settings;
use words::{Misplaced, Token, Words};

// The settings that the line asks for.
#[derive(Clone, Copy)]
struct Asked {
    degree: u32,
    bucket: u32,
    k: u32,
}

fn kind_of(word: Token) -> Result<Kind, Misplaced>
    ensures { result ≡ kind_named (shown word.entry) }
{
    let misplaced = Misplaced(word.place());
    let letters = word.letters().ok_or(misplaced)?;
    if letters == b"arm".as_slice() {
        Ok(Kind::Arms)
    } else if letters == b"card".as_slice() {
        Ok(Kind::Cards)
    } else {
        Err(misplaced)
    }
}

// The three settings, and no word behind them.
fn settings(words: &mut Words) -> Result<Asked, Misplaced>
    ensures { result ≡ settings_read (take_words setting_wants (words_left words.old) words.old.place) }
{
    let degree = words.number(1_048_576)?;
    let bucket = words.number(1_048_576)?;
    let k = words.number(1_048_576)?;
    words.end()?;
    Ok(Asked { degree, bucket, k })
}

fn header_words(words: &mut Words) -> Result<(Kind, Asked), Misplaced>
    ensures { result ≡ header_read (words_left words.old) words.old.place }
{
    let kind = kind_of(words.next())?;
    let asked = settings(words)?;
    Ok((kind, asked))
}

// The settings are looked at once the line has its form. That the line is short is a fact of the slice, as at `Words::new`.
pub fn read_header(line: &[u8]) -> Result<(Kind, Header), ReadFault>
    requires { length line.now ≤ 65536 }
    ensures { header_told result ≡ read_header 1 (words_of line.now) }
{
    let mut words = Words::new(line);
    let (kind, asked) = at_line(1, header_words(&mut words))?;
    // Taken apart, since `check_settings` is public and takes three numbers.
    let header = check_settings(asked.degree, asked.bucket, asked.k)?;
    Ok((kind, header))
}
