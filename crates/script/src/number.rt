ghost use Rattle.std.specs.Prelude.{◌≡◌, ◌≤◌, length, Some, None, MatchResult};
ghost use Rattle.script.specs.Numbers.{number_of, numbers_of};
ghost use Rattle.script.specs.Words.{words_between};
ghost use Rattle.script.specs.declared.wrong.Wrong.TheVariants.{NoNumber};

use crate::words::Words;
use crate::wrong::Wrong;
use notation::table::Table;
use std::str;

/// The number that a word of digits writes, if it is at most 65,535.
fn number(word: &[u8]) -> Option<u16>
    ensures { result ≡ number_of word.now }
{
    if !word.iter().all(|byte| byte.is_ascii_digit()) {
        return None;
    }
    str::from_utf8(word).ok()?.parse().ok()
}

/// The numbers of at most four words.
pub(crate) fn numbers(words: Words<'_>) -> Result<Table<u16, 4>, Wrong>
    requires { length (words_between words.text.now) ≤ 4 }
    ensures { MatchResult result
        (λ table. numbers_of (words_between words.entry.text.now) ≡ Some table.items)
        (λ e. (numbers_of (words_between words.entry.text.now) ≡ None) × (e ≡ NoNumber)) }
{
    let mut table = Table::new(0);
    for word in words {
        table.push(number(word).ok_or(Wrong::NoNumber)?);
    }
    Ok(table)
}
