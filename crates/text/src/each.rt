ghost use Rattle.std.specs.Prelude.{ℕ, ◌+◌, ◌^◌, ◌<◌, List, Some, length};
ghost use Rattle.std.specs.Fmt.{DisplaysOnOk};
ghost use Rattle.text.specs.Texts.{each};

use std::fmt;

/// What a list is made of, written by its number in the list, where the text has one.
pub(crate) trait Numbered {
    ghost text: { ℕ → Self → List ℕ };

    fn fmt_numbered<W: fmt::Write>(&self, number: usize, f: &mut fmt::Formatter<W>) -> fmt::Result
        ensures writes { DisplaysOnOk W.write_str_gives f.old result (Some (text number self.now)) f.new };
}

/// Elements one after the other, numbered from `first`.
#[derive(Drop)]
pub(crate) struct Each<'a, T> {
    pub(crate) first: u8,
    pub(crate) elements: &'a [T],
    ghost numbers_fit: { first + length elements.now < 2 ^ 64 },
}

impl<T: Numbered> fmt::Display for Each<'_, T> {
    ghost output = { λ x. Some (each T.text x.first x.elements.now) };

    fn fmt<W: fmt::Write>(&self, f: &mut fmt::Formatter<W>) -> fmt::Result {
        for (i, element) in self.elements.iter().enumerate() {
            element.fmt_numbered(usize::from(self.first) + i, f)?;
        }
        Ok(())
    }
}
