//! The line of a storage command, and how it is read.

ghost use Rattle.std.specs.Prelude.{◌≡◌, option_map};
ghost use Rattle.proto.specs.PlainReader.{storage, quiet_in, storage_in, key_out};
ghost use Rattle.proto.specs.Views.{storage_line_of};

use crate::dialect::Dialect;
use crate::line::StorageWord;
use crate::words::{MAX_TEN_DIGITS, Words};

/// What a storage line says; the key is lent from the line.
#[derive(Drop)]
pub struct StorageLineView<'a> {
    pub word: StorageWord,
    /// The cas number that the entry is to have; 0 unless the word is `cas`.
    pub unique: u64,
    pub key: &'a [u8],
    pub flags: u32,
    pub exptime: i64,
    /// The length of the data block in bytes.
    pub size: u64,
    /// Whether `noreply` was given.
    pub noreply: bool,
}

impl<'a> StorageLineView<'a> {
    /// The key that the command takes out if its item is too large: that of a `set`.
    pub(crate) fn key_out(&self) -> Option<&'a [u8]>
        ensures { option_map (λ key. key.now) result ≡ key_out self.now.word self.now.key.now }
    {
        match self.word {
            StorageWord::Set => Some(self.key),
            _ => None,
        }
    }
}

/// Whether `noreply` is what is left of the line; None if something else is.
pub(crate) fn noreply(words: Words) -> Option<bool>
    ensures { result ≡ quiet_in words.entry }
{
    match words.rest() {
        None => Some(false),
        Some(rest) if rest == b"noreply".as_slice() => Some(true),
        Some(_) => None,
    }
}

/// Reads the words after the command word of a storage line.
pub(crate) fn storage_line<'a>(
    dialect: Dialect,
    word: StorageWord,
    mut words: Words<'a>,
) -> Option<StorageLineView<'a>>
    ensures { option_map (λ h. storage (storage_line_of h)) result ≡ storage_in dialect word words.entry }
{
    let key = words.next_key()?;
    let flags = words.next_number(u32::MAX as u64)?;
    let written = words.next_signed()?;
    let size = words.next_number(MAX_TEN_DIGITS)?;
    let unique = match word {
        StorageWord::Cas => words.next_number(u64::MAX)?,
        _ => 0,
    };
    let noreply = noreply(words)?;
    Some(StorageLineView {
        word,
        unique,
        key,
        flags: flags as u32,
        exptime: dialect.meant(written),
        size,
        noreply,
    })
}
