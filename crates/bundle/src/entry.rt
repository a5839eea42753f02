ghost use Rattle.std.specs.Prelude.{◌≡◌, ◌≤◌, ◌++◌, List, ℕ, length, drop, IsTrue, IfSome, IsSomeAnd};
ghost use Rattle.std.specs.Char.{is_ascii_digit};
ghost use Rattle.std.specs.List.{list_all, prefix_len, take_while};
ghost use Rattle.std.specs.Option.{option_copied, option_map};
ghost use Rattle.bundle.specs.Path.{is_path_byte};
ghost use Rattle.bundle.specs.Entry.{Entry, IsEntry, entry_bytes};
ghost use Rattle.bundle.specs.File.{file_of};
ghost use Rattle.bundle.specs.Reading.{stripped, number_of, read_on, text_at, line_at, entry_at};

use crate::path::{is_good_path, is_path_byte};

/// A file of a bundle, borrowed from the bundle's bytes.
#[derive(Clone, Copy)]
pub struct FileEntry<'a> {
    pub path: &'a [u8],
    pub text: &'a [u8],
}

// What comes after a word that the bytes begin with.
pub(crate) fn strip<'a>(bytes: &'a [u8], word: &[u8]) -> Option<&'a [u8]>
    ensures { option_copied result ≡ stripped word.now bytes.now }
{
    bytes.strip_prefix(word)
}

// How many bytes from the front on a path may hold.
#[tactic(auto, using(std::proofs::lemmas::List::Sums::prefix_len_is))]
fn path_len(bytes: &[u8]) -> usize
    ensures len { result ≡ prefix_len is_path_byte bytes.now }
    ensures within { result ≤ length bytes.now }
{
    for (i, byte) in bytes.iter().enumerate() {
        if !is_path_byte(*byte) {
            return i;
        }
    }
    bytes.len()
}

// How many bytes from the front on are digits.
#[tactic(auto, using(std::proofs::lemmas::List::Sums::prefix_len_is))]
fn digits_len(bytes: &[u8]) -> usize
    ensures len { result ≡ prefix_len is_ascii_digit bytes.now }
    ensures within { result ≤ length bytes.now }
{
    for (i, byte) in bytes.iter().enumerate() {
        if !byte.is_ascii_digit() {
            return i;
        }
    }
    bytes.len()
}

// The longest front of bytes that a path may hold, and the rest.
fn cut_path(bytes: &[u8]) -> (&[u8], &[u8])
    ensures front { result.0.now ≡ take_while is_path_byte bytes.now }
    ensures rest { result.1.now ≡ drop (prefix_len is_path_byte bytes.now) bytes.now }
{
    bytes.split_at(path_len(bytes))
}

// The longest front of digits, and the rest.
fn cut_digits(bytes: &[u8]) -> (&[u8], &[u8])
    ensures front { result.0.now ≡ take_while is_ascii_digit bytes.now }
    ensures rest { result.1.now ≡ drop (prefix_len is_ascii_digit bytes.now) bytes.now }
    ensures digits { IsTrue (list_all is_ascii_digit result.0.now) }
{
    bytes.split_at(digits_len(bytes))
}

// The number that up to nine digits stand for.
fn value_of(digits: &[u8]) -> u32
    requires short { length digits.now ≤ 9 }
    requires digits { IsTrue (list_all is_ascii_digit digits.now) }
    ensures { result ≡ read_on 0 digits.now }
{
    let mut value: u32 = 0;
    for digit in digits {
        value = value * 10 + u32::from(*digit - b'0');
    }
    value
}

// The number that plain decimals stand for.
fn plain_number(digits: &[u8]) -> Option<u32>
    requires { IsTrue (list_all is_ascii_digit digits.now) }
    ensures { result ≡ number_of digits.now }
{
    if digits.is_empty() || digits.len() > 9 || (digits[0] == b'0' && digits.len() > 1) {
        return None;
    }
    Some(value_of(digits))
}

// A text of so many bytes before a line feed, and what comes after it.
#[tactic(auto, unfolding(crate::specs::Reading::text_at))]
fn cut_text(bytes: &[u8], len: u32) -> Option<(&[u8], &[u8])>
    ensures { option_map (λ r. (r.0.now, r.1.now)) result ≡ text_at len bytes.now }
{
    if bytes.len() < len as usize {
        return None;
    }
    let (text, after) = bytes.split_at(len as usize);
    let rest = strip(after, b"\n")?;
    Some((text, rest))
}

// The path and the length of an entry's first line, and what comes after it.
#[tactic(auto, unfolding(crate::specs::Reading::line_at))]
fn cut_line(bytes: &[u8]) -> Option<(&[u8], u32, &[u8])>
    ensures { option_map (λ r. (r.0.now, r.1, r.2.now)) result ≡ line_at bytes.now }
{
    let after = strip(bytes, b"file ")?;
    let (path, named) = cut_path(after);
    let counted = strip(named, b" ")?;
    let (digits, ended) = cut_digits(counted);
    let rest = strip(ended, b"\n")?;
    let len = plain_number(digits)?;
    if is_good_path(path) {
        Some((path, len, rest))
    } else {
        None
    }
}

#[tactic(auto, unfolding(crate::specs::Reading::entry_at))]
fn cut_entry(bytes: &[u8]) -> Option<(FileEntry<'_>, &[u8])>
    ensures { option_map (λ r. (file_of r.0, r.1.now)) result ≡ entry_at bytes.now }
{
    let (path, len, after) = cut_line(bytes)?;
    let (text, rest) = cut_text(after, len)?;
    Some((FileEntry { path, text }, rest))
}

/// The entry at the front of the bytes, and what comes after it; `None` exactly where no entry
/// with a good path and at most 999,999,999 bytes of text begins them. It takes no memory.
pub fn next_entry(bytes: &[u8]) -> Option<(FileEntry<'_>, &[u8])>
    ensures found { IfSome result (λ r. IsEntry (file_of r.0) × (bytes.now ≡ entry_bytes (file_of r.0) ++ r.1.now)) }
    ensures only { (e : Entry) (rest : List ℕ) → IsEntry e → bytes.now ≡ entry_bytes e ++ rest → IsSomeAnd result (λ r. (file_of r.0 ≡ e) × (r.1.now ≡ rest)) }
{
    cut_entry(bytes)
}
